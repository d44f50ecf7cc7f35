ghost use Rattle.std.specs.Prelude.{◌≡◌, ◌-◌, ◌≤◌};

/// Neighbouring pixels of row y, from column `left` up to `right`.
#[derive(Clone, Copy)]
pub(crate) struct Run {
    pub left: u32,
    pub right: u32,
    pub y: u32,
}

impl Run {
    /// How many pixels it has.
    pub(crate) fn count(self) -> usize
        requires { self.left ≤ self.right }
        ensures { result ≡ self.right - self.left }
    {
        (self.right - self.left) as usize
    }
}
