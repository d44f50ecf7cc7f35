//! Somebody who is told how far a long move has come.
ghost use Rattle.std.specs.Prelude.{◌≡◌};

/// Who is told, between the slices of a long move, where it is.
pub trait Progress {
    /// What of somebody is not changed by being told.
    ghost Kept: { Type 0 } = { Unit {0} };

    ghost kept: { Self → Self.Kept };

    /// Is told at which position a move is and to which it goes. It can't fail.
    fn on_the_way(&mut self, _at: u32, _to: u32)
        ensures { kept self.new ≡ kept self.old }
    {}
}

/// Somebody whom nothing is told.
#[derive(Drop)]
pub struct Untold;

impl Progress for Untold {
    ghost kept = { λ _. tt };
}
