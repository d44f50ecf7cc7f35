ghost use Rattle.std.specs.Prelude.{◌↔◌, IsTrue};

/// The length of a tile's side in pixels, where no border of the target cuts it.
pub const TILE_SIDE: u32 = 32;

/// Where a tile lies on its target, in pixels.
#[derive(Clone, Copy, PartialEq, Eq, Debug)]
pub struct Place {
    pub left: u32,
    pub top: u32,
    pub width: u32,
    pub height: u32,
}

impl Place {
    ghost use Rattle.fd_tile.specs.Place.{Holds};

    /// Whether pixel (x, y) of the target lies in the place.
    pub fn holds(&self, x: u32, y: u32) -> bool
        ensures { IsTrue result ↔ Holds self.now x y }
    {
        self.left <= x && x - self.left < self.width && self.top <= y && y - self.top < self.height
    }
}
