ghost use Rattle.std.specs.Prelude.{◌≡◌, ℕ, ◌+◌, ◌<◌, ◌≤◌, ◌↔◌, IsSome, IfSome};
ghost use Rattle.fd_tile.specs.Place.{Holds, IsTilePlace};
ghost use Rattle.fd_tile.specs.Grid.{TargetSize, IsTargetSize, tile_count, place_of};

use crate::place::{Place, TILE_SIDE};
use fd_snap::MAX_SIDE;
use std::marker::Model;

/// The tiles of a target, numbered from 0, row by row.
#[derive(Drop, Debug)]
pub struct Grid {
    width: u32,
    height: u32,
}

impl Model for Grid {
    ghost use Rattle.fd_tile.specs.Grid.{TargetSize, IsTargetSize};

    ghost Value = { TargetSize };

    ghost view = { λ g. record { width = g.width; height = g.height } };

    ghost invariant = { λ g. IsTargetSize (record { width = g.width; height = g.height }) };
}

impl Grid {
    /// The tiles of a target of this size in pixels, or `None` where a side is 0 or above `MAX_SIDE`.
    pub fn new(width: u32, height: u32) -> Option<Grid>
        ensures within { IsSome result ↔ IsTargetSize (record { width = width; height = height }) }
        ensures value { IfSome result (λ grid. grid ≡ record { width = width; height = height }) }
    {
        if (1..=MAX_SIDE).contains(&width) && (1..=MAX_SIDE).contains(&height) {
            Some(Grid { width, height })
        } else {
            None
        }
    }

    /// How many tiles there are.
    pub fn count(&self) -> usize
        ensures { result ≡ tile_count self.now }
    {
        self.width.div_ceil(TILE_SIDE) as usize * self.height.div_ceil(TILE_SIDE) as usize
    }

    /// Where tile n lies.
    pub fn place(&self, n: usize) -> Place
        requires { n < tile_count self.now }
        ensures place { result ≡ place_of self.now n }
        ensures usable { IsTilePlace result }
        ensures inside { (result.left + result.width ≤ self.now.width) × (result.top + result.height ≤ self.now.height) }
    {
        let Grid { width, height } = *self;
        let columns = width.div_ceil(TILE_SIDE) as usize;
        let left = TILE_SIDE * (n % columns) as u32;
        let top = TILE_SIDE * (n / columns) as u32;
        Place {
            left,
            top,
            width: TILE_SIDE.min(width - left),
            height: TILE_SIDE.min(height - top),
        }
    }

    /// The one tile whose place has pixel (x, y) of the target.
    pub fn tile_of(&self, x: u32, y: u32) -> usize
        requires column { x < self.now.width }
        requires row { y < self.now.height }
        ensures below { result < tile_count self.now }
        ensures holds { Holds (place_of self.now result) x y }
        ensures only { (n : ℕ) → n < tile_count self.now → Holds (place_of self.now n) x y → n ≡ result }
    {
        let columns = self.width.div_ceil(TILE_SIDE) as usize;
        (y / TILE_SIDE) as usize * columns + (x / TILE_SIDE) as usize
    }
}
