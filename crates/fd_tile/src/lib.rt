//! The tiles of a target: the grid that they form, and the colours of each.
#![tactic(auto)]

pub use filling::fill;
pub use grid::Grid;
pub use place::{Place, TILE_SIDE};
pub use tile::{Piece, Tile};

mod corner;
mod filling;
mod grid;
mod part;
mod place;
mod tile;
