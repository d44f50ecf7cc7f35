//! Positions in a capture, and their snapping to the rasteriser's subpixel grid.
#![tactic(auto)]

pub use position::{POSITION_LIMIT, Pos};
pub use snapped::{SNAPPED_LIMIT, Snapped, snap};
pub use target::MAX_SIDE;

mod position;
mod snapped;
mod target;
#[cfg(test)]
mod tests;
