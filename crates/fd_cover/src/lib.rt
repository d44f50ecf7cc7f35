//! Coverage of pixels by triangles, culling, scissor, depth test and source colours, in whole numbers of 64 bits.
#![tactic(auto)]

pub use bounds::Bounds;
pub use colour_walk::{ColourWalk, shade_row};
pub use coverage::covers;
pub use depth::{Depth, Func, depth_at};
pub use depth_rows::{DepthRows, depth_row};
pub use scanlines::{Scanlines, row_span};
pub use shading::{Interp, shade};
pub use triangle::Tri;
pub use verdict::{Cull, Raster, Rect, Verdict, verdict_at};

mod bounds;
mod change;
mod colour_walk;
mod coverage;
mod depth;
mod depth_rows;
mod edge;
mod gradient;
mod vectors;
/// Laws of the definitions.
pub mod laws;
mod point;
mod reciprocal;
mod scanlines;
mod shading;
mod triangle;
mod verdict;
