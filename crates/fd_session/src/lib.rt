//! A session of the debugger: a frame at a position, stepped forward and back, tile by tile.
#![tactic(auto)]

pub use answer::{Answer, SessionFault};
pub use fd_crew::MOST_WORKERS;
pub use fd_frame::Shows;
pub use session::Session;
pub use still::Still;

mod answer;
mod drive;
mod estimate;
mod frame;
pub mod laws;
mod moves;
mod near;
mod redraw;
mod session;
mod still;
mod switch;
#[cfg(test)]
mod tests;
mod way;
mod worth;
