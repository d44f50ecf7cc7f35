//! A frame at a position, and what its image is read from.
#![tactic(auto)]

pub use shows::Shows;

mod shows;
