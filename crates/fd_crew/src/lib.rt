//! Workers that take the lanes of a frame forward side by side, each lane at its own pace, and leave all of them at one position.
#![tactic(auto)]

pub use crew::{Advance, MOST_WORKERS, Outcome, run_back, run_forward, run_shared};
pub use lane::{Free, Gate, Lane};

mod crew;
mod fence;
mod lane;
pub mod laws;
mod team;
