//! A tile with its undo records: a history that grows by an event and shrinks by one.
#![tactic(auto)]

pub use clears::{Clears, FoundClears};
pub use owner::{Owner, Refused};

mod clears;
pub mod laws;
mod next;
mod owner;
mod run;
