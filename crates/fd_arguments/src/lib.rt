//! The words of a command line: what they may be, what the help says, and what they ask for.
#![tactic(auto)]

pub use arguments::Arguments;
pub use reading::{explained, read_arguments};

mod arguments;
mod reading;
mod words;
