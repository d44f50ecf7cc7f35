//! What bytes come from and go to, and who is told how far a move has come.
#![tactic(auto)]

pub use beside::fill_beside;
pub use device::{Device, Failed, Sink, Source, send};
pub use progress::{Progress, Untold};

mod beside;
mod device;
mod progress;
