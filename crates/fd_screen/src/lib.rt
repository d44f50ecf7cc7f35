//! What somebody at a terminal is told beside the replies.
#![tactic(auto)]

pub use prompt::Prompt;
pub use screen::Screen;

mod prompt;
mod screen;
