//! The words of the debugger: what is asked of it, commands as they are read, lines as they are written, and how a run ends.
#![tactic(auto)]

pub use command::{Command, CommandFault, read_command};
pub use ending::Ending;
pub use entries::send_entries;
pub use events::send_events;
pub use lines::{fault_line, number_line};
pub use request::Request;
pub use text::{Line, pixel_line, state_line};

mod chunk;
mod command;
mod ending;
mod entries;
mod events;
mod lines;
mod request;
mod text;
