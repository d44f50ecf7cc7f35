//! A capture's table, and the list of its events.
#![tactic(auto)]

pub use list::{list_events, list_table};
pub use opening::open;
pub use texts::end_text;

mod list;
mod opening;
mod texts;
