//! Undo records: what each event overwrote on a tile, oldest event first. A frame that keeps no pixel takes no memory.
#![tactic(auto)]

pub use shared::{AlikeFrame, AlikeFrames};
pub use stack::{Full, UndoStack};

mod block;
mod blocks;
mod kept;
mod restore;
mod room;
mod shared;
mod span;
mod span_lists;
mod span_slices;
mod stack;
mod store;
mod whole;
