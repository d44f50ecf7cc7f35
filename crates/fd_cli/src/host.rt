//! What the program runs on.

use std::alloc::Global;
use std::thread::Threads;

/// The threads and the memory of the program.
#[derive(Drop)]
pub(crate) struct Host<'a, T: Threads + Sync> {
    pub rt: &'a T,
    pub alloc: Global,
}
