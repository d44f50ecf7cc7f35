//! How a move forward goes on, and how it is handed to the crew.
ghost use Rattle.std.specs.Prelude.{◌≡◌, ◌<◌, ◌≤◌, length};
ghost use Rattle.fd_session.specs.Moves.{forgets_by};

use crate::way::Way;
use crate::worth::{MOVE_WORK, STILL_WORK, Slice, next_slice};
use fd_crew::Gate;
use std::alloc::Global;

/// How a move forward goes on, and what its owners keep.
#[derive(Clone, Copy, PartialEq, Eq, Debug)]
pub(crate) enum Policy {
    /// All at once, by all workers, among whom the tiles are shared out evenly.
    Whole,
    /// Slice by slice, each by as many workers as it is worth. All that was done stays where memory runs out.
    Slices,
    /// The same, and after each slice the owners forget what it overwrote. So they take little memory, and a slice may begin wherever one ended.
    Still,
}

impl Policy {
    /// Whether the owners forget what was overwritten.
    pub(crate) fn forgets(self) -> bool
        ensures { result ≡ forgets_by self }
    {
        match self {
            Policy::Whole | Policy::Slices => false,
            Policy::Still => true,
        }
    }

    /// To where the calling thread goes on alone where memory ran out in a slice that came to a position: each thread wants memory of its own, and so does
    /// a tile that runs ahead.
    pub(crate) fn alone_to(self, slice: &Slice, at: u32) -> u32
        requires { at ≤ slice.now.end }
        ensures { result ≤ slice.now.end }
    {
        match self {
            Policy::Whole => at,
            Policy::Slices => {
                let was_alone = slice.workers == 1 && slice.end - at == 1;
                if was_alone { at } else { slice.end }
            }
            Policy::Still => slice.from.saturating_add(1).min(slice.end),
        }
    }
}

/// How a move forward is handed to the crew.
#[derive(Clone, Copy)]
pub(crate) struct Drive<'a, G: Gate> {
    pub policy: Policy,
    /// The most that a slice starts.
    pub workers: u32,
    pub alloc: Global,
    pub gate: &'a G,
}

impl<G: Gate> Drive<'_, G> {
    /// The next events of a move that has come to a position.
    pub(crate) fn next(&self, way: &Way<'_>, at: u32) -> Slice
        requires ahead { at < way.now.to }
        requires within { way.now.to ≤ length way.now.table.now.events }
        requires some { 1 ≤ self.now.workers }
        ensures from { result.from ≡ at }
        ensures on { at < result.end }
        ensures within { result.end ≤ way.now.to }
        ensures some { 1 ≤ result.workers }
        ensures most { result.workers ≤ self.now.workers }
    {
        match self.policy {
            Policy::Whole => Slice::even(at, way.to, self.workers),
            Policy::Slices => next_slice(way, at, self.workers, MOVE_WORK),
            Policy::Still => next_slice(way, at, self.workers, STILL_WORK),
        }
    }
}
