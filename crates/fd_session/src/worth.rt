//! How a move is cut into slices, how many workers each is worth, and where these begin, by an estimate of its work. What is drawn does not depend on it.
ghost use Rattle.std.specs.Prelude.{◌≡◌, ◌<◌, ◌≤◌, length};

use crate::estimate::{Estimate, Firsts};
use crate::way::Way;
use fd_crew::Advance;
use fd_events::EventTable;

/// The work that a worker must have to be worth its thread, in nanoseconds: a thread takes 30 to 50 microseconds to start.
const WORKER_WORK: usize = 130_000;

/// The work of a slice by its first worker and by each other one, in nanoseconds.
#[derive(Clone, Copy)]
pub(crate) struct SliceWork {
    pub first: usize,
    pub other: usize,
}

/// Of a session's move. With shorter slices more threads are started and waited for, and a tile goes through fewer events while it is in the cache.
pub(crate) const MOVE_WORK: SliceWork = SliceWork {
    first: 60_000_000,
    other: 60_000_000,
};

/// Of a still, whose records are gone after each slice, so that they take little memory.
pub(crate) const STILL_WORK: SliceWork = SliceWork {
    first: 10_000_000,
    other: 4_000_000,
};

impl SliceWork {
    /// By so many workers.
    fn of(self, workers: usize) -> usize {
        workers
            .saturating_sub(1)
            .saturating_mul(self.other)
            .saturating_add(self.first)
    }
}

/// The work of a slice for each tile beside that, in nanoseconds, so that on many tiles a slice does more than fetch them all.
const FETCHED_WORK: usize = 500;

/// The work at which a slice ends, in nanoseconds, by however many workers. In so long a time 67,108,864 pixels are written, whose colours take up to
/// 256 MiB among the undo records: about so much is drawn in vain at most where memory runs out, or one event where that is more.
const SLICE_MOST: usize = 268_435_456;

/// The events of a slice on a single tile. It is one worker's, whatever their work is, so that this is not estimated.
const TILE_SLICE: u32 = 4096;

/// The next events of a move, how many workers they are worth, and at which tile each of these begins.
#[derive(Drop)]
pub(crate) struct Slice {
    pub from: u32,
    pub end: u32,
    pub workers: u32,
    pub firsts: Firsts,
}

impl Slice {
    /// All events from one position to another, with the tiles shared out evenly among so many workers.
    pub(crate) fn even(from: u32, end: u32, workers: u32) -> Slice
        ensures from { result.from ≡ from }
        ensures end { result.end ≡ end }
        ensures workers { result.workers ≡ workers }
    {
        Slice {
            from,
            end,
            workers,
            firsts: Firsts::new(),
        }
    }

    /// How the crew goes through these events of a table.
    pub(crate) fn advance<'a>(&'a self, table: &'a EventTable) -> Advance<'a>
        ensures table { result.table.now ≡ table.now }
        ensures target { result.target ≡ self.now.end }
        ensures workers { result.workers ≡ self.now.workers }
    {
        Advance {
            table,
            target: self.end,
            workers: self.workers,
            firsts: &self.firsts,
        }
    }
}

/// The next slice of a move that has come to a position: as many events as are worth so much work, or all that are left, with the tiles shared out so that
/// each worker has about as much of it. On a single tile none is looked at.
pub(crate) fn next_slice(way: &Way<'_>, at: u32, workers: u32, work: SliceWork) -> Slice
    requires ahead { at < way.now.to }
    requires within { way.now.to ≤ length way.now.table.now.events }
    requires some { 1 ≤ workers }
    ensures from { result.from ≡ at }
    ensures on { at < result.end }
    ensures within { result.end ≤ way.now.to }
    ensures some { 1 ≤ result.workers }
    ensures most { result.workers ≤ workers }
{
    let Way {
        table,
        to,
        area,
        ..
    } = *way;
    if area.tiles < 2 {
        return Slice::even(at, to.min(at.saturating_add(TILE_SLICE)), 1);
    }
    // a worker that has no tile is worth nothing
    let useful = area.tiles.clamp(1, workers as usize);
    let fetched = area.tiles.saturating_mul(FETCHED_WORK);
    let enough = fetched.saturating_add(work.of(useful)).min(SLICE_MOST);
    let mut estimate = Estimate::of(&area, table, at);
    let end = take_events(&mut estimate, way, at, enough);
    let workers = (estimate.work() / WORKER_WORK).clamp(1, useful) as u32;
    Slice {
        from: at,
        end,
        workers,
        firsts: estimate.firsts(workers),
    }
}

/// Adds the next events of a move to an estimate of none, until they are enough work or none is left, and gives where they end. One that is half of it
/// by itself isn't taken behind others where they are enough with it, so that what it overwrites isn't kept beside what they do.
fn take_events(estimate: &mut Estimate<'_>, way: &Way<'_>, at: u32, enough: usize) -> u32
    requires ahead { at < way.now.to }
    requires within { way.now.to ≤ length way.now.table.now.events }
    ensures on { at < result }
    ensures within { result ≤ way.now.to }
{
    let Way { table, to, .. } = *way;
    let half = enough / 2;
    let mut end = at + 1;
    estimate.add_event(table, end);
    while end < to && estimate.work() < enough {
        if estimate.reached_work(table, end + 1) >= half {
            if !add_large(estimate, table, end + 1, enough) {
                break;
            }
        } else {
            estimate.add_event(table, end + 1);
        }
        end += 1;
    }
    end
}

/// Adds the event of this number, the next one, unless it is half of what is enough by itself and the events are enough with it; whether it did.
fn add_large(estimate: &mut Estimate<'_>, table: &EventTable, number: u32, enough: usize) -> bool
    requires first { 1 ≤ number }
    requires last { number ≤ length table.now.events }
{
    let before = *estimate;
    estimate.add_event(table, number);
    let work = estimate.work();
    let own = work.saturating_sub(before.work());
    if work >= enough && own >= enough / 2 {
        *estimate = before;
        return false;
    }
    true
}

#[cfg(test)]
mod tests;
