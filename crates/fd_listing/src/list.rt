//! The list of a capture's events.
ghost use Rattle.std.specs.Prelude.{ℕ, List};
ghost use Rattle.std.specs.Io.KnownBytes.{Appends};
ghost use Rattle.fd_listing.specs.Opening.{RefusesTooLong};
ghost use Rattle.fd_listing.specs.Listing.{WritesText, ListsEvents};
ghost use Rattle.fd_words.specs.Text.{event_list};
ghost use Rattle.fd_listing.specs.Counting.{CountsWriter, EndsFlushed};

use crate::opening::open;
use crate::texts::end_text;
use fd_device::Sink;
use fd_events::EventTable;
use fd_words::{Ending, send_events};
use std::alloc::Global;

/// Writes the list of a capture's events, as the reply to `events` at position 0.
///
/// Nothing is written where the capture is refused or memory is wanted.
pub fn list_events<W: Sink>(alloc: Global, capture: &[u8], sink: &mut W) -> Ending
    ensures lists { (written : List ℕ) × Appends (W.contents sink.old) (W.contents sink.new) written × ListsEvents capture.now written result }
    ensures too_long { RefusesTooLong capture.now result }
    // The writer failed only where its count of failures tells so.
    ensures failures { CountsWriter result (W.failure_count sink.old) (W.failure_count sink.new) }
    ensures flushed { EndsFlushed result (W.is_flushed sink.old) (W.is_flushed sink.new) }
{
    match open(alloc, capture) {
        Ok(table) => list_table(&table, sink),
        Err(ending) => ending,
    }
}

/// Writes the list of a table's events at position 0.
pub fn list_table<W: Sink>(table: &EventTable, sink: &mut W) -> Ending
    ensures writes { (written : List ℕ) × Appends (W.contents sink.old) (W.contents sink.new) written × WritesText (event_list table.now 0) written result }
    ensures failures { CountsWriter result (W.failure_count sink.old) (W.failure_count sink.new) }
    ensures flushed { EndsFlushed result (W.is_flushed sink.old) (W.is_flushed sink.new) }
{
    let mut sent = 0;
    let outcome = send_events(table, 0, sink, &mut sent);
    end_text(outcome, sent, sink)
}
