//! A run of commands on a capture.
ghost use Rattle.std.specs.Prelude.{◌≡◌, ◌≤◌, ℕ, List, length};
ghost use Rattle.std.specs.Io.KnownBytes.{Consumes, Appends};
ghost use Rattle.fd_listing.specs.Opening.{RefusesTooLong};
ghost use Rattle.fd_cli.specs.Serving.{Serves, ServesCapture};
ghost use Rattle.fd_cli.specs.Waiting.{Reading, WaitsFor, WaitsAbout};
ghost use Rattle.fd_listing.specs.Counting.{CountsReader, CountsWriter, EndsFlushed};

use crate::dialogue::{Dialogue, MAX_BYTES};
use crate::host::Host;
use arrayvec::ArrayVec;
use fd_device::{Sink, Source, fill_beside};
use fd_events::EventTable;
use fd_listing::open;
use fd_session::Session;
use fd_words::Ending;
use std::alloc::Global;
use std::thread::Threads;

/// Answers the commands that come from the source, line by line, about a capture.
///
/// Each reply is flushed. At most 1,000,000 lines and 268,435,456 bytes are answered, and one byte more is taken at most.
/// Nothing is taken or written where the capture is refused or memory is wanted for the session.
pub fn serve<T: Threads + Sync, R: Source, W: Sink>(
    rt: &T,
    alloc: Global,
    capture: &[u8],
    workers: u32,
    source: &mut R,
    sink: &mut W,
) -> Ending
    requires { (1 ≤ workers) × (workers ≤ 64) }
    // What was written is what the session machine may answer to the lines that were taken, by how the run ends.
    ensures serves { (taken : List ℕ) × (written : List ℕ) × Consumes (R.remaining source.old) (R.remaining source.new) taken
        × Appends (W.contents sink.old) (W.contents sink.new) written
        × (length taken ≤ 268435457) × ServesCapture capture.now taken written result (R.has_ended source.new) }
    // Before each read all lines that ended were answered, and the answers passed on.
    ensures waits { WaitsAbout (record { contents = W.contents; is_flushed = W.is_flushed }) capture.now sink.old source.old source.new }
    ensures too_long { RefusesTooLong capture.now result }
    // The reader or the writer failed only where its count of failures tells so.
    ensures read { CountsReader result (R.failure_count source.old) (R.failure_count source.new) }
    ensures write { CountsWriter result (W.failure_count sink.old) (W.failure_count sink.new) }
    ensures flushed { EndsFlushed result (W.is_flushed sink.old) (W.is_flushed sink.new) }
{
    let host = Host { rt, alloc };
    match open(alloc, capture) {
        Ok(table) => serve_table(&host, table, workers, source, sink),
        Err(ending) => ending,
    }
}

/// Answers the commands that come from the source.
pub(crate) fn serve_table<T: Threads + Sync, R: Source, W: Sink>(
    host: &Host<'_, T>,
    table: EventTable,
    workers: u32,
    source: &mut R,
    sink: &mut W,
) -> Ending
    requires { (1 ≤ workers) × (workers ≤ 64) }
    ensures serves { (taken : List ℕ) × (written : List ℕ) × Consumes (R.remaining source.old) (R.remaining source.new) taken
        × Appends (W.contents sink.old) (W.contents sink.new) written
        × (length taken ≤ 268435457) × Serves table taken written result (R.has_ended source.new) }
    ensures waits { (reads : List (Reading R W)) × WaitsFor (record { contents = W.contents; is_flushed = W.is_flushed }) table sink.old source.old source.new
        reads }
    ensures read { CountsReader result (R.failure_count source.old) (R.failure_count source.new) }
    ensures write { CountsWriter result (W.failure_count sink.old) (W.failure_count sink.new) }
    ensures flushed { EndsFlushed result (W.is_flushed sink.old) (W.is_flushed sink.new) }
{
    let Ok(session) = Session::start(host.alloc, table, workers) else {
        return Ending::Memory;
    };
    let mut dialogue = Dialogue {
        session,
        line: ArrayVec::new(),
        lines: 0,
        bytes: 0,
        sent: 0,
    };
    let mut buffer = [0u8; 4096];
    loop {
        let room = buffer.len().min((MAX_BYTES + 1 - dialogue.bytes) as usize);
        let Ok(count) = fill_beside(source, sink, &mut buffer[..room]) else {
            return Ending::Read;
        };
        if count == 0 {
            return dialogue.finish(host, sink);
        }
        if let Err(ending) = dialogue.take_bytes(host, &buffer[..count], sink) {
            return ending;
        }
    }
}
