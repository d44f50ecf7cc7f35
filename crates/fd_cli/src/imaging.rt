//! The image of a capture at a position.
ghost use Rattle.std.specs.Prelude.{◌≤◌, ℕ, List};
ghost use Rattle.std.specs.Io.KnownBytes.{Appends};
ghost use Rattle.fd_listing.specs.Counting.{CountsWriter, EndsFlushed};
ghost use Rattle.fd_listing.specs.Opening.{RefusesTooLong};
ghost use Rattle.fd_cli.specs.Imaging.{ShowsState, ImagesTable, WritesImage};

use crate::host::Host;
use fd_device::Sink;
use fd_events::EventTable;
use fd_listing::open;
use fd_pam::{PamFault, pam_len, write};
use fd_session::{Answer, SessionFault, Still};
use fd_words::Ending;
use std::alloc::Global;
use std::thread::Threads;

/// Writes the image of a capture at a position, or at the last one, as a PAM file.
///
/// Nothing is written where the capture is refused, where there is no such position, or where memory is wanted.
pub fn image<T: Threads + Sync, W: Sink>(
    rt: &T,
    alloc: Global,
    capture: &[u8],
    workers: u32,
    at: Option<u32>,
    sink: &mut W,
) -> Ending
    requires { (1 ≤ workers) × (workers ≤ 64) }
    ensures writes { (written : List ℕ) × Appends (W.contents sink.old) (W.contents sink.new) written × WritesImage capture.now at written result }
    ensures too_long { RefusesTooLong capture.now result }
    // The writer failed only where its count of failures tells so.
    ensures failures { CountsWriter result (W.failure_count sink.old) (W.failure_count sink.new) }
    ensures flushed { EndsFlushed result (W.is_flushed sink.old) (W.is_flushed sink.new) }
{
    let host = Host { rt, alloc };
    match open(alloc, capture) {
        Ok(table) => write_table(&host, table, workers, at, sink),
        Err(ending) => ending,
    }
}

/// Writes a still, and flushes.
fn write_shown<W: Sink>(alloc: Global, still: &Still, sink: &mut W) -> Ending
    ensures writes { (written : List ℕ) × Appends (W.contents sink.old) (W.contents sink.new) written × ShowsState still.now written result }
    ensures failures { CountsWriter result (W.failure_count sink.old) (W.failure_count sink.new) }
    ensures flushed { EndsFlushed result (W.is_flushed sink.old) (W.is_flushed sink.new) }
{
    let table = still.table();
    let sent = pam_len(table.width(), table.height());
    match write(alloc, sink, still) {
        Err(PamFault::Memory) => Ending::Memory,
        Err(PamFault::Write { sent }) => Ending::Write { sent },
        Ok(()) => match sink.flush() {
            Ok(()) => Ending::Done,
            Err(_) => Ending::Write { sent },
        },
    }
}

/// Writes the image of a table at a position, or at the last one.
pub(crate) fn write_table<T: Threads + Sync, W: Sink>(
    host: &Host<'_, T>,
    table: EventTable,
    workers: u32,
    at: Option<u32>,
    sink: &mut W,
) -> Ending
    requires { (1 ≤ workers) × (workers ≤ 64) }
    ensures writes { (written : List ℕ) × Appends (W.contents sink.old) (W.contents sink.new) written × ImagesTable table at written result }
    ensures failures { CountsWriter result (W.failure_count sink.old) (W.failure_count sink.new) }
    ensures flushed { EndsFlushed result (W.is_flushed sink.old) (W.is_flushed sink.new) }
{
    let to = at.unwrap_or(table.len());
    let Ok(mut still) = Still::start(host.alloc, table, workers) else {
        return Ending::Memory;
    };
    match still.go(host.rt, to, sink) {
        Answer::Moved { .. } => write_shown(host.alloc, &still, sink),
        Answer::Refused(SessionFault::NoSuchPosition) => Ending::NoSuchPosition,
        Answer::Stopped { .. } | Answer::Refused(_) => Ending::Memory,
    }
}
