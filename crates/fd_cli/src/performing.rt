//! What is asked for about a capture, once words and capture are read.
ghost use Rattle.std.specs.Prelude.{◌≡◌, ℕ, List, IfErr};
ghost use Rattle.std.specs.Io.KnownBytes.{Consumes, Appends};
ghost use Rattle.fd_listing.specs.Counting.{CountsReader, CountsWriter, EndsFlushed};
ghost use Rattle.fd_listing.specs.Opening.{OpensAs};
ghost use Rattle.fd_words.specs.Request.{AsksWorkers};
ghost use Rattle.fd_cli.specs.Performing.{Does, Performs, devices_shown};
ghost use Rattle.fd_cli.specs.Waiting.{WaitsAbout};

use crate::host::Host;
use crate::imaging::write_table;
use crate::serving::serve_table;
use fd_device::{Sink, Source};
use fd_events::EventTable;
use fd_listing::{list_table, open};
use fd_words::{Ending, Request};
use std::alloc::Global;
use std::thread::Threads;

/// What the program reads from, what it writes to, and what it tells its ending.
#[derive(Drop)]
pub struct Devices<R, W, E> {
    pub source: R,
    pub sink: W,
    pub errors: E,
}

/// Does what is asked for about a capture, tells the ending, and gives the exit status.
///
/// This is the program behind its words: what it writes is a function of the capture's bytes and of the input's, whatever the number of workers, up to
/// the first reply that tells of a want of memory.
pub fn perform<T: Threads + Sync, R: Source, W: Sink, E: Sink>(
    rt: &T,
    alloc: Global,
    request: Request,
    capture: &[u8],
    devices: &mut Devices<R, W, E>,
) -> u8
    requires { AsksWorkers request }
    ensures performs { let seen = devices_shown R.Source W.Sink.own E.Sink.own in
        Performs request capture.now (seen devices.old) (seen devices.new) (R.has_ended devices.new.source) result }
    // Before each read all lines that ended were answered, and the answers passed on.
    ensures waits { WaitsAbout (record { contents = W.contents; is_flushed = W.is_flushed }) capture.now
        devices.old.sink devices.old.source devices.new.source }
{
    perform_opened(rt, alloc, request, open(alloc, capture), devices)
}

/// The same about the bytes of a file, which give their memory back before anything is drawn.
pub(crate) fn perform_file<T: Threads + Sync, R: Source, W: Sink, E: Sink>(
    rt: &T,
    alloc: Global,
    request: Request,
    capture: Vec<u8>,
    devices: &mut Devices<R, W, E>,
) -> u8
    requires { AsksWorkers request }
    ensures performs { let seen = devices_shown R.Source W.Sink.own E.Sink.own in
        Performs request capture.items (seen devices.old) (seen devices.new) (R.has_ended devices.new.source) result }
    ensures waits { WaitsAbout (record { contents = W.contents; is_flushed = W.is_flushed }) capture.items
        devices.old.sink devices.old.source devices.new.source }
{
    let opened = open(alloc, &capture);
    drop(capture);
    perform_opened(rt, alloc, request, opened, devices)
}

/// The same about a capture of which the table is known, or how a call on it ends. Its bytes need not stay.
pub(crate) fn perform_opened<T: Threads + Sync, R: Source, W: Sink, E: Sink>(
    rt: &T,
    alloc: Global,
    request: Request,
    opened: Result<EventTable, Ending>,
    devices: &mut Devices<R, W, E>,
) -> u8
    requires workers { AsksWorkers request }
    requires opened { (capture : List ℕ) × OpensAs capture opened }
    ensures performs { let seen = devices_shown R.Source W.Sink.own E.Sink.own in (capture : List ℕ) → OpensAs capture opened
        → Performs request capture (seen devices.old) (seen devices.new) (R.has_ended devices.new.source) result }
    ensures waits { (capture : List ℕ) → OpensAs capture opened → WaitsAbout (record { contents = W.contents; is_flushed = W.is_flushed }) capture
        devices.old.sink devices.old.source devices.new.source }
{
    let ending = do_request(rt, alloc, request, opened, devices);
    let _ = ending.report(&mut devices.errors);
    ending.status()
}

/// Does what is asked for about a capture.
fn do_request<T: Threads + Sync, R: Source, W: Sink, E: Sink>(
    rt: &T,
    alloc: Global,
    request: Request,
    opened: Result<EventTable, Ending>,
    devices: &mut Devices<R, W, E>,
) -> Ending
    requires workers { AsksWorkers request }
    requires opened { (capture : List ℕ) × OpensAs capture opened }
    ensures does { (taken : List ℕ) × (written : List ℕ) × Consumes (R.remaining devices.old.source) (R.remaining devices.new.source) taken
        × Appends (W.contents devices.old.sink) (W.contents devices.new.sink) written
        × ((capture : List ℕ) → OpensAs capture opened → Does request capture taken written result (R.has_ended devices.new.source)) }
    ensures waits { (capture : List ℕ) → OpensAs capture opened → WaitsAbout (record { contents = W.contents; is_flushed = W.is_flushed }) capture
        devices.old.sink devices.old.source devices.new.source }
    ensures ends { IfErr opened (λ ending. result ≡ ending) }
    ensures read { CountsReader result (R.failure_count devices.old.source) (R.failure_count devices.new.source) }
    ensures write { CountsWriter result (W.failure_count devices.old.sink) (W.failure_count devices.new.sink) }
    ensures flushed { EndsFlushed result (W.is_flushed devices.old.sink) (W.is_flushed devices.new.sink) }
    ensures errors { devices.new.errors ≡ devices.old.errors }
{
    let table = match opened {
        Ok(table) => table,
        Err(ending) => return ending,
    };
    let host = Host { rt, alloc };
    let Devices { source, sink, .. } = devices;
    match request {
        Request::Run { workers } => serve_table(&host, table, workers, source, sink),
        Request::Image { workers, at } => write_table(&host, table, workers, at, sink),
        Request::Events => list_table(&table, sink),
    }
}
