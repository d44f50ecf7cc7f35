//! The table of a capture.
ghost use Rattle.std.specs.Prelude.{◌≡◌, ◌<◌, length, Err};
ghost use Rattle.fd_capture.specs.Limits.{most_bytes};
ghost use Rattle.fd_listing.specs.Opening.{Opens};

use fd_capture::{CaptureFault, read};
use fd_events::EventTable;
use fd_words::Ending;
use std::alloc::Global;

/// The table of a capture, or how a call on it ends.
pub fn open(alloc: Global, capture: &[u8]) -> Result<EventTable, Ending>
    ensures opens { Opens capture.now result }
    ensures too_long { most_bytes < length capture.now → result ≡ Err (Ending.Capture CaptureFault.TooLong) }
{
    match read(alloc, capture) {
        Ok(table) => Ok(table),
        Err(CaptureFault::Memory) => Err(Ending::Memory),
        Err(fault) => Err(Ending::Capture(fault)),
    }
}
