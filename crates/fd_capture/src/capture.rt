//! A whole capture.
ghost use Rattle.std.specs.Prelude.{◌≡◌, ◌<◌, ◌≤◌, length, Some, Err, MatchResult};
ghost use Rattle.serde_json.specs.Data.{Members, object};
ghost use Rattle.serde_json.specs.Read.{read};
ghost use Rattle.fd_capture.specs.Limits.{most_bytes};
ghost use Rattle.fd_capture.specs.Fault.{Fails, Gives};
ghost use Rattle.fd_capture.specs.Capture.{capture_of};
ghost use Rattle.fd_capture.specs.Head.{HasHead, table_of_text};

use crate::fault::CaptureFault;
use crate::head::{Head, read_head};
use crate::table::{table, version};
use fd_events::EventTable;
use std::alloc::Global;

/// The most bytes that a capture has.
pub const MAX_CAPTURE_LEN: usize = 67_108_864;

/// The table that a capture of version 1, 2 or 3 stands for, all its events switched on.
#[tactic(auto, unfolding(crate::specs::Capture::capture_of))]
pub fn read(alloc: Global, bytes: &[u8]) -> Result<EventTable, CaptureFault>
    // Unless memory runs out, it is exactly the table or the first fault.
    ensures exact { Gives (λ table. table) result (capture_of bytes.now) }
    // A capture that is too long is refused as such, whatever memory there is.
    ensures too_long { most_bytes < length bytes.now → result ≡ Err CaptureFault.TooLong }
{
    if bytes.len() > MAX_CAPTURE_LEN {
        return Err(CaptureFault::TooLong);
    }
    let Ok(text) = str::from_utf8(bytes) else {
        return Err(CaptureFault::NotJson);
    };
    table_of_text(alloc, text)
}

/// The version that a capture seems to have by what stands before its events. It may be wrong: then the text is read twice.
fn likely_version(text: &str) -> u32
    ensures { (1 ≤ result) × (result ≤ 3) }
{
    let before = match text.split_once("\"events\"") {
        Some((before, _)) => before,
        None => return 1,
    };
    let Some((_, after)) = before.split_once("\"version\"") else {
        return 1;
    };
    let value = after.trim_start().trim_start_matches(':').trim_start();
    match value.as_bytes().first() {
        Some(b'2') => 2,
        Some(b'3') => 3,
        _ => 1,
    }
}

/// What is read of a capture, its events as those of a version.
fn capture_head(alloc: Global, version: u32, text: &str) -> Result<Head, CaptureFault>
    ensures { MatchResult result (λ head. (found : Members) × (read text.now ≡ Some (object found)) × HasHead version head found)
        (λ fault. Fails fault (table_of_text text.now)) }
{
    match read_head(alloc, version, text)? {
        Some(head) => Ok(head),
        None => Err(CaptureFault::NotCapture),
    }
}

/// The table that a text stands for.
fn table_of_text(alloc: Global, text: &str) -> Result<EventTable, CaptureFault>
    ensures { Gives (λ table. table) result (table_of_text text.now) }
{
    let likely = likely_version(text);
    let head = capture_head(alloc, likely, text)?;
    let found = version(&head.members).unwrap_or(likely);
    if found == likely {
        return table(alloc, likely, head);
    }
    // The guess was wrong: what was read of the events goes before the text is read once more.
    drop(head);
    let head = capture_head(alloc, found, text)?;
    table(alloc, found, head)
}
