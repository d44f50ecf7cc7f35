//! The table of what was read of a capture.
ghost use Rattle.std.specs.Prelude.{◌≡◌, ◌≤◌, true, Some, IfSome, option_and_then};
ghost use Rattle.serde_json.specs.Data.{Data, Members, object};
ghost use Rattle.serde_json.specs.Find.{get};
ghost use Rattle.serde_json.specs.View.{view};
ghost use Rattle.fd_snap.specs.Limits.{most_pixels};
ghost use Rattle.fd_events.specs.Table.{is_side};
ghost use Rattle.fd_capture.specs.Fault.{Gives};
ghost use Rattle.fd_capture.specs.Field.{number_between, number_member};
ghost use Rattle.fd_capture.specs.Capture.{table_of_value};
ghost use Rattle.fd_capture.specs.Head.{listed_from, table_from, AreOf, IsReadIn, HasHead};

use crate::events::ReadEvents;
use crate::fault::CaptureFault;
use crate::head::Head;
use crate::number::ranged;
use fd_events::EventTable;
use fd_snap::MAX_SIDE;
use serde_json::Value;
use std::alloc::Global;

/// The version, if it is 1, 2 or 3.
pub(crate) fn version(capture: &Value) -> Option<u32>
    ensures value { result ≡ number_member "version" 1 3 (view capture.now) }
    ensures within { IfSome result (λ version. (1 ≤ version) × (version ≤ 3)) }
{
    ranged(capture.get("version")?.as_i64(), 1, 3)
}

/// The table of a capture whose events were read as those of its version.
pub(crate) fn table(alloc: Global, version: u32, head: Head) -> Result<EventTable, CaptureFault>
    requires version { IsReadIn version (number_member "version" 1 3 (view head.members)) }
    requires events { IfSome head.events (λ read. AreOf version read) }
    ensures { (found : Members) → HasHead version head found → Gives (λ table. table) result (table_of_value (object found)) }
{
    let Head { members, events } = head;
    table_from(alloc, &members, events)
}

/// What was read of the events, if this is a capture.
fn listed(capture: &Value, events: Option<ReadEvents>) -> Option<ReadEvents>
    ensures { result ≡ listed_from (view capture.now) events }
{
    if capture.get("format")?.as_str()? != "framedbg" {
        return None;
    }
    events
}

/// A width or a height.
fn side(capture: &Value, name: &str) -> Option<u32>
    ensures value { result ≡ option_and_then (number_between 1 most_pixels) (get name.now (view capture.now)) }
    ensures side { IfSome result (λ n. is_side n ≡ true) }
{
    ranged(capture.get(name)?.as_i64(), 1, MAX_SIDE)
}

/// The table of a capture's small members, and of what was read of its events.
fn table_from(
    alloc: Global,
    capture: &Value,
    events: Option<ReadEvents>,
) -> Result<EventTable, CaptureFault>
    requires { IfSome events (λ read. IfSome (number_member "version" 1 3 (view capture.now)) (λ version. AreOf version read)) }
    ensures { Gives (λ table. table) result (table_from (view capture.now) events) }
{
    let events = listed(capture, events).ok_or(CaptureFault::NotCapture)?;
    let version = version(capture).ok_or(CaptureFault::Version)?;
    let width = side(capture, "width").ok_or(CaptureFault::Size)?;
    let height = side(capture, "height").ok_or(CaptureFault::Size)?;
    let events = events?;
    Ok(EventTable::start(alloc, version, width, height, events)?)
}
