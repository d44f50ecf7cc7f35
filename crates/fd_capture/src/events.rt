//! The events of a capture, taken from the tokens of its text.
ghost use Rattle.std.specs.Prelude.{◌≡◌, ◌<◌, ◌∷◌, ◌++◌, [], length, Some, None, Err, IfOk, OnOk};
ghost use Rattle.serde_json.specs.Data.{Data, Items};
ghost use Rattle.fd_json.specs.Taken.{taken, items_taken};
ghost use Rattle.fd_capture.specs.Fault.{Gives};
ghost use Rattle.fd_capture.specs.Capture.{event_numbered};
ghost use Rattle.fd_capture.specs.Listed.{GivesMore, GivesNext, GivesListed, few_events};
ghost use Rattle.fd_capture.specs.Field.{array_of, list_of};

use crate::fault::CaptureFault;
use crate::members::event;
use crate::scope::Scope;
use fd_events::{Event, MAX_EVENTS};
use fd_json::{Stop, open_array, pass};
use json::Reader;

/// The events that were read, or the first fault.
pub(crate) type ReadEvents = Result<Vec<Event>, CaptureFault>;

/// The next value as the events of a version, if it is an array.
pub(crate) fn events(reader: &mut Reader<'_>, scope: Scope) -> Result<Option<ReadEvents>, Stop>
    ensures ok { IfOk result (λ listed. (d : Data) × (taken scope.depth reader.old ≡ Some (d, reader.new)) × GivesListed scope.version listed (array_of d)) }
    ensures refused { result ≡ Err Stop.NotJson → taken scope.depth reader.old ≡ None }
    ensures shorter { OnOk result (length reader.new < length reader.old) }
{
    if !open_array(reader, scope.depth)? {
        return Ok(None);
    }
    let events = event_items(reader, scope.inner())?;
    Ok(Some(events))
}

/// One event more, after those that were read.
fn with_event(
    reader: &mut Reader<'_>,
    scope: Scope,
    events: ReadEvents,
    number: u32,
) -> Result<ReadEvents, Stop>
    ensures ok { IfOk result (λ more. (d : Data) × (taken scope.depth reader.old ≡ Some (d, reader.new))
        × GivesMore events more (event_numbered scope.version number d)) }
    ensures refused { result ≡ Err Stop.NotJson → taken scope.depth reader.old ≡ None }
    ensures shorter { OnOk result (length reader.new < length reader.old) }
{
    match events {
        Ok(mut events) => match event(reader, scope)? {
            Ok(event) => {
                events.push(event)?;
                Ok(Ok(events))
            }
            Err(fault) => Ok(Err(fault.at(number))),
        },
        Err(fault) => {
            pass(reader, scope.depth)?;
            Ok(Err(fault))
        }
    }
}

/// One item more of a list of events, which has this number: one event more, unless there are too many.
fn next_event(
    reader: &mut Reader<'_>,
    scope: Scope,
    events: ReadEvents,
    number: u32,
) -> Result<ReadEvents, Stop>
    ensures ok { IfOk result (λ more. (d : Data) × (taken scope.depth reader.old ≡ Some (d, reader.new))
        × GivesNext number events more (event_numbered scope.version number d)) }
    ensures refused { result ≡ Err Stop.NotJson → taken scope.depth reader.old ≡ None }
    ensures shorter { OnOk result (length reader.new < length reader.old) }
{
    if number > MAX_EVENTS {
        pass(reader, scope.depth)?;
        return Ok(Err(CaptureFault::TooMany));
    }
    with_event(reader, scope, events, number)
}

/// The events of an array whose bracket was taken, up to the bracket that closes it.
fn event_items(reader: &mut Reader<'_>, scope: Scope) -> Result<ReadEvents, Stop>
    ensures ok { IfOk result (λ events. (ds : Items) × (items_taken scope.depth reader.old ≡ Some (ds, reader.new))
        × Gives (λ v. v.items) events (few_events scope.version (list_of ds))) }
    ensures refused { result ≡ Err Stop.NotJson → items_taken scope.depth reader.old ≡ None }
    ensures shorter { OnOk result (length reader.new < length reader.old) }
{
    let mut events = Ok(Vec::new(scope.alloc));
    let mut number: u32 = 1;
    'items: while !reader.take_end_array() {
        events = next_event(reader, scope, events, number)?;
        number = number.saturating_add(1);
    }
    Ok(events)
}
