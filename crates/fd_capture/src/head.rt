//! The members of a capture, taken from the tokens of its text.
ghost use Rattle.std.specs.Prelude.{◌≡◌, ◌<◌, codes, cond, length, true, Some, None, Err, IfOk, OnOk, option_and_then};
ghost use Rattle.serde_json.specs.Data.{Data, Members, put};
ghost use Rattle.serde_json.specs.Read.{read};
ghost use Rattle.serde_json.specs.View.{members_view};
ghost use Rattle.fd_json.specs.Clipped.{clipped};
ghost use Rattle.fd_capture.specs.Streamed.{is_small};
ghost use Rattle.fd_json.specs.Taken.{taken, members_taken};
ghost use Rattle.fd_capture.specs.Head.{HasHead, IsHead};

use crate::events::{ReadEvents, events};
use crate::scope::Scope;
use fd_json::{Stop, clipped, open_object, pass};
use json::{Reader, Scratch};
use serde_json::{Map, Value};
use std::alloc::Global;

/// How deep the arrays and objects of a capture nest at most.
const MAX_DEPTH: usize = 127;

/// What was read of a capture: its small members, and its events as those of one version.
#[derive(Drop)]
pub(crate) struct Head {
    pub(crate) members: Value,
    pub(crate) events: Option<ReadEvents>,
}

/// What is read of a text that is one value, its events as those of a version.
pub(crate) fn read_head(alloc: Global, version: u32, text: &str) -> Result<Option<Head>, Stop>
    ensures ok { IfOk result (λ head. (d : Data) × (read text.now ≡ Some d) × IsHead version head d) }
    ensures refused { result ≡ Err Stop.NotJson → read text.now ≡ None }
{
    let mut scratch = Scratch::new(alloc);
    let mut reader = Reader::new(text, &mut scratch)?;
    let scope = Scope {
        alloc,
        version,
        depth: MAX_DEPTH,
    };
    let head = capture(&mut reader, scope)?;
    if reader.next().is_some() {
        return Err(Stop::NotJson);
    }
    Ok(head)
}

/// Whether a capture has a member of this name beside its events.
fn is_small(name: &str) -> bool
    ensures { result ≡ is_small name.now }
{
    match name {
        "format" | "version" | "width" | "height" => true,
        _ => false,
    }
}

/// The next value is the member of this name, and goes in among the small ones if it is one of them.
fn small_member(
    reader: &mut Reader<'_>,
    scope: Scope,
    name: &str,
    members: &mut Map<String, Value>,
) -> Result<(), Stop>
    ensures ok { OnOk result ((d : Data) × (taken scope.depth reader.old ≡ Some (d, reader.new))
        × (members_view members.new.entries
        ≡ cond (is_small name.now) (put name.now (clipped d) (members_view members.old.entries)) (members_view members.old.entries))) }
    ensures refused { result ≡ Err Stop.NotJson → taken scope.depth reader.old ≡ None }
    ensures shorter { OnOk result (length reader.new < length reader.old) }
{
    if !is_small(name) {
        pass(reader, scope.depth)?;
        return Ok(());
    }
    let key = String::from_str(scope.alloc, name)?;
    let value = clipped(scope.alloc, reader, scope.depth)?;
    drop(members.insert(key, value)?);
    Ok(())
}

/// The members of a capture whose brace was taken, up to the brace that closes it.
fn head_members(reader: &mut Reader<'_>, scope: Scope) -> Result<Head, Stop>
    ensures ok { IfOk result (λ head. (found : Members) × (members_taken scope.depth reader.old ≡ Some (found, reader.new))
        × HasHead scope.version head found) }
    ensures refused { result ≡ Err Stop.NotJson → members_taken scope.depth reader.old ≡ None }
    ensures shorter { OnOk result (length reader.new < length reader.old) }
{
    let mut members = Map::new(scope.alloc);
    let mut listed = None;
    'members: while let Some(name) = reader.next_key()? {
        if name == "events" {
            listed = events(reader, scope)?;
        } else {
            small_member(reader, scope, name, &mut members)?;
        }
    }
    Ok(Head {
        members: Value::Object(members),
        events: listed,
    })
}

/// The next value as a capture, if it is an object.
fn capture(reader: &mut Reader<'_>, scope: Scope) -> Result<Option<Head>, Stop>
    ensures ok { IfOk result (λ head. (d : Data) × (taken scope.depth reader.old ≡ Some (d, reader.new)) × IsHead scope.version head d) }
    ensures refused { result ≡ Err Stop.NotJson → taken scope.depth reader.old ≡ None }
{
    if !open_object(reader, scope.depth)? {
        return Ok(None);
    }
    let head = head_members(reader, scope.inner())?;
    Ok(Some(head))
}
