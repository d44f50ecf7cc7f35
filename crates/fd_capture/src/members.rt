//! The members of an event, taken from the tokens of its text.
ghost use Rattle.std.specs.Prelude.{◌≡◌, ◌<◌, length, Some, None, Err, IfOk, OnOk};
ghost use Rattle.serde_json.specs.Data.{Data, Members};
ghost use Rattle.fd_json.specs.Taken.{taken, members_taken};
ghost use Rattle.fd_capture.specs.Capture.{event_of};
ghost use Rattle.fd_capture.specs.Drafted.{IsDraft, IsDraftWith, label_of, event_from, event_of_kind_from};

use crate::fault::EventFault;
use crate::from_tokens::FromTokens;
use crate::kind::{self, Kind};
use crate::large_members::{LargeMembers, draw};
use crate::picture::picture;
use crate::scope::Scope;
use crate::spelling::{Paint, spelled};
use crate::vertices::{indices, vertices};
use fd_blend::{Colour, Mask, Part};
use fd_cover::{Cull, Func, Rect};
use fd_events::{Event, Label};
use fd_json::{Stop, open_object, pass, text};
use json::Reader;

/// The event that was read, or what is wrong with it.
pub(crate) type ReadEvent = Result<Event, EventFault>;

/// What the members of an event stand for, each if it is there and well formed.
#[derive(Default, Drop)]
pub(crate) struct Draft {
    pub(crate) kind: Option<Kind>,
    pub(crate) colour: Option<Colour>,
    pub(crate) cull: Option<Cull>,
    pub(crate) front_ccw: Option<bool>,
    pub(crate) scissor: Option<bool>,
    pub(crate) rect: Option<Rect>,
    pub(crate) enable: Option<bool>,
    pub(crate) rgb: Option<Part>,
    pub(crate) alpha: Option<Part>,
    pub(crate) mask: Option<Mask>,
    pub(crate) paint: Option<Paint>,
    pub(crate) label: Option<Label>,
    pub(crate) write: Option<bool>,
    pub(crate) func: Option<Func>,
    pub(crate) depth: Option<u16>,
    pub(crate) large: LargeMembers,
}

/// The next value as an event.
pub(crate) fn event(reader: &mut Reader<'_>, scope: Scope) -> Result<ReadEvent, Stop>
    ensures ok { IfOk result (λ r. (d : Data) × (taken scope.depth reader.old ≡ Some (d, reader.new)) × (r ≡ event_of scope.version d)) }
    ensures refused { result ≡ Err Stop.NotJson → taken scope.depth reader.old ≡ None }
    ensures shorter { OnOk result (length reader.new < length reader.old) }
{
    if !open_object(reader, scope.depth)? {
        return Ok(Err(EventFault::BadField));
    }
    let draft = draft_members(reader, scope.inner())?;
    Ok(event_from(scope.version, draft))
}

/// The next value as the name of a marker.
fn label(reader: &mut Reader<'_>, scope: Scope) -> Result<Option<Label>, Stop>
    ensures ok { IfOk result (λ label. (d : Data) × (taken scope.depth reader.old ≡ Some (d, reader.new)) × (label ≡ label_of d)) }
    ensures refused { result ≡ Err Stop.NotJson → taken scope.depth reader.old ≡ None }
    ensures shorter { OnOk result (length reader.new < length reader.old) }
{
    let found = text(reader, scope.depth)?;
    match found {
        Some(text) => Ok(Label::of(text).ok()),
        None => Ok(None),
    }
}

/// The next value is the member of this name, and goes into the draft if a kind of event has one.
fn event_member(
    reader: &mut Reader<'_>,
    scope: Scope,
    name: &str,
    draft: &mut Draft,
) -> Result<(), Stop>
    ensures ok { OnOk result ((d : Data) × (taken scope.depth reader.old ≡ Some (d, reader.new))
        × IsDraftWith scope.version name.now d draft.old draft.new) }
    ensures refused { result ≡ Err Stop.NotJson → taken scope.depth reader.old ≡ None }
    ensures shorter { OnOk result (length reader.new < length reader.old) }
{
    match name {
        "kind" => draft.kind = spelled(reader, scope)?,
        "color" => draft.colour = Colour::next(reader, scope)?,
        "cull" => draft.cull = spelled(reader, scope)?,
        "front_ccw" => draft.front_ccw = bool::next(reader, scope)?,
        "scissor" => draft.scissor = bool::next(reader, scope)?,
        "rect" => draft.rect = Rect::next(reader, scope)?,
        "enable" => draft.enable = bool::next(reader, scope)?,
        "rgb" => draft.rgb = Part::next(reader, scope)?,
        "alpha" => draft.alpha = Part::next(reader, scope)?,
        "mask" => draft.mask = Mask::next(reader, scope)?,
        "interp" => draft.paint = spelled(reader, scope)?,
        "name" => draft.label = label(reader, scope)?,
        "write" => draft.write = bool::next(reader, scope)?,
        "func" => draft.func = spelled(reader, scope)?,
        "depth" => draft.depth = u16::next(reader, scope)?,
        "vertices" => draft.large.vertices = Some(vertices(reader, scope)?),
        "indices" => draft.large.indices = Some(indices(reader, scope)?),
        "picture" => draft.large.picture = Some(picture(reader, scope)?),
        _ => pass(reader, scope.depth)?,
    }
    Ok(())
}

/// The members of an event whose brace was taken, up to the brace that closes it.
fn draft_members(reader: &mut Reader<'_>, scope: Scope) -> Result<Draft, Stop>
    ensures ok { IfOk result (λ draft. (found : Members) × (members_taken scope.depth reader.old ≡ Some (found, reader.new))
        × IsDraft scope.version found draft) }
    ensures refused { result ≡ Err Stop.NotJson → members_taken scope.depth reader.old ≡ None }
    ensures shorter { OnOk result (length reader.new < length reader.old) }
{
    let mut draft = Draft::default();
    'members: while let Some(name) = reader.next_key()? {
        event_member(reader, scope, name, &mut draft)?;
    }
    Ok(draft)
}

/// The event of a kind, of what its members stand for.
fn event_of_kind(version: u32, kind: Kind, draft: Draft) -> Option<Event>
    ensures { result ≡ event_of_kind_from version kind draft }
{
    match kind {
        Kind::Clear => kind::clear(&draft),
        Kind::Raster => kind::raster(&draft),
        Kind::Scissor => kind::scissor(&draft),
        Kind::Blend => kind::blend(&draft),
        Kind::Factor => kind::factor(&draft),
        Kind::Draw => draw(version, draft),
        Kind::Marker => kind::marker(draft),
        Kind::Depth => kind::depth(&draft),
        Kind::DepthClear => kind::depth_clear(&draft),
        Kind::Other => None,
    }
}

/// The event of what its members stand for. Version 1 has no depths.
fn event_from(version: u32, draft: Draft) -> ReadEvent
    ensures { result ≡ event_from version draft }
{
    let kind = draft.kind.ok_or(EventFault::BadField)?;
    let is_known = match kind {
        Kind::Other => false,
        Kind::Depth | Kind::DepthClear => version != 1,
        _ => true,
    };
    if !is_known {
        return Err(EventFault::UnknownEvent);
    }
    event_of_kind(version, kind, draft).ok_or(EventFault::BadField)
}
