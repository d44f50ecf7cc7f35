//! What the large members of an event stand for, and the draw of them.
ghost use Rattle.std.specs.Prelude.{◌≡◌, option_map};
ghost use Rattle.fd_capture.specs.Drafted.{draw_drafted, interp_of, painted_draw_of, shaded_draw_of};
ghost use Rattle.fd_capture.specs.Streamed.{coloured, if_any, large_of, vertices_seen};

use crate::members::Draft;
use crate::spelling::Paint;
use crate::vertices::VertexList;
use fd_cover::Interp;
use fd_events::{Draw, Event, Picture, Vertex};

/// What a member stands for: none if there is no such member, and none within if it isn't well formed.
pub(crate) type Member<T> = Option<Option<T>>;

/// What the large members of an event stand for.
#[derive(Default, Drop)]
pub(crate) struct LargeMembers {
    pub(crate) vertices: Member<VertexList>,
    pub(crate) indices: Member<Vec<u32>>,
    pub(crate) picture: Member<Box<Picture>>,
}

/// A member that may be missing, but not malformed.
pub(crate) fn if_any<T: Drop>(member: Member<T>) -> Option<Option<T>>
    ensures { result ≡ if_any member }
{
    match member {
        None => Some(None),
        Some(value) => Some(Some(value?)),
    }
}

/// A draw in a capture of a version; pictures are of version 3.
pub(crate) fn draw(version: u32, draft: Draft) -> Option<Event>
    ensures { result ≡ draw_drafted version draft }
{
    match draft.paint {
        Some(Paint::Picture) if version == 3 => painted_draw(draft.large),
        _ => shaded_draw(draft.paint, draft.large),
    }
}

/// Vertices, if each has a colour.
fn coloured(vertices: VertexList) -> Option<Vec<Vertex>>
    ensures { option_map (λ v. v.items) result ≡ coloured (vertices_seen vertices) }
{
    let VertexList { list, coloured } = vertices;
    if coloured { Some(list) } else { None }
}

/// How the colours of vertices are interpolated, if they come from there.
fn interp_of(paint: Paint) -> Option<Interp>
    ensures { result ≡ interp_of paint }
{
    match paint {
        Paint::Vertices(interp) => Some(interp),
        Paint::Picture => None,
    }
}

/// A draw whose colours come from its vertices.
fn shaded_draw(paint: Option<Paint>, large: LargeMembers) -> Option<Event>
    ensures { result ≡ shaded_draw_of paint (large_of large) }
{
    let LargeMembers {
        vertices,
        indices,
        ..
    } = large;
    let interp = paint.and_then(interp_of)?;
    let vertices = coloured(vertices??)?;
    let indices = if_any(indices)?;
    let draw = Draw::new(vertices, indices, interp).ok()?;
    Some(Event::Draw(draw))
}

/// A draw whose colours come from a picture.
fn painted_draw(large: LargeMembers) -> Option<Event>
    ensures { result ≡ painted_draw_of (large_of large) }
{
    let LargeMembers {
        vertices,
        indices,
        picture,
    } = large;
    let picture = picture??;
    let vertices = vertices??;
    let indices = if_any(indices)?;
    let draw = Draw::painted(vertices.list, indices, picture).ok()?;
    Some(Event::Draw(draw))
}
