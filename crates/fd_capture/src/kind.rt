//! The kinds of event, and the event of each, made of what was read of its members.
ghost use Rattle.std.specs.Prelude.{◌≡◌};
ghost use Rattle.fd_capture.specs.Drafted.{clear_of, raster_of, scissor_of, blend_of, factor_drafted, marker_of, depth_drafted, depth_clear_of};

use crate::members::Draft;
use crate::spelling::FromText;
use fd_blend::BlendState;
use fd_cover::{Depth, Raster};
use fd_events::Event;

/// What the text of `kind` names.
#[derive(Clone, Copy, PartialEq, Eq)]
pub(crate) enum Kind {
    Clear,
    Raster,
    Scissor,
    Blend,
    Factor,
    Draw,
    Marker,
    Depth,
    DepthClear,
    /// No kind of event.
    Other,
}

impl FromText for Kind {
    ghost use Rattle.std.specs.Prelude.{Some};
    ghost use Rattle.fd_capture.specs.Drafted.{kind_of};

    ghost spelled = { λ text. Some (kind_of text) };

    fn from_text(text: &str) -> Option<Kind> {
        Some(match text {
            "clear" => Kind::Clear,
            "raster" => Kind::Raster,
            "scissor" => Kind::Scissor,
            "blend" => Kind::Blend,
            "factor" => Kind::Factor,
            "draw" => Kind::Draw,
            "marker" => Kind::Marker,
            "depth" => Kind::Depth,
            "depth_clear" => Kind::DepthClear,
            _ => Kind::Other,
        })
    }
}

/// `clear`: a colour.
pub(crate) fn clear(draft: &Draft) -> Option<Event>
    ensures { result ≡ clear_of draft.now }
{
    Some(Event::Clear(draft.colour?))
}

/// `raster`: culling, winding and whether the scissor is on.
pub(crate) fn raster(draft: &Draft) -> Option<Event>
    ensures { result ≡ raster_of draft.now }
{
    Some(Event::SetRaster(Raster {
        cull: draft.cull?,
        front_ccw: draft.front_ccw?,
        scissor: draft.scissor?,
    }))
}

/// `scissor`: a rectangle.
pub(crate) fn scissor(draft: &Draft) -> Option<Event>
    ensures { result ≡ scissor_of draft.now }
{
    Some(Event::SetScissor(draft.rect?))
}

/// `blend`: the blend state.
pub(crate) fn blend(draft: &Draft) -> Option<Event>
    ensures { result ≡ blend_of draft.now }
{
    let state = BlendState::new(draft.enable?, draft.rgb?, draft.alpha?, draft.mask?).ok()?;
    Some(Event::SetBlend(state))
}

/// `factor`: the blend factor.
pub(crate) fn factor(draft: &Draft) -> Option<Event>
    ensures { result ≡ factor_drafted draft.now }
{
    Some(Event::SetFactor(draft.colour?))
}

/// `marker`: a name.
pub(crate) fn marker(draft: Draft) -> Option<Event>
    ensures { result ≡ marker_of draft }
{
    Some(Event::Marker(draft.label?))
}

/// `depth`: the depth state.
pub(crate) fn depth(draft: &Draft) -> Option<Event>
    ensures { result ≡ depth_drafted draft.now }
{
    Some(Event::SetDepth(Depth {
        enable: draft.enable?,
        write: draft.write?,
        func: draft.func?,
    }))
}

/// `depth_clear`: a depth.
pub(crate) fn depth_clear(draft: &Draft) -> Option<Event>
    ensures { result ≡ depth_clear_of draft.now }
{
    Some(Event::DepthClear(draft.depth?))
}
