ghost use Rattle.std.specs.Prelude.{◌≡◌, ◌≤◌, ℕ, IsTrue, OnErr, true};
ghost use Rattle.fd_cover.specs.Bounds.{is_within};
ghost use Rattle.fd_snap.specs.Limits.{most_pixels};
ghost use Rattle.fd_events.specs.StateList.{is_state_event};
ghost use Rattle.fd_memory.specs.Wanting.{Wanted};

use crate::draw::Draw;
use crate::effect::{Clear, Effect};
use crate::label::Label;
use crate::reach::Reach;
use fd_blend::{BlendState, Colour};
use fd_cover::{Bounds, Depth, Raster, Rect};
use std::alloc::{AllocError, Global};

/// One step of a frame. A state event replaces its whole part of the pipeline state.
#[derive(Debug, Drop)]
pub enum Event {
    /// Sets every pixel of the target to one colour, and no depth.
    Clear(Colour),
    /// Sets culling, winding, and whether the scissor is on.
    SetRaster(Raster),
    /// Sets the scissor's rectangle.
    SetScissor(Rect),
    /// Sets the blend state, the write mask included.
    SetBlend(BlendState),
    /// Sets the blend factor.
    SetFactor(Colour),
    /// Sets the depth state.
    SetDepth(Depth),
    /// Sets every pixel's depth, and no colour.
    DepthClear(u16),
    /// Draws triangles, in their order.
    Draw(Draw),
    /// Names a place in the frame.
    Marker(Label),
}

impl Event {
    ghost use Rattle.fd_events.specs.Effect.{HasEffect};
    ghost use Rattle.fd_events.specs.Far.{PassesBy};
    ghost use Rattle.fd_events.specs.Reach.{box_of, reach_of};

    /// What the event does.
    #[inline(always)]
    pub fn effect(&self) -> Effect<'_>
        ensures { HasEffect self.now result }
    {
        match self {
            Event::SetRaster(_)
            | Event::SetScissor(_)
            | Event::SetBlend(_)
            | Event::SetFactor(_)
            | Event::SetDepth(_) => Effect::State,
            Event::Clear(colour) => Effect::Clear(Clear::Colours(*colour)),
            Event::DepthClear(depth) => Effect::Clear(Clear::Depths(*depth)),
            Event::Draw(draw) => Effect::Draw(draw),
            Event::Marker(_) => Effect::Nothing,
        }
    }

    /// The box of the pixels that the event can write on a target of this size.
    pub(crate) fn reach(&self, width: u32, height: u32) -> Reach
        requires width { width ≤ most_pixels }
        requires height { height ≤ most_pixels }
        ensures { box_of result ≡ reach_of width height self.now }
    {
        match self.effect() {
            Effect::Clear(_) => Reach::whole(width, height),
            Effect::Draw(draw) => Reach::clipped(draw.clip(draw.bounds()), width, height),
            Effect::State | Effect::Nothing => Reach::nowhere(),
        }
    }

    /// Whether the event is seen to have nothing to do with a window: it is a draw whose triangles lie elsewhere, or neither a draw nor a clear.
    pub(crate) fn passes_by(&self, window: Bounds) -> bool
        ensures { result ≡ true → (x y : ℕ) → IsTrue (is_within window x y) → PassesBy self.now x y }
    {
        match self.effect() {
            Effect::Clear(_) => false,
            Effect::Draw(draw) => !draw.bounds().meets(window),
            Effect::State | Effect::Nothing => true,
        }
    }

    /// Whether the event replaces a part of the pipeline state.
    pub(crate) fn is_state_event(&self) -> bool
        ensures { result ≡ is_state_event self.now }
    {
        matches!(self.effect(), Effect::State)
    }

    /// Computes the boxes of a draw's triangles and of their groups, and lists these in cells over a target of this size. On want of memory
    /// nothing changes.
    pub(crate) fn list_triangles(
        &mut self,
        width: u32,
        height: u32,
        alloc: Global,
    ) -> Result<(), AllocError>
        ensures same { self.new ≡ self.old }
        ensures wanted { OnErr result Wanted }
    {
        match self {
            Event::Draw(draw) => draw.list_triangles(width, height, alloc),
            _ => Ok(()),
        }
    }
}
