//! First pass: each entry with its verdict, its source and its depths.
ghost use Rattle.std.specs.Prelude.{◌≡◌, ◌<◌, ◌≤◌, ◌+◌, ◌++◌, [], ◌∷◌, false, length, slice_get, IsTrue, IfSome, OnErr, OnOk};
ghost use Rattle.fd_cover.specs.Bounds.{is_within};
ghost use Rattle.fd_snap.specs.Limits.{most_pixels};
ghost use Rattle.fd_events.specs.Draw.{triangles_of};
ghost use Rattle.fd_events.specs.Limits.{most_triangles};
ghost use Rattle.fd_memory.specs.Wanting.{Wanted};

use crate::entry::Entry;
use crate::listed_triangle::ListedTriangle;
use fd_blend::Colour;
use fd_cover::{Bounds, Verdict};
use fd_events::{Clear, Draw, Effect, Event, Pipeline};
use std::alloc::AllocError;
use std::marker::Model;

/// The source of a clear of depths.
const FRESH: Colour = Colour {
    r: 0,
    g: 0,
    b: 0,
    a: 0,
};

/// A pixel with its depth, and the entries that were gathered of it. Their sources stand for the colours before and after.
#[derive(Drop)]
pub(crate) struct Gather {
    pub(crate) x: u32,
    pub(crate) y: u32,
    pub(crate) depth: u16,
    pub(crate) entries: Vec<Entry>,
}

impl Model for Gather {
    ghost use Rattle.std.specs.Prelude.{◌<◌};
    ghost use Rattle.fd_snap.specs.Limits.{most_pixels};
    ghost use Rattle.fd_history.specs.Gathered.{Gathering};

    ghost Value = { Gathering };

    ghost view = { λ g. record { x = g.x; y = g.y; depth = g.depth; entries = g.entries.items } };

    ghost invariant = { λ g. (g.x < most_pixels) × (g.y < most_pixels) };
}

impl Gather {
    ghost use Rattle.fd_history.specs.Gathered.{gone_on, past_triangle, past_triangles, past_event};

    /// Takes an entry that begins at the pixel's depth.
    fn enter(&mut self, entry: Entry) -> Result<(), AllocError>
        ensures entered { OnOk result (self.new ≡ gone_on self.old entry.depth_after (entry ∷ [])) }
        ensures wanted { OnErr result Wanted }
    {
        fd_memory::push(&mut self.entries, entry)?;
        self.depth = entry.depth_after;
        Ok(())
    }

    /// Goes through one triangle of a draw.
    fn pass_triangle(
        &mut self,
        event: u32,
        draw: &Draw,
        triangle: u32,
        state: &Pipeline,
    ) -> Result<(), AllocError>
        requires { triangle < length (triangles_of draw.now) }
        ensures exact { OnOk result (IfSome (slice_get (triangles_of draw.now) triangle)
            (λ t. self.new ≡ past_triangle event triangle t draw.now.interp state.now self.old)) }
        ensures few { OnOk result (length self.new.entries ≤ length self.old.entries + 1) }
        ensures wanted { OnErr result Wanted }
    {
        let tri = draw.tri(triangle);
        if !Bounds::of(&tri).holds(self.x, self.y) {
            return Ok(());
        }
        let listed = ListedTriangle::of(draw, triangle);
        let verdict = listed.verdict(state, self.depth, self.x, self.y);
        if verdict == Verdict::Missed {
            return Ok(());
        }
        let source = listed.source(self.x, self.y);
        let source_depth = listed.depth(self.x, self.y);
        let depth_after = if verdict == Verdict::Drawn {
            state.depth.stored_past(source_depth, self.depth)
        } else {
            self.depth
        };
        self.enter(Entry {
            event,
            triangle: Some(triangle),
            verdict,
            source,
            before: source,
            after: source,
            source_depth,
            depth_before: self.depth,
            depth_after,
        })
    }

    /// Goes through the triangles of a draw that may cover the pixel.
    fn pass_draw(&mut self, event: u32, draw: &Draw, state: &Pipeline) -> Result<(), AllocError>
        ensures exact { OnOk result (self.new ≡ past_triangles event 0 (triangles_of draw.now) draw.now.interp state.now self.old) }
        ensures few { OnOk result (length self.new.entries ≤ length self.old.entries + most_triangles) }
        ensures wanted { OnErr result Wanted }
    {
        let count = draw.triangles();
        let pixel = pixel_at(self.x, self.y);
        let mut triangle = draw.next_listed(0, pixel);
        while triangle < count {
            self.pass_triangle(event, draw, triangle, state)?;
            triangle = draw.next_listed(triangle + 1, pixel);
        }
        Ok(())
    }

    /// Goes through an event.
    pub(crate) fn pass(
        &mut self,
        number: u32,
        event: &Event,
        state: &Pipeline,
    ) -> Result<(), AllocError>
        ensures exact { OnOk result (self.new ≡ past_event number event.now state.now self.old) }
        ensures few { OnOk result (length self.new.entries ≤ length self.old.entries + most_triangles) }
        ensures wanted { OnErr result Wanted }
    {
        match event.effect() {
            Effect::Clear(Clear::Colours(colour)) => self.enter(Entry {
                event: number,
                triangle: None,
                verdict: Verdict::Drawn,
                source: colour,
                before: colour,
                after: colour,
                source_depth: 0,
                depth_before: self.depth,
                depth_after: self.depth,
            }),
            Effect::Clear(Clear::Depths(depth)) => self.enter(Entry {
                event: number,
                triangle: None,
                verdict: Verdict::Drawn,
                source: FRESH,
                before: FRESH,
                after: FRESH,
                source_depth: depth,
                depth_before: self.depth,
                depth_after: depth,
            }),
            Effect::Draw(draw) => self.pass_draw(number, draw, state),
            Effect::State | Effect::Nothing => Ok(()),
        }
    }
}

/// The box of pixel (x, y) alone.
pub(crate) fn pixel_at(x: u32, y: u32) -> Bounds
    requires column { x < most_pixels }
    requires row { y < most_pixels }
    ensures { IsTrue (is_within result x y) }
{
    Bounds {
        left: x,
        top: y,
        right: x + 1,
        bottom: y + 1,
    }
}
