ghost use Rattle.std.specs.Prelude.{◌≡◌, ℕ, ◌+◌, ◌*◌, ◌^◌, ◌<◌, ◌≤◌, ◌↔◌, pos, ◌≤ℤ◌, min, ◌∷◌, ◌++◌, ◌⊎◌, IsTrue, true, false, [], length, if◌then◌else◌, IfNone};
ghost use Rattle.std.specs.Prelude.{IfSome};
ghost use Rattle.std.specs.List.{sum_by};
ghost use Rattle.fd_cover.specs.Bounds.{is_empty};
ghost use Rattle.fd_cover.specs.Verdict.{is_in_range};
ghost use Rattle.fd_events.specs.Bounds.{CoverNone};
ghost use Rattle.fd_events.specs.Culled.{AreCulled};
ghost use Rattle.fd_events.specs.Draw.{triangles_of};
ghost use Rattle.fd_events.specs.declared.pipeline.Pipeline.{Pipeline};
ghost use Rattle.fd_snap.specs.Limits.{most_pixels};
ghost use Rattle.fd_tile.specs.Place.{Holds, IsTilePlace};
ghost use Rattle.fd_tile.specs.declared.place.TheConstants.{TILE_SIDE};
ghost use Rattle.fd_draw.specs.Area.{LiesIn, IsOpen, IsSmall, IsWindow, box_of_place, is_closed};
ghost use Rattle.fd_draw.specs.Demand.{pixels_in, spans_in, triangle_pixels, triangle_spans, event_pixels, event_spans};
ghost use Rattle.fd_draw.specs.declared.plan.TheConstants.{MOST_PLANNED};
ghost use Rattle.arrayvec.specs.ArrayVec.{array_vec_len};
ghost use Rattle.fd_cover.specs.declared.depth.Func.TheVariants.{Never};
ghost use Rattle.fd_draw.specs.Plan.{ArePlanned, AreUnreached, IsNextFound, IsPlan, MayBeginAt, WritesNothing};
ghost use Rattle.fd_tile.specs.declared.place.Place.{Place};

use crate::demand::{Demand, NOTHING};
use crate::found::{Found, find};
use crate::primitive::is_tested;
use arrayvec::ArrayVec;
use fd_cover::{Bounds, Depth, Func, Raster, Rect};
use fd_events::{Draw, Effect, Event, Pipeline};
use fd_tile::Place;

/// How many triangles a plan keeps.
const MOST_PLANNED: usize = 8;

/// A triangle of a draw by its number, with what was found of it on a tile.
#[derive(Clone, Copy, Default)]
pub(crate) struct Planned {
    pub triangle: u32,
    pub found: Found,
}

impl Planned {
    /// The first triangle of a draw from a number on that is reached in a window, which is the draw's on whatever tile. It stands in its callers, since
    /// what it answers is large.
    #[inline(always)]
    pub(crate) fn next(draw: &Draw, from: u32, state: &Pipeline, window: Bounds) -> Option<Planned>
        requires within { from ≤ length (triangles_of draw.now) }
        requires small { IsSmall window }
        ensures found { IfSome result (λ next. (place : Place) → LiesIn window place → IsWindow window draw.now.picture state.now place
            → IsNextFound draw.now state.now place from next) }
        ensures none { IfNone result ((place : Place) → LiesIn window place → IsWindow window draw.now.picture state.now place
            → AreUnreached (triangles_of draw.now) state.now place from (length (triangles_of draw.now))) }
    {
        let count = draw.triangles();
        let mut triangle = from;
        while triangle < count {
            if let Some(found) = find(&draw.tri(triangle), &state.raster, window) {
                return Some(Planned { triangle, found });
            }
            triangle = draw.next_listed(triangle + 1, window);
        }
        None
    }
}

/// What an event writes at most on a tile, and of a draw the first triangles that it draws there. From number `rest` on none is kept. It is large, so it is
/// filled where it stands.
#[derive(Drop)]
pub struct Plan {
    pub demand: Demand,
    pub(crate) planned: ArrayVec<Planned, MOST_PLANNED>,
    pub(crate) rest: u32,
}

impl Plan {
    /// A plan of nothing.
    pub fn empty() -> Plan
        ensures spans { result.demand.spans ≡ 0 }
        ensures pixels { result.demand.pixels ≡ 0 }
        ensures planned { result.planned.items ≡ [] }
        ensures rest { result.rest ≡ 0 }
    {
        Plan {
            demand: NOTHING,
            planned: ArrayVec::new(),
            rest: 0,
        }
    }

    /// Makes it what an event writes at most in a state on a tile of this place. Of its triangles none before this one covers a pixel of the place.
    pub fn fill(&mut self, event: &Event, state: &Pipeline, place: Place, first: u32)
        requires placed { IsTilePlace place }
        requires first { MayBeginAt event.now place first }
        ensures spans { self.new.demand.spans ≡ event_spans event.now state.now place }
        ensures pixels { self.new.demand.pixels ≡ event_pixels event.now state.now place }
        ensures planned { IsPlan self.new event.now state.now place }
    {
        self.demand = NOTHING;
        self.planned.clear();
        self.rest = 0;
        match event.effect() {
            Effect::Clear(_) => self.demand = demand_of_all(place),
            Effect::Draw(draw) => self.add_draw(draw, state, place, first),
            Effect::State | Effect::Nothing => {}
        }
    }

    /// Makes a plan of nothing that of a draw, of whose triangles none before this one covers a pixel of the place.
    fn add_draw(&mut self, draw: &Draw, state: &Pipeline, place: Place, first: u32)
        requires no_spans { self.old.demand.spans ≡ 0 }
        requires no_pixels { self.old.demand.pixels ≡ 0 }
        requires none { self.old.planned.items ≡ [] }
        requires placed { IsTilePlace place }
        requires within { first ≤ length (triangles_of draw.now) }
        requires missed { CoverNone (box_of_place place) (triangles_of draw.now) 0 first }
        ensures spans { self.new.demand.spans ≡ sum_by (triangle_spans state.now place) (triangles_of draw.now) }
        ensures pixels { self.new.demand.pixels ≡ sum_by (triangle_pixels state.now place) (triangles_of draw.now) }
        ensures planned { ArePlanned draw.now state.now place 0 self.new.planned.items self.new.rest }
    {
        let window = window_of(draw, state, place);
        let tested = is_tested(draw, state);
        self.rest = draw.triangles();
        if is_idle(draw, &state.raster, window) {
            return;
        }
        let mut from = first;
        while let Some(next) = Planned::next(draw, from, state, window) {
            from = draw.next_listed(next.triangle + 1, window);
            self.add(next, tested);
        }
    }

    /// Adds a triangle that was found, which is kept unless the plan is full.
    fn add(&mut self, next: Planned, tested: bool)
        requires few_spans { next.found.demand.spans ≤ TILE_SIDE }
        requires few_pixels { next.found.demand.pixels ≤ TILE_SIDE * TILE_SIDE }
        requires room_spans { self.old.demand.spans + TILE_SIDE * TILE_SIDE < 2 ^ 64 }
        requires room_pixels { self.old.demand.pixels + TILE_SIDE * TILE_SIDE < 2 ^ 64 }
        ensures spans { self.new.demand.spans ≡ self.old.demand.spans + (if tested then next.found.demand.pixels else next.found.demand.spans) }
        ensures pixels { self.new.demand.pixels ≡ self.old.demand.pixels + next.found.demand.pixels }
        ensures room { array_vec_len self.old.planned < MOST_PLANNED
            → (self.new.planned.items ≡ self.old.planned.items ++ next ∷ []) × (self.new.rest ≡ self.old.rest) }
        ensures full { array_vec_len self.old.planned ≡ MOST_PLANNED
            → (self.new.planned ≡ self.old.planned) × (self.new.rest ≡ min self.old.rest next.triangle) }
    {
        let Demand { spans, pixels } = next.found.demand;
        // with a test each pixel is a span of its own, as any of them may fail
        self.demand.spans += if tested { pixels } else { spans };
        self.demand.pixels += pixels;
        if self.planned.is_full() {
            self.rest = self.rest.min(next.triangle);
        } else {
            self.planned.push(next);
        }
    }
}

/// The first triangle that a draw lists for a place, before which none covers a pixel of it. None where the event writes nothing there,
/// in whatever state; it may also write nothing where this doesn't tell so.
pub fn first_listed(event: &Event, place: Place) -> Option<u32>
    requires { IsTilePlace place }
    ensures first { IfSome result (λ first. MayBeginAt event.now place first) }
    ensures none { IfNone result ((s : Pipeline) → WritesNothing event.now s place) }
{
    match event.effect() {
        Effect::Draw(draw) => {
            let first = draw.next_listed(0, box_of(place));
            if first < draw.triangles() {
                Some(first)
            } else {
                None
            }
        }
        Effect::Clear(_) | Effect::State | Effect::Nothing => Some(0),
    }
}

/// Whether an event is seen to write nothing on a place in a state: a draw none of whose depths passes the test, of which the scissor leaves nothing
/// there, whose picture lies elsewhere, or whose triangles are all culled.
pub fn draws_nothing(event: &Event, state: &Pipeline, place: Place) -> bool
    requires { IsTilePlace place }
    ensures { IsTrue result → WritesNothing event.now state.now place }
{
    match event.effect() {
        Effect::Draw(draw) => {
            // the window takes longest, so it is found last
            if is_shut(&state.depth) {
                return true;
            }
            if draw.is_culled(&state.raster) {
                return true;
            }
            if is_cut_off(&state.raster, &state.scissor, place) {
                return true;
            }
            window_of(draw, state, place).is_empty()
        }
        Effect::Clear(_) | Effect::State | Effect::Nothing => false,
    }
}

/// The box of a tile's pixels.
pub fn box_of(place: Place) -> Bounds
    requires { IsTilePlace place }
    ensures { result ≡ box_of_place place }
{
    Bounds {
        left: place.left,
        top: place.top,
        right: place.left + place.width,
        bottom: place.top + place.height,
    }
}

/// The box of a tile's pixels that the scissor leaves and on which a draw's picture lies, if it has one.
pub(crate) fn window_of(draw: &Draw, state: &Pipeline, place: Place) -> Bounds
    requires { IsTilePlace place }
    ensures inside { LiesIn result place }
    ensures window { IsWindow result draw.now.picture state.now place }
{
    let open = open_area(&state.raster, &state.scissor, place);
    let window = draw.clip(open);
    if window.is_empty() {
        return Bounds {
            right: open.left,
            bottom: open.top,
            ..open
        };
    }
    window
}

/// Whether a draw writes nothing, as its window has no pixel or every triangle is culled.
fn is_idle(draw: &Draw, raster: &Raster, window: Bounds) -> bool
    ensures { IsTrue result → IsTrue (is_empty window) ⊎ AreCulled raster.now.cull raster.now.front_ccw (triangles_of draw.now) }
{
    window.is_empty() || draw.is_culled(raster)
}

/// Whether depths are tested and none passes.
fn is_shut(depth: &Depth) -> bool
    ensures { IsTrue result → (depth.now.enable ≡ true) × (depth.now.func ≡ Never) }
{
    depth.enable && matches!(depth.func, Func::Never)
}

/// Whether the scissor leaves no pixel of a tile.
fn is_cut_off(raster: &Raster, rect: &Rect, place: Place) -> bool
    requires { IsTilePlace place }
    ensures { IsTrue result → (x y : ℕ) → Holds place x y → is_closed raster.now rect.now x y ≡ true }
{
    let whole = box_of(place);
    raster.scissor
        && (is_apart(rect.left, rect.right, whole.left, whole.right)
            || is_apart(rect.top, rect.bottom, whole.top, whole.bottom))
}

/// Whether no number from `low` up to `high` is one from `from` up to `past`.
fn is_apart(low: i32, high: i32, from: u32, past: u32) -> bool
    requires order { from ≤ past }
    requires small { past ≤ most_pixels }
    ensures { IsTrue result → (n : ℕ) → from ≤ n → n < past → is_in_range low high n ≡ false }
{
    low.max(from as i32) >= high.min(past as i32)
}

/// What a clear writes: all pixels, by rows.
fn demand_of_all(place: Place) -> Demand
    requires { IsTilePlace place }
    ensures spans { result.spans ≡ spans_in (λ x y. true) place }
    ensures pixels { result.pixels ≡ pixels_in (λ x y. true) place }
{
    Demand {
        spans: place.height as usize,
        pixels: place.width as usize * place.height as usize,
    }
}

/// The box of a tile's pixels that the scissor leaves.
fn open_area(raster: &Raster, rect: &Rect, place: Place) -> Bounds
    requires { IsTilePlace place }
    ensures inside { LiesIn result place }
    ensures left_open { IsOpen result raster.now rect.now place }
{
    let whole = box_of(place);
    if !raster.scissor {
        return whole;
    }
    let left = nearest(rect.left, whole.left, whole.right);
    let top = nearest(rect.top, whole.top, whole.bottom);
    Bounds {
        left,
        top,
        right: nearest(rect.right, left, whole.right),
        bottom: nearest(rect.bottom, top, whole.bottom),
    }
}

/// The nearest to a scissor's bound of the numbers from `low` to `high`.
fn nearest(bound: i32, low: u32, high: u32) -> u32
    requires order { low ≤ high }
    ensures least { low ≤ result }
    ensures most { result ≤ high }
    ensures numbers { (n : ℕ) → low ≤ n → n < high → (bound ≤ℤ pos n) ↔ (result ≤ n) }
{
    (bound.max(0) as u32).clamp(low, high)
}
