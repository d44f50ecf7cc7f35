ghost use Rattle.std.specs.Prelude.{◌≡◌, ℕ, ◌+◌, ◌-◌, ◌<◌, ◌≤◌, false, true, IsTrue, Some, None, map, length};
ghost use Rattle.std.specs.List.{range_with_len, sum_by};
ghost use Rattle.fd_events.specs.Draw.{triangles_of};
ghost use Rattle.fd_events.specs.Image.{source_of, pixel_after, pixel_after_triangles, kept_by, kept_by_triangles};
ghost use Rattle.fd_tile.specs.Tile.{IsTileImage};
ghost use Rattle.fd_draw.specs.Demand.{pixels_in, region_spans, triangle_pixels, triangle_spans, event_pixels, event_spans, writes_deep};
ghost use Rattle.fd_draw.specs.Written.{as_it_is, colour_blended};
ghost use Rattle.fd_cover.specs.Covers.{covers};
ghost use Rattle.fd_snap.specs.Limits.{most_pixels};
ghost use Rattle.fd_tile.specs.declared.place.TheConstants.{TILE_SIDE};
ghost use Rattle.fd_draw.specs.Row.{changed_row};
ghost use Rattle.fd_draw.specs.Paints.{Paints};
ghost use Rattle.fd_draw.specs.Primitive.{CoversRun, IsReady, blended_by, blended_in, is_tested_by, kept_of, painted_by, reached_by, triangle_of};
ghost use Rattle.fd_draw.specs.Plan.{ArePlanned, IsFoundOn, IsPlan};
ghost use Rattle.fd_draw.specs.Writing.{ChangesRun, HasDepths, HasRoom, HasRun, PaintsOn, WritesRegion, WritesRun, in_row, keep_each, place_on};

use crate::canvas::Canvas;
use crate::clear::clear_tile;
use crate::found::Found;
use crate::plan::{Plan, Planned, window_of};
use crate::primitive::{Ink, Primitive};
use crate::run::Run;
use crate::strip::{draw_strip, strip_end};
use crate::tested::draw_span;
use fd_blend::{Blender, Colour};
use fd_cover::shade_row;
use fd_events::{Draw, Effect, Event, Pipeline};
use fd_tile::{TILE_SIDE, Tile};
use fd_undo::UndoStack;

/// The most pixels that a row of a tile has.
pub(crate) const WIDEST: usize = TILE_SIDE as usize;

const NO_COLOUR: Colour = Colour {
    r: 0,
    g: 0,
    b: 0,
    a: 0,
};

/// Blends a triangle's sources with the pixels of a run, all of which it covers. It stands in its caller too.
#[inline(always)]
pub(crate) fn blend_span(primitive: &Primitive<'_>, run: Run, tile: &mut Tile)
    requires made { tile.old.made ≡ true }
    requires run { HasRun run tile.old.place }
    requires ready { IsReady primitive.now }
    requires covered { CoversRun primitive.now run }
    ensures { ChangesRun (blended_by primitive.now) run tile.old tile.new }
{
    let place = tile.place();
    let start = (run.left - place.left) as usize;
    let end = (run.right - place.left) as usize;
    let row = tile.row_mut(run.y);
    blend_triangle(&mut row[start..end], run.left, run.y, primitive);
}

/// Keeps and then blends the pixels of a run, all of which a triangle covers.
pub(crate) fn write_span(primitive: &Primitive<'_>, run: Run, canvas: &mut Canvas<'_>)
    requires run { HasRun run (place_on canvas.old) }
    requires ready { IsReady primitive.now }
    requires covered { CoversRun primitive.now run }
    requires room { HasRoom 1 (run.right - run.left) canvas.old.undo.now }
    ensures { WritesRun 1 run (blended_by primitive.now) keep_each canvas.old canvas.new }
{
    canvas.keep_run(run);
    blend_span(primitive, run, canvas.tile);
}

/// Draws an event in a state on a tile, and keeps the pixels that it overwrites in the top frame, which has been begun with
/// room for them. The plan is the event's.
pub fn draw(event: &Event, state: &Pipeline, plan: &Plan, tile: &mut Tile, undo: &mut UndoStack)
    requires made { tile.old.made ≡ true }
    requires begun { undo.old.frame_left ≡ false }
    requires planned { IsPlan plan.now event.now state.now tile.old.place }
    requires deep { writes_deep event.now state.now ≡ true → tile.old.deep ≡ true }
    requires room { HasRoom (event_spans event.now state.now tile.old.place) (event_pixels event.now state.now tile.old.place) undo.old }
    ensures { Paints (pixel_after event.now state.now) (kept_by event.now state.now) tile.old undo.old tile.new undo.new }
{
    // a tile has a colour and a depth for each of its pixels, also where nothing is drawn
    let _place = tile.place();
    let mut canvas = Canvas { tile, undo };
    match event.effect() {
        Effect::Clear(clear) => clear_tile(clear, &mut canvas),
        Effect::Draw(draw) => draw_triangles(draw, state, plan, &mut canvas),
        Effect::State | Effect::Nothing => {}
    }
}

/// Blends a triangle's sources with neighbouring pixels of row y from column x on, all of which it covers. It stands in its callers, as many rows are short.
#[inline(always)]
fn blend_triangle(row: &mut [Colour], x: u32, y: u32, primitive: &Primitive<'_>)
    requires ready { IsReady primitive.now }
    requires few { length row.old ≤ TILE_SIDE }
    requires row { y < most_pixels }
    requires columns { x + length row.old ≤ most_pixels }
    requires covered { (column : ℕ) → x ≤ column → column < x + length row.old → IsTrue (covers primitive.now.corners column y) }
    ensures { row.new ≡ changed_row (λ column before. colour_blended (triangle_of primitive.now) primitive.now.interp primitive.now.state column y before) x
        row.old }
{
    match &primitive.ink {
        Ink::One(brush) => brush.draw(row),
        Ink::Walked(blender, _) => blend_sources(primitive, blender, x, y, row),
        Ink::Many(blender) => blend_sources(primitive, blender, x, y, row),
    }
}

/// The same of a triangle of many colours, in its state's blender. A row of one colour doesn't pay for the room of its sources.
#[inline(never)]
fn blend_sources(primitive: &Primitive<'_>, blender: &Blender, x: u32, y: u32, row: &mut [Colour])
    requires ready { IsReady primitive.now }
    requires blender { blender.now ≡ blended_in primitive.now.state }
    requires few { length row.old ≤ TILE_SIDE }
    requires row { y < most_pixels }
    requires columns { x + length row.old ≤ most_pixels }
    requires covered { (column : ℕ) → x ≤ column → column < x + length row.old → IsTrue (covers primitive.now.corners column y) }
    ensures { row.new ≡ changed_row (λ column before. colour_blended (triangle_of primitive.now) primitive.now.interp primitive.now.state column y before) x
        row.old }
{
    let mut sources = [NO_COLOUR; WIDEST];
    let sources = &mut sources[..row.len()];
    find_sources(primitive, x, y, sources);
    blender.draw(sources, row);
}

/// The sources of a triangle at neighbouring pixels of row y from column x on, all of which it covers.
fn find_sources(primitive: &Primitive<'_>, x: u32, y: u32, out: &mut [Colour])
    requires ready { IsReady primitive.now }
    requires few { length out.old ≤ TILE_SIDE }
    requires row { y < most_pixels }
    requires columns { x + length out.old ≤ most_pixels }
    requires covered { (column : ℕ) → x ≤ column → column < x + length out.old → IsTrue (covers primitive.now.corners column y) }
    ensures { out.new ≡ map (λ column. source_of (triangle_of primitive.now) primitive.now.interp column y) (range_with_len x (length out.old)) }
{
    match (&primitive.ink, primitive.picture) {
        (Ink::Walked(_, walk), _) => walk.row(&primitive.corners, &primitive.colours, x, y, out),
        (_, Some(picture)) => picture.copy_row(x, y, out),
        (_, None) => shade_row(
            &primitive.corners,
            &primitive.colours,
            primitive.interp,
            x,
            y,
            out,
        ),
    }
}

/// Keeps and then writes those of the pixels of row y at which a triangle was found at which it is drawn.
fn draw_row(primitive: &Primitive<'_>, found: &Found, y: u32, canvas: &mut Canvas<'_>)
    requires ready { IsReady primitive.now }
    requires found { IsFoundOn (triangle_of primitive.now) primitive.now.state (place_on canvas.old) found.now }
    requires from_top { found.now.area.top ≤ y }
    requires to_bottom { y < found.now.area.bottom }
    requires deep { HasDepths primitive.now.state canvas.old.tile.now }
    requires room { HasRoom (region_spans (is_tested_by primitive.now) (in_row (reached_by primitive.now) y) (place_on canvas.old))
        (pixels_in (in_row (reached_by primitive.now) y) (place_on canvas.old)) canvas.old.undo.now }
    ensures { WritesRegion (region_spans (is_tested_by primitive.now) (in_row (reached_by primitive.now) y) (place_on canvas.old))
        (pixels_in (in_row (reached_by primitive.now) y) (place_on canvas.old)) (in_row (reached_by primitive.now) y)
        (painted_by primitive.now) (kept_of primitive.now) canvas.old canvas.new }
{
    if let Some(run) = found.span(&primitive.corners, y) {
        draw_span(primitive, run, canvas);
    }
}

/// The same for all pixels at which it was found, row after row, or at once where the triangle is drawn from side to side of the tile.
fn draw_primitive(primitive: &Primitive<'_>, found: &Found, canvas: &mut Canvas<'_>)
    requires ready { IsReady primitive.now }
    requires found { IsFoundOn (triangle_of primitive.now) primitive.now.state (place_on canvas.old) found.now }
    requires deep { HasDepths primitive.now.state canvas.old.tile.now }
    requires room { HasRoom (triangle_spans primitive.now.state (place_on canvas.old) (triangle_of primitive.now))
        (triangle_pixels primitive.now.state (place_on canvas.old) (triangle_of primitive.now)) canvas.old.undo.now }
    ensures { WritesRegion (triangle_spans primitive.now.state (place_on canvas.old) (triangle_of primitive.now))
        (triangle_pixels primitive.now.state (place_on canvas.old) (triangle_of primitive.now)) (reached_by primitive.now)
        (painted_by primitive.now) (kept_of primitive.now) canvas.old canvas.new }
{
    let place = canvas.tile.place();
    let mut y = found.area.top;
    while y < found.area.bottom {
        let end = strip_end(primitive, found, y, place);
        if y < end {
            draw_strip(primitive, y, end, canvas);
            y = end;
        } else {
            draw_row(primitive, found, y, canvas);
            y += 1;
        }
    }
}

/// Keeps and then writes the pixels at which the triangles of a draw are drawn, one triangle after the other: those that are planned, and
/// then the rest.
fn draw_triangles(draw: &Draw, state: &Pipeline, plan: &Plan, canvas: &mut Canvas<'_>)
    requires planned { ArePlanned draw.now state.now (place_on canvas.old) 0 plan.now.planned.items plan.now.rest }
    requires deep { HasDepths state.now canvas.old.tile.now }
    requires room { HasRoom (sum_by (triangle_spans state.now (place_on canvas.old)) (triangles_of draw.now))
        (sum_by (triangle_pixels state.now (place_on canvas.old)) (triangles_of draw.now)) canvas.old.undo.now }
    ensures { PaintsOn (pixel_after_triangles (triangles_of draw.now) draw.now.interp state.now)
        (kept_by_triangles (triangles_of draw.now) draw.now.interp state.now) canvas.old canvas.new }
{
    let place = canvas.tile.place();
    let planned = plan.planned.as_slice();
    for i in 0..planned.len() {
        let Planned { triangle, found } = &planned[i];
        let primitive = Primitive::of(draw, *triangle, state);
        draw_primitive(&primitive, found, canvas);
    }
    let count = draw.triangles();
    if plan.rest == count {
        return;
    }
    let window = window_of(draw, state, place);
    let mut from = plan.rest;
    while let Some(next) = Planned::next(draw, from, state, window) {
        from = draw.next_listed(next.triangle + 1, window);
        let primitive = Primitive::of(draw, next.triangle, state);
        draw_primitive(&primitive, &next.found, canvas);
    }
}
