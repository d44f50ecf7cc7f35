//! A triangle with the depth test on: of each row the pixels that pass, in runs.
ghost use Rattle.std.specs.Prelude.{◌≡◌, ℕ, ◌+◌, ◌-◌, ◌<◌, ◌≤◌, ◌^◌, true, length, slice_index, is_some};
ghost use Rattle.fd_snap.specs.Limits.{most_pixels};
ghost use Rattle.fd_events.specs.Image.{depth_of as source_depth, is_drawn};
ghost use Rattle.fd_events.specs.Picture.{is_inside, texel};
ghost use Rattle.fd_tile.specs.Tile.{depth_in};
ghost use Rattle.fd_draw.specs.Mask.{has_bit};
ghost use Rattle.fd_draw.specs.Primitive.{CoversRun, IsReady, ReachesRun, is_tested_by, kept_of, painted_by, triangle_of};
ghost use Rattle.fd_draw.specs.Run.{EachColumn, run_spans};
ghost use Rattle.fd_draw.specs.Tested.{AreDepths, AreTested};
ghost use Rattle.fd_draw.specs.Writing.{ChangesRun, HasDepths, HasRoom, HasRun, WritesRun, depth_stored, place_on};

use crate::canvas::Canvas;
use crate::comparison::{alike, test_row};
use crate::primitive::Primitive;
use crate::run::Run;
use crate::write::{WIDEST, write_span};
use fd_events::Picture;
use fd_tile::Tile;

/// The depths that a triangle has at neighbouring pixels of a row, and a bit for each that tells whether it passes the test.
#[derive(Clone, Copy)]
struct Tested<'a> {
    depths: &'a [u16],
    passed: u64,
}

/// Keeps and then writes those pixels of a run at which the triangle is drawn: all of them, or those that pass by runs of their own.
pub(crate) fn draw_span(primitive: &Primitive<'_>, run: Run, canvas: &mut Canvas<'_>)
    requires run { HasRun run (place_on canvas.old) }
    requires ready { IsReady primitive.now }
    requires covered { CoversRun primitive.now run }
    requires reached { ReachesRun primitive.now run }
    requires deep { HasDepths primitive.now.state canvas.old.tile.now }
    requires room { HasRoom (run_spans (is_tested_by primitive.now) run) (run.right - run.left) canvas.old.undo.now }
    ensures { WritesRun (run_spans (is_tested_by primitive.now) run) run (painted_by primitive.now) (kept_of primitive.now)
        canvas.old canvas.new }
{
    if !primitive.tested {
        write_span(primitive, run, canvas);
        return;
    }
    let depths = depths_on(primitive, run);
    let passed = test_span(primitive, &depths, run, canvas.tile);
    let tested = Tested {
        depths: &depths[..run.count()],
        passed,
    };
    draw_runs(primitive, &tested, run, canvas);
}

/// Stores depths in a run.
fn store_depths(depths: &[u16], run: Run, tile: &mut Tile)
    requires made { tile.old.made ≡ true }
    requires deep { tile.old.deep ≡ true }
    requires run { HasRun run tile.old.place }
    requires size { length depths.now ≡ run.right - run.left }
    ensures { ChangesRun (depth_stored depths.now run.left) run tile.old tile.new }
{
    let place = tile.place();
    let start = (run.left - place.left) as usize;
    let row = tile.depth_row_mut(run.y);
    row[start..start + depths.len()].copy_from_slice(depths);
}

/// Keeps and then writes the pixels of a run, at each of which the triangle, of this depth there, is drawn.
fn draw_run(primitive: &Primitive<'_>, depths: &[u16], run: Run, canvas: &mut Canvas<'_>)
    requires run { HasRun run (place_on canvas.old) }
    requires ready { IsReady primitive.now }
    requires size { length depths.now ≡ run.right - run.left }
    requires covered { CoversRun primitive.now run }
    requires depths { AreDepths primitive.now run depths.now }
    requires drawn { EachColumn run
        (λ column. is_drawn (triangle_of primitive.now) primitive.now.state column run.y (depth_in canvas.old.tile.now column run.y) ≡ true) }
    requires deep { HasDepths primitive.now.state canvas.old.tile.now }
    requires room { HasRoom 1 (run.right - run.left) canvas.old.undo.now }
    ensures { WritesRun 1 run (painted_by primitive.now) (kept_of primitive.now) canvas.old canvas.new }
{
    write_span(primitive, run, canvas);
    if primitive.state.depth.enable && primitive.state.depth.write {
        store_depths(depths, run, canvas.tile);
    }
}

/// Tests the pixels of a run, at which the triangle has the first of these depths. A bit for each tells whether it is drawn there.
fn test_span(primitive: &Primitive<'_>, depths: &[u16; WIDEST], run: Run, tile: &Tile) -> u64
    requires made { tile.now.made ≡ true }
    requires run { HasRun run tile.now.place }
    requires depths { primitive.now.state.depth.enable ≡ true
        → EachColumn run (λ column. slice_index depths.now (column - run.left) ≡ source_depth (triangle_of primitive.now) column run.y) }
    requires reached { ReachesRun primitive.now run }
    ensures bound { result < 2 ^ 32 }
    ensures passed { EachColumn run (λ column. has_bit result (column - run.left)
        ≡ is_drawn (triangle_of primitive.now) primitive.now.state column run.y (depth_in tile.now column run.y)) }
{
    let place = tile.place();
    let start = (run.left - place.left) as usize;
    let end = (run.right - place.left) as usize;
    let passed = test_row(
        &primitive.state.depth,
        depths,
        &tile.depth_row(run.y)[start..end],
    );
    match primitive.picture {
        Some(picture) => passed & mask_of(picture, run),
        None => passed,
    }
}

/// A bit for each pixel of a run on a picture that tells whether this has a colour for it.
fn mask_of(picture: &Picture, run: Run) -> u64
    requires columns { run.left ≤ run.right }
    requires few { run.right ≤ run.left + 32 }
    requires inside { EachColumn run (λ column. is_inside picture.now column run.y ≡ true) }
    ensures bits { (k : ℕ) → k < run.right - run.left → has_bit result k ≡ is_some (texel picture.now (run.left + k) run.y) }
    ensures bound { result < 2 ^ 32 }
{
    if picture.is_whole() {
        return 0xffff_ffff;
    }
    let mut mask: u64 = 0;
    let mut x = run.right;
    while run.left < x {
        x -= 1;
        mask *= 2;
        if picture.texel(x, run.y).is_some() {
            mask += 1;
        }
    }
    mask
}

/// Keeps and then writes those of a run's tested pixels that pass.
fn draw_runs(primitive: &Primitive<'_>, tested: &Tested<'_>, run: Run, canvas: &mut Canvas<'_>)
    requires run { HasRun run (place_on canvas.old) }
    requires ready { IsReady primitive.now }
    requires tested { AreTested primitive.now run canvas.old.tile.now tested.now }
    requires deep { HasDepths primitive.now.state canvas.old.tile.now }
    requires room { HasRoom (run.right - run.left) (run.right - run.left) canvas.old.undo.now }
    ensures { WritesRun (run.right - run.left) run (painted_by primitive.now) (kept_of primitive.now) canvas.old canvas.new }
{
    let mut done = 0;
    while done < tested.depths.len() {
        let passed = tested.passed >> done;
        let count = alike(passed, tested.depths.len() - done);
        if passed % 2 == 1 {
            let left = run.left + done as u32;
            let part = Run {
                left,
                right: left + count as u32,
                y: run.y,
            };
            draw_run(primitive, &tested.depths[done..done + count], part, canvas);
        }
        done += count;
    }
}

/// The depths that a triangle has at the pixels of a run, where the depth test is on.
fn depths_on(primitive: &Primitive<'_>, run: Run) -> [u16; WIDEST]
    requires ready { IsReady primitive.now }
    requires order { run.left ≤ run.right }
    requires few { run.right ≤ run.left + 32 }
    requires row { run.y < most_pixels }
    requires columns { run.right ≤ most_pixels }
    requires covered { CoversRun primitive.now run }
    ensures { primitive.now.state.depth.enable ≡ true
        → EachColumn run (λ column. slice_index result (column - run.left) ≡ source_depth (triangle_of primitive.now) column run.y) }
{
    let mut depths = [0; WIDEST];
    if let Some(depth_rows) = &primitive.depth_rows {
        depth_rows.row(run.left, run.y, &mut depths[..run.count()]);
    }
    depths
}
