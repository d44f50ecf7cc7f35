ghost use Rattle.std.specs.Prelude.{◌≤◌};

use fd_blend::Colour;
use fd_cover::{Bounds, Cull, Depth, Func, Interp, Raster, Rect};
use fd_draw::{Demand, Plan, box_of, clear_alike, draw, draws_nothing, first_listed, writes_deep};
use fd_events::{Draw, Event, Picture, Pipeline, Vertex};
use fd_snap::Pos;
use fd_tile::{Place, Tile};
use fd_undo::UndoStack;
use std::alloc::Global;
use std::process::Abort;
use std::test::Fail;

fn grey(level: u8) -> Colour {
    Colour {
        r: level,
        g: level,
        b: level,
        a: level,
    }
}

/// A triangle by its vertices in whole pixels, its colour and its depth.
type Triangle = ([(i32, i32); 3], Colour, u16);

/// A coordinate by whole pixels.
fn scaled(pixels: i32) -> Result<i32, Fail> {
    Ok(pixels.checked_mul(65536).ok_or("in range")?)
}

fn position(at: (i32, i32)) -> Result<Pos, Fail> {
    Ok(Pos::new(scaled(at.0)?, scaled(at.1)?).ok_or("in range")?)
}

/// A draw of triangles.
fn triangles(alloc: Global, triangles: &[Triangle]) -> Result<Event, Fail> {
    let mut vertices = Vec::new(alloc);
    for (corners, colour, z) in triangles {
        for at in *corners {
            let pos = position(at)?;
            let (colour, z) = (*colour, *z);
            vertices.push(Vertex { pos, colour, z })?;
        }
    }
    Ok(Event::Draw(Draw::new(vertices, None, Interp::Flat)?))
}

/// A draw of a triangle over a tile of four by four pixels, whose colours come from a picture of two texels at (1, 1) and (2, 1), with such holes.
fn painted(alloc: Global, holes: Option<u8>) -> Result<Event, Fail> {
    let mut vertices = Vec::new(alloc);
    for at in [(0, 0), (16, 0), (0, 16)] {
        let pos = position(at)?;
        vertices.push(Vertex {
            pos,
            colour: grey(9),
            z: 0,
        })?;
    }
    let mut texels = Vec::new(alloc);
    for level in [3, 3, 3, 3, 5, 5, 5, 5] {
        texels.push(level)?;
    }
    let holes = match holes {
        Some(bits) => {
            let mut bytes = Vec::new(alloc);
            bytes.push(bits)?;
            Some(bytes)
        }
        None => None,
    };
    let picture = Picture::new(1, 1, 2, 1, texels, holes)?;
    let picture = fd_memory::boxed(alloc, picture)?;
    Ok(Event::Draw(Draw::painted(vertices, None, picture)?))
}

/// The colour and the depth of a pixel.
fn pixel_at(tile: &Tile, x: u32, y: u32) -> Option<(Colour, u16)> {
    if tile.place().holds(x, y) {
        Some((tile.get(x, y), tile.depth(x, y)))
    } else {
        None
    }
}

/// A tile, what events overwrote on it, and the room that the last draw asked for.
#[derive(Drop)]
struct Canvas {
    tile: Tile,
    undo: UndoStack,
    demand: Demand,
}

fn canvas_of(alloc: Global, tile: Tile) -> Canvas {
    Canvas {
        tile,
        undo: UndoStack::new(alloc),
        demand: Demand {
            spans: 0,
            pixels: 0,
        },
    }
}

/// Draws an event, with room for just what it writes.
fn draw_with_room(canvas: &mut Canvas, event: &Event, state: &Pipeline) -> Result<(), Fail> {
    let place = canvas.tile.place();
    let is_flat = !canvas.tile.is_deep();
    if !canvas.tile.is_made() || (is_flat && writes_deep(event, state)) {
        return Err(Fail::from("no made tile"));
    }
    let first = first_listed(event, place).ok_or("listed")?;
    let mut plan = Plan::empty();
    plan.fill(event, state, place, first);
    canvas.undo.reserve(plan.demand.spans, plan.demand.pixels)?;
    canvas.undo.begin();
    draw(event, state, &plan, &mut canvas.tile, &mut canvas.undo);
    canvas.demand = plan.demand;
    Ok(())
}

/// Draws triangles in one draw.
fn draw_together(
    canvas: &mut Canvas,
    alloc: Global,
    list: &[Triangle],
    state: &Pipeline,
) -> Result<(), Fail> {
    let event = triangles(alloc, list)?;
    draw_with_room(canvas, &event, state)
}

/// A tile on which triangles were drawn in one draw.
fn drawn(alloc: Global, tile: Tile, list: &[Triangle], state: &Pipeline) -> Result<Canvas, Fail> {
    let mut canvas = canvas_of(alloc, tile);
    draw_together(&mut canvas, alloc, list, state)?;
    Ok(canvas)
}

/// The spans and pixels that the last draw asked for.
fn expect_demand(rt: &impl Abort, canvas: &Canvas, spans: usize, pixels: usize) {
    assert_eq!(rt;
        (canvas.demand.spans, canvas.demand.pixels),
        (spans, pixels)
    );
}

/// How many pixels all events overwrote.
fn expect_recorded(rt: &impl Abort, undo: &UndoStack, recorded: u64) {
    assert_eq!(rt; undo.recorded(), recorded);
}

/// A pixel's grey and depth.
fn expect_pixel(rt: &impl Abort, tile: &Tile, at: (u32, u32), level: u8, depth: u16) {
    assert_eq!(rt; pixel_at(tile, at.0, at.1), Some((grey(level), depth)));
}

/// The greys that an event overwrote at a pixel, each as deep as a fresh pixel is, and no more than these.
fn expect_kept(rt: &impl Abort, undo: &UndoStack, frame: usize, at: (u32, u32), levels: &[u8]) {
    for (n, level) in levels.iter().enumerate() {
        assert_eq!(rt;
            undo.kept(frame, at.0, at.1, n),
            Some((grey(*level), 65535))
        );
    }
    assert_eq!(rt; undo.kept(frame, at.0, at.1, levels.len()), None);
}

const CLOCKWISE: [(i32, i32); 3] = [(0, 0), (2, 0), (0, 2)];

const COUNTER_CLOCKWISE: [(i32, i32); 3] = [(0, 0), (0, 2), (2, 0)];

/// It covers each pixel of `CORNER`.
const LARGE: [(i32, i32); 3] = [(0, 0), (4, 0), (0, 4)];

const CORNER: Place = Place {
    left: 0,
    top: 0,
    width: 2,
    height: 2,
};

/// The depth test on, and its depths stored or not.
fn tested(func: Func, write: bool) -> Pipeline {
    Pipeline {
        depth: Depth {
            enable: true,
            write,
            func,
        },
        ..Pipeline::default()
    }
}

/// Nothing is culled, and the scissor is on.
fn scissored(scissor: Rect) -> Pipeline {
    Pipeline {
        raster: Raster {
            cull: Cull::None,
            front_ccw: false,
            scissor: true,
        },
        scissor,
        ..Pipeline::default()
    }
}

/// On a tile that the target's borders cut, and with a scissor that leaves no pixel.
#[test]
fn a_clear_keeps_every_pixel(rt: HostRuntime) -> Result<(), Fail> {
    let place = Place {
        left: 32,
        top: 64,
        width: 3,
        height: 2,
    };
    let mut canvas = canvas_of(rt.alloc(), Tile::fresh(rt.alloc(), place)?);
    let state = scissored(Pipeline::default().scissor);
    draw_with_room(&mut canvas, &Event::Clear(grey(7)), &state)?;
    expect_demand(&rt, &canvas, 2, 6);
    draw_with_room(&mut canvas, &Event::DepthClear(9), &state)?;
    expect_demand(&rt, &canvas, 2, 6);
    expect_recorded(&rt, &canvas.undo, 12);
    for y in 64..66 {
        for x in 32..35 {
            expect_pixel(&rt, &canvas.tile, (x, y), 7, 9);
            expect_kept(&rt, &canvas.undo, 0, (x, y), &[0]);
            expect_kept(&rt, &canvas.undo, 1, (x, y), &[7]);
        }
    }
    Ok(())
}

/// On a tile that isn't made: a frame of one colour and one depth. A draw leaves it to others.
#[test]
fn a_clear_of_alike_pixels_keeps_one_colour(rt: HostRuntime) -> Result<(), Fail> {
    let mut canvas = canvas_of(rt.alloc(), Tile::blank(rt.alloc(), CORNER));
    let event = triangles(rt.alloc(), &[(LARGE, grey(3), 5)])?;
    assert!(rt; !clear_alike(&event, &mut canvas.tile, &mut canvas.undo)?);
    assert!(rt; clear_alike(&Event::Clear(grey(7)), &mut canvas.tile, &mut canvas.undo)?);
    assert!(rt; clear_alike(&Event::DepthClear(9), &mut canvas.tile, &mut canvas.undo)?);
    assert!(rt; !canvas.tile.is_made() && canvas.tile.is_deep());
    expect_recorded(&rt, &canvas.undo, 8);
    expect_pixel(&rt, &canvas.tile, (1, 1), 7, 9);
    expect_kept(&rt, &canvas.undo, 0, (1, 1), &[0]);
    expect_kept(&rt, &canvas.undo, 1, (1, 1), &[7]);
    Ok(())
}

/// On a tile that is made and isn't deep: a clear of depths to the greatest is kept so too, and one to another depth is left to others.
#[test]
fn a_clear_of_depths_may_want_memory(rt: HostRuntime) -> Result<(), Fail> {
    let mut tile = Tile::blank(rt.alloc(), CORNER);
    tile.make()?;
    let mut canvas = canvas_of(rt.alloc(), tile);
    assert!(rt; !clear_alike(&Event::DepthClear(9), &mut canvas.tile, &mut canvas.undo)?);
    assert!(rt;
        clear_alike(
            &Event::DepthClear(65535),
            &mut canvas.tile,
            &mut canvas.undo
        )?
    );
    assert!(rt; !canvas.tile.is_deep());
    expect_recorded(&rt, &canvas.undo, 4);
    Ok(())
}

/// A draw with the depth test off wants no depths: what it overwrites has the greatest.
#[test]
fn a_draw_leaves_a_tile_without_depths(rt: HostRuntime) -> Result<(), Fail> {
    let mut tile = Tile::blank(rt.alloc(), CORNER);
    tile.make()?;
    let list = [(LARGE, grey(3), 5), (CLOCKWISE, grey(4), 6)];
    let canvas = drawn(rt.alloc(), tile, &list, &Pipeline::default())?;
    assert!(rt; !canvas.tile.is_deep());
    expect_pixel(&rt, &canvas.tile, (0, 0), 4, 65535);
    expect_kept(&rt, &canvas.undo, 0, (0, 0), &[0, 3]);
    expect_pixel(&rt, &canvas.tile, (1, 1), 3, 65535);
    Ok(())
}

#[test]
fn triangles_are_drawn_in_their_order(rt: HostRuntime) -> Result<(), Fail> {
    let list = [(LARGE, grey(3), 5), (CLOCKWISE, grey(4), 6)];
    let tile = Tile::fresh(rt.alloc(), CORNER)?;
    let canvas = drawn(rt.alloc(), tile, &list, &Pipeline::default())?;
    expect_demand(&rt, &canvas, 3, 5);
    expect_recorded(&rt, &canvas.undo, 5);
    expect_pixel(&rt, &canvas.tile, (0, 0), 4, 65535);
    expect_kept(&rt, &canvas.undo, 0, (0, 0), &[0, 3]);
    expect_pixel(&rt, &canvas.tile, (1, 1), 3, 65535);
    expect_kept(&rt, &canvas.undo, 0, (1, 1), &[0]);
    Ok(())
}

/// Triangles with legs of 4 pixels, side by side and one over the other, each of its own grey.
fn fan(alloc: Global) -> Result<Vec<Triangle>, Fail> {
    let mut list = Vec::new(alloc);
    for level in 1..41u8 {
        let left = i32::from(level % 8);
        let corners = [(left, 0), (left + 4, 0), (left, 4)];
        list.push((corners, grey(level), 0))?;
    }
    Ok(list)
}

/// A tile on which each triangle was drawn in a draw of its own.
fn drawn_alone(alloc: Global, tile: Tile, list: &[Triangle]) -> Result<Canvas, Fail> {
    let mut canvas = canvas_of(alloc, tile);
    for triangle in list {
        draw_together(&mut canvas, alloc, &[*triangle], &Pipeline::default())?;
    }
    Ok(canvas)
}

/// Whether two tiles show the same in these columns and rows.
fn show_the_same(one: &Tile, other: &Tile, width: u32, height: u32) -> bool {
    for y in 0..height {
        for x in 0..width {
            if pixel_at(one, x, y) != pixel_at(other, x, y) {
                return false;
            }
        }
    }
    true
}

const WIDE: Place = Place {
    left: 0,
    top: 0,
    width: 16,
    height: 8,
};

/// More triangles of one draw than a plan keeps are drawn as in draws of their own.
#[test]
fn triangles_that_are_not_planned_are_drawn_too(rt: HostRuntime) -> Result<(), Fail> {
    let list = fan(rt.alloc())?;
    let tile = Tile::fresh(rt.alloc(), WIDE)?;
    let together = drawn(rt.alloc(), tile, &list, &Pipeline::default())?;
    expect_demand(&rt, &together, 120, 240);
    expect_recorded(&rt, &together.undo, 240);
    expect_pixel(&rt, &together.tile, (0, 0), 40, 65535);
    let alone = drawn_alone(rt.alloc(), Tile::fresh(rt.alloc(), WIDE)?, &list)?;
    assert!(rt; show_the_same(&together.tile, &alone.tile, 16, 8));
    Ok(())
}

/// Room is asked for each pixel that a triangle reaches; what fails the test is left alone and not kept.
#[test]
fn farther_triangles_leave_no_trace(rt: HostRuntime) -> Result<(), Fail> {
    let near = (CLOCKWISE, grey(1), 1000);
    let far = (LARGE, grey(2), 2000);
    let list = [near, far, near];
    let tile = Tile::fresh(rt.alloc(), CORNER)?;
    let canvas = drawn(rt.alloc(), tile, &list, &tested(Func::Less, true))?;
    expect_demand(&rt, &canvas, 6, 6);
    expect_recorded(&rt, &canvas.undo, 4);
    expect_pixel(&rt, &canvas.tile, (0, 0), 1, 1000);
    expect_kept(&rt, &canvas.undo, 0, (0, 0), &[0]);
    for at in [(1, 0), (0, 1), (1, 1)] {
        expect_pixel(&rt, &canvas.tile, at, 2, 2000);
        expect_kept(&rt, &canvas.undo, 0, at, &[0]);
    }
    Ok(())
}

/// A row of five pixels, of which the second and the fourth are 7 deep.
fn row_of_five(alloc: Global) -> Result<Tile, Fail> {
    let place = Place {
        left: 0,
        top: 0,
        width: 5,
        height: 1,
    };
    let mut tile = Tile::fresh(alloc, place)?;
    for x in [1, 3] {
        if !tile.is_made() || !tile.is_deep() || !tile.place().holds(x, 0) {
            return Err(Fail::from("no such pixel"));
        }
        tile.set_depth(x, 0, 7);
    }
    Ok(tile)
}

/// A pixel of that row, which grey 8 was drawn on or not.
fn expect_drawn_on(rt: &impl Abort, canvas: &Canvas, x: u32, drawn_on: bool) {
    let pixel = if drawn_on {
        (grey(8), 65535)
    } else {
        (grey(0), 7)
    };
    assert_eq!(rt; pixel_at(&canvas.tile, x, 0), Some(pixel));
    assert_eq!(rt; canvas.undo.kept(0, x, 0, 0).is_some(), drawn_on);
}

/// Of a row of five pixels the second and the fourth are as deep as the triangle, and the test is whether depths differ.
#[test]
fn pixels_of_a_row_pass_in_runs(rt: HostRuntime) -> Result<(), Fail> {
    let mut canvas = canvas_of(rt.alloc(), row_of_five(rt.alloc())?);
    let list = [([(0, 0), (12, 0), (0, 12)], grey(8), 7)];
    draw_together(
        &mut canvas,
        rt.alloc(),
        &list,
        &tested(Func::NotEqual, false),
    )?;
    expect_recorded(&rt, &canvas.undo, 3);
    for (x, drawn_on) in [(0, true), (1, false), (2, true), (3, false), (4, true)] {
        expect_drawn_on(&rt, &canvas, x, drawn_on);
    }
    Ok(())
}

/// Whether a depth of 7 passes against a stored 6, 7 and 8.
const PASSING: [(Func, [bool; 3]); 8] = [
    (Func::Never, [false, false, false]),
    (Func::Less, [false, false, true]),
    (Func::Equal, [false, true, false]),
    (Func::LessEqual, [false, true, true]),
    (Func::Greater, [true, false, false]),
    (Func::NotEqual, [true, false, true]),
    (Func::GreaterEqual, [true, true, false]),
    (Func::Always, [true, true, true]),
];

/// In a row whose stored depths are 6, 7 and 8 in turn.
fn expect_runs(
    rt: &impl Abort,
    alloc: Global,
    width: u32,
    func: Func,
    passing: [bool; 3],
) -> Result<(), Fail>
    requires some { 1 ≤ width }
    requires few { width ≤ 32 }
{
    let place = Place {
        left: 0,
        top: 0,
        width,
        height: 1,
    };
    let mut tile = Tile::fresh(alloc, place)?;
    for x in 0..width {
        assert!(rt; tile.is_made() && tile.is_deep() && tile.place().holds(x, 0));
        tile.set_depth(x, 0, 6 + (x % 3) as u16);
    }
    let mut canvas = canvas_of(alloc, tile);
    let list = [([(0, 0), (80, 0), (0, 80)], grey(8), 7)];
    draw_together(&mut canvas, alloc, &list, &tested(func, true))?;
    for x in 0..width {
        let before = 6 + (x % 3) as u16;
        let passed = passing[(x % 3) as usize];
        let pixel = if passed {
            (grey(8), 7)
        } else {
            (grey(0), before)
        };
        let kept = if passed {
            Some((grey(0), before))
        } else {
            None
        };
        assert_eq!(rt; pixel_at(&canvas.tile, x, 0), Some(pixel));
        assert_eq!(rt; canvas.undo.kept(0, x, 0, 0), kept);
    }
    Ok(())
}

#[test]
fn each_comparison_draws_what_passes(rt: HostRuntime) -> Result<(), Fail> {
    for width in [1, 31, 32] {
        for (func, passing) in PASSING {
            expect_runs(&rt, rt.alloc(), width, func, passing)?;
        }
    }
    Ok(())
}

#[test]
fn the_box_of_a_place_ends_past_its_pixels(rt: HostRuntime) {
    let place = Place {
        left: 32,
        top: 64,
        width: 7,
        height: 5,
    };
    let sides = Bounds {
        left: 32,
        top: 64,
        right: 39,
        bottom: 69,
    };
    assert_eq!(rt; box_of(place), sides);
}

#[test]
fn a_triangle_beside_the_tile_asks_for_nothing(rt: HostRuntime) -> Result<(), Fail> {
    let place = Place {
        left: 32,
        top: 0,
        width: 32,
        height: 32,
    };
    let event = triangles(rt.alloc(), &[([(0, 0), (32, 0), (0, 32)], grey(3), 0)])?;
    let first = first_listed(&event, place).ok_or("listed")?;
    let mut plan = Plan::empty();
    plan.fill(&event, &Pipeline::default(), place, first);
    assert_eq!(rt; (plan.demand.spans, plan.demand.pixels), (0, 0));
    Ok(())
}

#[test]
fn culled_and_scissored_pixels_are_left_alone(rt: HostRuntime) -> Result<(), Fail> {
    let culled = [(COUNTER_CLOCKWISE, grey(3), 0)];
    let tile = Tile::fresh(rt.alloc(), CORNER)?;
    let mut canvas = drawn(rt.alloc(), tile, &culled, &Pipeline::default())?;
    expect_demand(&rt, &canvas, 0, 0);
    expect_pixel(&rt, &canvas.tile, (0, 0), 0, 65535);
    let state = scissored(Rect {
        left: -5,
        top: 0,
        right: 9,
        bottom: 1,
    });
    let large = [([(0, 0), (0, 4), (4, 0)], grey(5), 0)];
    draw_together(&mut canvas, rt.alloc(), &large, &state)?;
    expect_demand(&rt, &canvas, 1, 2);
    expect_pixel(&rt, &canvas.tile, (1, 0), 5, 65535);
    expect_pixel(&rt, &canvas.tile, (0, 1), 0, 65535);
    Ok(())
}

const FOUR: Place = Place {
    left: 0,
    top: 0,
    width: 4,
    height: 4,
};

/// Without holes its row is one span, and with them each of its pixels may be one of its own.
#[test]
fn a_picture_is_drawn_where_it_lies(rt: HostRuntime) -> Result<(), Fail> {
    let state = Pipeline::default();
    let mut canvas = canvas_of(rt.alloc(), Tile::fresh(rt.alloc(), FOUR)?);
    let event = painted(rt.alloc(), None)?;
    draw_with_room(&mut canvas, &event, &state)?;
    expect_demand(&rt, &canvas, 1, 2);
    expect_recorded(&rt, &canvas.undo, 2);
    for (at, level) in [
        ((0, 1), 0),
        ((1, 1), 3),
        ((2, 1), 5),
        ((3, 1), 0),
        ((1, 0), 0),
    ] {
        expect_pixel(&rt, &canvas.tile, at, level, 65535);
    }
    let event = painted(rt.alloc(), Some(0b01))?;
    draw_with_room(&mut canvas, &event, &state)?;
    expect_demand(&rt, &canvas, 2, 2);
    expect_recorded(&rt, &canvas.undo, 3);
    expect_kept(&rt, &canvas.undo, 1, (1, 1), &[]);
    expect_kept(&rt, &canvas.undo, 1, (2, 1), &[5]);
    Ok(())
}

/// A test that no depth passes is seen, where it is on.
#[test]
fn nothing_is_drawn_where_no_depth_passes(rt: HostRuntime) -> Result<(), Fail> {
    let event = painted(rt.alloc(), None)?;
    let never = tested(Func::Never, true);
    let mut off = never;
    off.depth.enable = false;
    assert!(rt; draws_nothing(&event, &never, FOUR));
    assert!(rt; !draws_nothing(&event, &off, FOUR));
    assert!(rt; !draws_nothing(&event, &tested(Func::Less, true), FOUR));
    Ok(())
}

/// Where no picture lies nothing is planned, though the triangle covers the tile.
#[test]
fn a_picture_elsewhere_asks_for_nothing(rt: HostRuntime) -> Result<(), Fail> {
    let place = Place {
        top: 2,
        height: 2,
        ..FOUR
    };
    let state = Pipeline::default();
    let event = painted(rt.alloc(), None)?;
    assert!(rt; draws_nothing(&event, &state, place));
    assert!(rt; !draws_nothing(&event, &state, FOUR));
    let first = first_listed(&event, place).ok_or("listed")?;
    let mut plan = Plan::empty();
    plan.fill(&event, &state, place, first);
    assert_eq!(rt; (plan.demand.spans, plan.demand.pixels), (0, 0));
    Ok(())
}
