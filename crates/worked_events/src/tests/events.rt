use fd_blend::{BlendOp, BlendState, Colour, Factor, Mask, Part};
use fd_cover::{Bounds, Cull, Depth, Func, Interp, Raster, Rect};
use fd_events::{
    Draw, DrawFault, Event, EventTable, Label, LabelFault, Pipeline, TableFault, Vertex,
};
use fd_snap::Pos;
use std::alloc::Global;
use std::process::Abort;
use std::test::Fail;

pub(super) fn grey(level: u8) -> Colour {
    Colour {
        r: level,
        g: level,
        b: level,
        a: level,
    }
}

fn clears(alloc: Global, number: usize) -> Result<Vec<Event>, Fail> {
    let mut events = Vec::new(alloc);
    for _ in 0..number {
        events.push(Event::Clear(grey(9)))?;
    }
    Ok(events)
}

// All that a call promises is carried along to the end of a test. What follows promises nothing, so that no proof of a test carries it.

/// The table of a target of this width and height.
pub(super) fn start(
    alloc: Global,
    (width, height): (u32, u32),
    events: Vec<Event>,
) -> Result<EventTable, TableFault> {
    EventTable::start(alloc, 3, width, height, events)
}

/// A draw without a picture.
pub(super) fn draw_of(
    vertices: Vec<Vertex>,
    indices: Option<Vec<u32>>,
    interp: Interp,
) -> Result<Draw, DrawFault> {
    Draw::new(vertices, indices, interp)
}

/// The draw that is a table's only event.
fn only_draw(table: &EventTable) -> Result<&Draw, Fail> {
    if table.len() == 1 {
        if let Event::Draw(draw) = table.event(1) {
            return Ok(draw);
        }
    }
    Err("one draw".into())
}

/// Checks the colours and depths of a triangle.
fn expect_triangle(
    rt: &impl Abort,
    draw: &Draw,
    triangle: u32,
    levels: [u8; 3],
    depths: [u16; 3],
) -> Result<(), Fail> {
    if triangle >= draw.triangles() {
        return Err("a triangle of the draw".into());
    }
    assert_eq!(rt; draw.colours(triangle), levels.map(grey));
    assert_eq!(rt; draw.depths(triangle), depths);
    Ok(())
}

/// Checks which triangle from one on is the next that a draw lists for a window.
fn expect_listed(
    rt: &impl Abort,
    draw: &Draw,
    from: u32,
    window: Bounds,
    next: u32,
) -> Result<(), Fail> {
    if from > draw.triangles() {
        return Err("a triangle of the draw".into());
    }
    assert_eq!(rt;
        draw.next_listed(from, window),
        next,
        "from {from} in {window:?}, of {}",
        draw.triangles()
    );
    Ok(())
}

/// Checks the boxes of a draw's first two groups of 32 triangles.
fn expect_groups(rt: &impl Abort, draw: &Draw, first: Bounds, second: Bounds) {
    assert_eq!(rt;
        (draw.group_bounds(0), draw.group_bounds(1)),
        (first, second)
    );
}

/// Checks the boxes of two triangles.
fn expect_boxes(rt: &impl Abort, draw: &Draw, [(i, first), (j, second)]: [(u32, Bounds); 2]) {
    assert_eq!(rt;
        (draw.triangle_bounds(i), draw.triangle_bounds(j)),
        (first, second)
    );
}

/// Checks whether a draw is culled by each of these.
fn expect_culled(rt: &impl Abort, draw: &Draw, culled: [bool; 5]) {
    for ((cull, front_ccw), culled) in EACH_CULLING.into_iter().zip(culled) {
        let raster = Raster {
            cull,
            front_ccw,
            scissor: true,
        };
        assert_eq!(rt; draw.is_culled(&raster), culled, "{raster:?}");
    }
}

/// Checks what an event reaches.
pub(super) fn expect_reach(
    rt: &impl Abort,
    table: &EventTable,
    number: u32,
    reach: Bounds,
) -> Result<(), Fail> {
    if number == 0 || number > table.len() {
        return Err("an event of the table".into());
    }
    assert_eq!(rt; table.reach(number), reach, "event {number}");
    Ok(())
}

/// Checks a table of clears of grey 9.
fn expect_clears(
    rt: &impl Abort,
    table: &EventTable,
    (width, height): (u32, u32),
    number: usize,
) -> Result<(), Fail> {
    assert_eq!(rt;
        (table.width(), table.height(), table.version()),
        (width, height, 3)
    );
    assert_eq!(rt; table.len() as usize, number);
    if table.len() < 2 {
        return Err("two events".into());
    }
    assert!(rt; matches!(table.event(2), Event::Clear(colour) if *colour == grey(9)));
    assert!(rt; table.is_on(2));
    assert_eq!(rt; *table.state_before(1), Pipeline::default());
    Ok(())
}

#[test]
fn events_start_switched_on(rt: HostRuntime) -> Result<(), Fail> {
    for (width, height, number) in [(1, 16_384, 1_000_000), (16_384, 1, 2)] {
        let table = start(rt.alloc(), (width, height), clears(rt.alloc(), number)?)?;
        expect_clears(&rt, &table, (width, height), number)?;
    }
    Ok(())
}

#[test]
fn refused_tables_and_their_faults(rt: HostRuntime) -> Result<(), Fail> {
    for (width, height, number, fault) in [
        (0, 1, 0, TableFault::Size),
        (1, 0, 0, TableFault::Size),
        (16_385, 1, 0, TableFault::Size),
        (1, 16_385, 1_000_001, TableFault::Size),
        (1, 1, 1_000_001, TableFault::TooMany),
    ] {
        let refused = start(rt.alloc(), (width, height), clears(rt.alloc(), number)?);
        assert_eq!(rt;
            refused.err(),
            Some(fault),
            "{width} by {height}, {number} events"
        );
    }
    Ok(())
}

#[test]
fn a_table_of_version_one(rt: HostRuntime) -> Result<(), Fail> {
    let table = EventTable::start(rt.alloc(), 1, 3, 2, Vec::new(rt.alloc()))?;
    assert_eq!(rt; (table.version(), table.len()), (1, 0));
    assert_eq!(rt; *table.state_before(1), Pipeline::default());
    Ok(())
}

/// The nearer fragment passes, and stores its depth.
const NEARER: Depth = Depth {
    enable: true,
    write: true,
    func: Func::Less,
};

/// A blend, a raster, a scissor, a factor and a depth event, with a clear between them.
fn states(
    alloc: Global,
    blend: BlendState,
    raster: Raster,
    rect: Rect,
) -> Result<EventTable, Fail> {
    let mut events = Vec::new(alloc);
    events.push(Event::SetBlend(blend))?;
    events.push(Event::SetRaster(raster))?;
    events.push(Event::Clear(grey(9)))?;
    events.push(Event::SetScissor(rect))?;
    events.push(Event::SetFactor(grey(5)))?;
    events.push(Event::SetDepth(NEARER))?;
    Ok(start(alloc, (1, 1), events)?)
}

/// The state before an event of a table, or behind its last.
fn state_before(table: &EventTable, number: u32) -> Result<Pipeline, Fail> {
    if number == 0 || number - 1 > table.len() {
        return Err("an event of the table".into());
    }
    Ok(*table.state_before(number))
}

/// Switches an event of a table.
pub(super) fn switch(table: &mut EventTable, number: u32, is_on: bool) -> Result<(), Fail> {
    if number == 0 || number > table.len() {
        return Err("an event of the table".into());
    }
    table.set_on(number, is_on);
    Ok(())
}

/// Switches the first of two events or more.
fn switch_first(rt: &impl Abort, table: &mut EventTable, is_on: bool) -> Result<(), Fail> {
    if table.len() < 2 {
        return Err("two events".into());
    }
    table.set_on(1, is_on);
    assert_eq!(rt; (table.is_on(1), table.is_on(2)), (is_on, true));
    Ok(())
}

#[test]
fn a_blend_event_switched_off_and_on(rt: HostRuntime) -> Result<(), Fail> {
    let part = Part {
        src: Factor::SrcAlpha,
        dst: Factor::Zero,
        op: BlendOp::Add,
    };
    let mask = Mask::from_bits(15).ok_or("a mask")?;
    let blend = BlendState::new(true, part, part, mask)?;
    let raster = Raster {
        cull: Cull::None,
        front_ccw: true,
        scissor: true,
    };
    let rect = Rect {
        left: 1,
        top: 2,
        right: 3,
        bottom: 4,
    };
    let mut table = states(rt.alloc(), blend, raster, rect)?;
    assert_eq!(rt; table.len(), 6);
    let defaults = Pipeline::default();
    assert_eq!(rt; state_before(&table, 1)?, defaults);
    assert_eq!(rt; state_before(&table, 6)?.blend, blend);
    assert_eq!(rt; state_before(&table, 4)?.scissor, defaults.scissor);
    switch_first(&rt, &mut table, false)?;
    assert_eq!(rt; state_before(&table, 2)?.blend, defaults.blend);
    let changed = state_before(&table, 6)?;
    assert_eq!(rt;
        (changed.blend, changed.raster, changed.scissor),
        (defaults.blend, raster, rect)
    );
    switch_first(&rt, &mut table, true)?;
    let last = state_before(&table, 6)?;
    assert_eq!(rt;
        (last.blend, last.factor, last.depth),
        (blend, grey(5), defaults.depth)
    );
    assert_eq!(rt; state_before(&table, 7)?.depth, NEARER);
    Ok(())
}

/// A grey vertex at a position in 1/65536 pixel.
fn vertex(x: i32, y: i32, level: u8, z: u16) -> Result<Vertex, Fail> {
    let Some(pos) = Pos::new(x, y) else {
        return Err(Fail::from("a position"));
    };
    let colour = grey(level);
    Ok(Vertex { pos, colour, z })
}

/// So many vertices at (1/256, -1/512) pixels, which is rounded to (1/256, 0).
fn push_vertices(vertices: &mut Vec<Vertex>, count: u32, level: u8, z: u16) -> Result<(), Fail> {
    for _ in 0..count {
        vertices.push(vertex(256, -128, level, z)?)?;
    }
    Ok(())
}

/// Such vertices, of which the first three are darker and nearer.
fn vertices(alloc: Global, number: u32) -> Result<Vec<Vertex>, Fail> {
    let mut vertices = Vec::new(alloc);
    push_vertices(&mut vertices, number.min(3), 1, 0)?;
    push_vertices(&mut vertices, number.saturating_sub(3), 2, 65_535)?;
    Ok(vertices)
}

/// Checks the second corner of a triangle, in 1/256 pixel.
fn expect_second_corner(
    rt: &impl Abort,
    draw: &Draw,
    triangle: u32,
    corner: (i32, i32),
) -> Result<(), Fail> {
    if triangle >= draw.triangles() {
        return Err("a triangle of the draw".into());
    }
    let triangle = draw.tri(triangle);
    assert_eq!(rt; (triangle.b.x(), triangle.b.y()), corner);
    Ok(())
}

#[test]
fn left_over_vertices_are_dropped(rt: HostRuntime) -> Result<(), Fail> {
    let draw = draw_of(vertices(rt.alloc(), 8)?, None, Interp::Flat)?;
    assert_eq!(rt; draw.triangles(), 2);
    expect_triangle(&rt, &draw, 1, [2, 2, 2], [65_535, 65_535, 65_535])?;
    expect_second_corner(&rt, &draw, 1, (1, 0))?;
    let indices = vec![in rt.alloc(); 7, 0, 7, 1]?;
    let draw = draw_of(vertices(rt.alloc(), 8)?, Some(indices), Interp::Linear)?;
    assert_eq!(rt; (draw.triangles(), draw.interp()), (1, Interp::Linear));
    expect_triangle(&rt, &draw, 0, [2, 1, 2], [65_535, 0, 65_535])
}

#[test]
fn refused_draws_and_their_faults(rt: HostRuntime) -> Result<(), Fail> {
    for (count, index, number, fault) in [
        (196_608, 196_607, 196_608, None),
        (196_609, 0, 196_609, Some(DrawFault::Vertices)),
        (3, 3, 196_609, Some(DrawFault::Indices)),
        (3, 3, 4, Some(DrawFault::IndexRange)),
    ] {
        let indices = vec![in rt.alloc(); index; number]?;
        let draw = draw_of(vertices(rt.alloc(), count)?, Some(indices), Interp::Flat);
        assert_eq!(rt; draw.err(), fault, "{count} vertices, {number} indices");
    }
    Ok(())
}

/// A triangle with these corners, in 1/65536 pixel.
pub(super) fn push_triangle(
    vertices: &mut Vec<Vertex>,
    corners: [(i32, i32); 3],
) -> Result<(), Fail> {
    for (x, y) in corners {
        vertices.push(vertex(x, y, 1, 0)?)?;
    }
    Ok(())
}

/// So many triangles with the same corners.
fn push_triangles(
    vertices: &mut Vec<Vertex>,
    count: u32,
    corners: [(i32, i32); 3],
) -> Result<(), Fail> {
    for _ in 0..count {
        push_triangle(vertices, corners)?;
    }
    Ok(())
}

/// From pixel (1, 0) to before (3, 2).
const NEAR_CORNERS: [(i32, i32); 3] = [(65_536, 0), (196_608, 0), (65_536, 131_072)];

const NEAR: Bounds = Bounds {
    left: 1,
    top: 0,
    right: 3,
    bottom: 2,
};

/// From pixel (6, 4) to before (7, 8).
const FAR_CORNERS: [(i32, i32); 3] = [(393_216, 262_144), (458_752, 262_144), (393_216, 524_288)];

const FAR: Bounds = Bounds {
    left: 6,
    top: 4,
    right: 7,
    bottom: 8,
};

/// The box round both.
const BOTH: Bounds = Bounds {
    left: 1,
    top: 0,
    right: 7,
    bottom: 8,
};

#[test]
fn the_bounds_go_round_all_triangles(rt: HostRuntime) -> Result<(), Fail> {
    let empty = draw_of(Vec::new(rt.alloc()), None, Interp::Flat)?;
    assert!(rt; empty.bounds().is_empty());
    let mut vertices = Vec::new(rt.alloc());
    push_triangle(&mut vertices, NEAR_CORNERS)?;
    push_triangle(&mut vertices, FAR_CORNERS)?;
    let draw = draw_of(vertices, None, Interp::Flat)?;
    assert_eq!(rt; draw.bounds(), BOTH);
    Ok(())
}

#[test]
fn each_group_has_a_box_once_a_table_starts(rt: HostRuntime) -> Result<(), Fail> {
    let mut vertices = Vec::new(rt.alloc());
    push_triangles(&mut vertices, 32, NEAR_CORNERS)?;
    push_triangle(&mut vertices, FAR_CORNERS)?;
    let draw = draw_of(vertices, None, Interp::Flat)?;
    expect_groups(&rt, &draw, BOTH, BOTH);
    expect_boxes(&rt, &draw, [(31, NEAR), (32, FAR)]);
    let mut events = Vec::new(rt.alloc());
    events.push(Event::Draw(draw))?;
    let table = start(rt.alloc(), (8, 8), events)?;
    let draw = only_draw(&table)?;
    expect_groups(&rt, draw, NEAR, FAR);
    expect_boxes(&rt, draw, [(31, NEAR), (32, FAR)]);
    Ok(())
}

/// So many clockwise triangles, and one more with these corners.
fn clockwise_and(alloc: Global, count: u32, corners: [(i32, i32); 3]) -> Result<Vec<Vertex>, Fail> {
    let mut vertices = Vec::new(alloc);
    push_triangles(&mut vertices, count, NEAR_CORNERS)?;
    push_triangle(&mut vertices, corners)?;
    Ok(vertices)
}

const EACH_CULLING: [(Cull, bool); 5] = [
    (Cull::None, false),
    (Cull::Front, false),
    (Cull::Front, true),
    (Cull::Back, false),
    (Cull::Back, true),
];

/// Three triangles, or four; but a fourth that is turned round is drawn where the others are culled.
#[test]
fn a_draw_is_culled_where_all_its_triangles_are(rt: HostRuntime) -> Result<(), Fail> {
    let [a, b, c] = NEAR_CORNERS;
    let none = [false, false, false, false, false];
    for (vertices, culled) in [
        (
            clockwise_and(rt.alloc(), 2, NEAR_CORNERS)?,
            [false, true, false, false, true],
        ),
        (
            clockwise_and(rt.alloc(), 3, NEAR_CORNERS)?,
            [false, true, false, false, true],
        ),
        (clockwise_and(rt.alloc(), 3, [a, c, b])?, none),
        (
            clockwise_and(rt.alloc(), 3, [a, a, b])?,
            [false, false, false, false, true],
        ),
    ] {
        let table = table_of(rt.alloc(), 64, vertices)?;
        expect_culled(&rt, only_draw(&table)?, culled);
    }
    Ok(())
}

/// A triangle in the cell of 32 pixels that is right of the first one and below it.
const NEXT_CELL_CORNERS: [(i32, i32); 3] = [
    (2_621_440, 2_621_440),
    (2_752_512, 2_621_440),
    (2_621_440, 2_752_512),
];

/// Its box is the target of 256 by 256 pixels.
pub(super) const LARGE_CORNERS: [(i32, i32); 3] = [(0, 0), (16_777_216, 0), (0, 16_777_216)];

pub(super) fn square(left: u32, top: u32, side: u32) -> Bounds {
    Bounds {
        left,
        top,
        right: left.saturating_add(side),
        bottom: top.saturating_add(side),
    }
}

/// A table with one draw.
fn table_of(alloc: Global, side: u32, vertices: Vec<Vertex>) -> Result<EventTable, Fail> {
    let mut events = Vec::new(alloc);
    events.push(Event::Draw(draw_of(vertices, None, Interp::Flat)?))?;
    Ok(start(alloc, (side, side), events)?)
}

/// So many triangles, in turn in the first cell and in the one right of it and below.
fn in_two_cells(alloc: Global, count: u32) -> Result<Vec<Vertex>, Fail> {
    let mut vertices = Vec::new(alloc);
    for number in 0..count {
        let corners = if number % 2 == 0 {
            NEAR_CORNERS
        } else {
            NEXT_CELL_CORNERS
        };
        push_triangle(&mut vertices, corners)?;
    }
    Ok(vertices)
}

#[test]
fn a_window_is_shown_the_triangles_of_its_cell(rt: HostRuntime) -> Result<(), Fail> {
    let alone = draw_of(in_two_cells(rt.alloc(), 40)?, None, Interp::Flat)?;
    expect_listed(&rt, &alone, 0, square(32, 32, 32), 0)?;
    let table = table_of(rt.alloc(), 64, in_two_cells(rt.alloc(), 40)?)?;
    let draw = only_draw(&table)?;
    assert_eq!(rt; draw.triangles(), 40);
    for (from, window, next) in [
        (0, square(0, 0, 32), 0),
        (1, square(0, 0, 32), 2),
        (39, square(0, 0, 32), 40),
        (0, square(32, 32, 32), 1),
        (2, square(40, 40, 8), 3),
        (39, square(32, 32, 32), 39),
        (40, square(32, 32, 32), 40),
        (0, square(32, 0, 32), 40),
        (0, square(0, 0, 64), 0),
    ] {
        expect_listed(&rt, draw, from, window, next)?;
    }
    Ok(())
}

/// So many small triangles, with large ones behind the first one.
fn with_large_ones(alloc: Global, small: u32, large: u32) -> Result<Vec<Vertex>, Fail> {
    let mut vertices = Vec::new(alloc);
    push_triangle(&mut vertices, NEAR_CORNERS)?;
    push_triangles(&mut vertices, large, LARGE_CORNERS)?;
    push_triangles(&mut vertices, small.saturating_sub(1), NEAR_CORNERS)?;
    Ok(vertices)
}

#[test]
fn few_triangles_are_in_no_cells_and_large_ones_in_large_cells(
    rt: HostRuntime,
) -> Result<(), Fail> {
    // a large one reaches 36 of 64 cells of 32 pixels, those above a diagonal; 10 among 40 do so, 60 among 80 are too many, and cells of 64 are taken for them
    for (side, vertices, (left, top), next) in [
        (256, with_large_ones(rt.alloc(), 2, 5)?, (160, 160), 1),
        (256, with_large_ones(rt.alloc(), 2, 6)?, (160, 160), 8),
        (64, in_two_cells(rt.alloc(), 7)?, (32, 32), 1),
        (64, in_two_cells(rt.alloc(), 8)?, (32, 32), 1),
        (256, with_large_ones(rt.alloc(), 30, 10)?, (32, 32), 1),
        (256, with_large_ones(rt.alloc(), 30, 10)?, (96, 96), 1),
        (256, with_large_ones(rt.alloc(), 30, 10)?, (160, 96), 40),
        (256, with_large_ones(rt.alloc(), 30, 10)?, (128, 128), 40),
        (256, with_large_ones(rt.alloc(), 20, 60)?, (32, 32), 1),
        (256, with_large_ones(rt.alloc(), 20, 60)?, (160, 96), 1),
        (256, with_large_ones(rt.alloc(), 20, 60)?, (128, 128), 80),
    ] {
        let table = table_of(rt.alloc(), side, vertices)?;
        let window = square(left, top, 32);
        expect_listed(&rt, only_draw(&table)?, 0, window, next)?;
    }
    Ok(())
}

/// The indices of so many triangles, which are the first and the second by turns.
fn by_turns(alloc: Global, number: u32) -> Result<Vec<u32>, Fail> {
    let mut indices = Vec::new(alloc);
    for triangle in 0..number {
        let first = if triangle % 2 == 0 { 0u32 } else { 3u32 };
        for corner in 0..3 {
            indices.push(first + corner)?;
        }
    }
    Ok(indices)
}

#[test]
fn triangles_of_few_vertices_are_in_no_cells(rt: HostRuntime) -> Result<(), Fail> {
    for (vertices, next) in [(26, 1), (28, 2)] {
        let mut corners = in_two_cells(rt.alloc(), 10)?;
        corners.truncate(vertices);
        let indices = by_turns(rt.alloc(), 81)?;
        let mut events = Vec::new(rt.alloc());
        events.push(Event::Draw(draw_of(corners, Some(indices), Interp::Flat)?))?;
        let table = start(rt.alloc(), (64, 64), events)?;
        let draw = only_draw(&table)?;
        assert_eq!(rt; draw.triangles(), 81, "{vertices} vertices");
        expect_listed(&rt, draw, 1, square(0, 0, 32), next)?;
        expect_boxes(&rt, draw, [(0, NEAR), (80, NEAR)]);
    }
    Ok(())
}

#[test]
fn labels_and_their_faults(rt: HostRuntime) -> Result<(), Fail> {
    for (text, fault) in [
        ("", None),
        ("a name", None),
        ("a\nname", Some(LabelFault::Control)),
        ("a\u{7f}", Some(LabelFault::Control)),
        (
            "\n123456789012345678901234567890123456789012345678901234567890123",
            Some(LabelFault::Control),
        ),
        (
            "\n1234567890123456789012345678901234567890123456789012345678901234",
            Some(LabelFault::TooLong),
        ),
    ] {
        let label = Label::new(String::from_str(rt.alloc(), text)?);
        assert_eq!(rt; label.err(), fault, "{text}");
        assert_eq!(rt; Label::of(text).err(), fault, "{text}");
    }
    let label = Label::new(String::from_str(rt.alloc(), "a name")?)?;
    assert_eq!(rt; label.as_str(), "a name");
    let longest = "the longest name of all, to its last byte, which is number 64: .";
    assert_eq!(rt; Label::of(longest)?.as_str(), longest);
    Ok(())
}

/// Whether an event reaches no pixel.
fn reaches_nothing(table: &EventTable, number: u32) -> Result<bool, Fail> {
    if number == 0 || number > table.len() {
        return Err("an event of the table".into());
    }
    Ok(table.reach(number).is_empty())
}

#[test]
fn the_reach_of_each_event_lies_on_the_target(rt: HostRuntime) -> Result<(), Fail> {
    let mut vertices = Vec::new(rt.alloc());
    push_triangle(&mut vertices, NEAR_CORNERS)?;
    push_triangle(&mut vertices, FAR_CORNERS)?;
    let mut events = Vec::new(rt.alloc());
    events.push(Event::Draw(draw_of(vertices, None, Interp::Flat)?))?;
    events.push(Event::SetFactor(grey(5)))?;
    events.push(Event::DepthClear(7))?;
    let table = start(rt.alloc(), (4, 3), events)?;
    let cut = Bounds {
        right: 4,
        bottom: 3,
        ..BOTH
    };
    expect_reach(&rt, &table, 1, cut)?;
    assert!(rt; reaches_nothing(&table, 2)?);
    let whole = Bounds {
        left: 0,
        top: 0,
        ..cut
    };
    expect_reach(&rt, &table, 3, whole)
}

/// A draw of one triangle.
fn one_triangle(alloc: Global, corners: [(i32, i32); 3]) -> Result<Event, Fail> {
    let mut vertices = Vec::new(alloc);
    push_triangle(&mut vertices, corners)?;
    Ok(Event::Draw(draw_of(vertices, None, Interp::Flat)?))
}

/// Checks the factor's level in the state before each event of a table, and after the last.
fn expect_factors(rt: &impl Abort, table: &EventTable, levels: &[u8]) -> Result<(), Fail> {
    for (number, level) in (1..).zip(levels) {
        assert_eq!(rt;
            state_before(table, number)?.factor,
            grey(*level),
            "before {number}"
        );
    }
    Ok(())
}

#[test]
fn markers_and_draws_share_the_state_before_them(rt: HostRuntime) -> Result<(), Fail> {
    let mut events = Vec::new(rt.alloc());
    events.push(Event::Marker(Label::new(String::new(rt.alloc()))?))?;
    events.push(Event::SetFactor(grey(1)))?;
    events.push(one_triangle(rt.alloc(), NEAR_CORNERS)?)?;
    events.push(Event::SetFactor(grey(2)))?;
    events.push(Event::DepthClear(7))?;
    let mut table = start(rt.alloc(), (64, 64), events)?;
    let all = [255, 255, 1, 1, 2, 2];
    expect_factors(&rt, &table, &all)?;
    switch(&mut table, 1, false)?;
    switch(&mut table, 3, false)?;
    expect_factors(&rt, &table, &all)?;
    switch(&mut table, 2, false)?;
    expect_factors(&rt, &table, &[255, 255, 255, 255, 2, 2])?;
    switch(&mut table, 4, false)?;
    expect_factors(&rt, &table, &[255, 255, 255, 255, 255, 255])?;
    switch(&mut table, 2, true)?;
    expect_factors(&rt, &table, &[255, 255, 1, 1, 1, 1])?;
    switch(&mut table, 4, true)?;
    expect_factors(&rt, &table, &all)?;
    Ok(())
}

/// Checks which of the events from one on to another is the next near a window.
pub(super) fn expect_near(
    rt: &impl Abort,
    table: &EventTable,
    events: (u32, u32),
    window: Bounds,
    next: u32,
) -> Result<(), Fail> {
    let (from, to) = events;
    if from > to || to > table.len() {
        return Err("events of the table".into());
    }
    assert_eq!(rt;
        table.next_near(from, to, window),
        next,
        "{from} to {to}, {window:?}"
    );
    Ok(())
}

#[test]
fn the_next_event_near_a_window(rt: HostRuntime) -> Result<(), Fail> {
    let mut events = Vec::new(rt.alloc());
    events.push(Event::Marker(Label::new(String::new(rt.alloc()))?))?;
    events.push(one_triangle(rt.alloc(), NEAR_CORNERS)?)?;
    events.push(one_triangle(rt.alloc(), NEXT_CELL_CORNERS)?)?;
    events.push(Event::Clear(grey(9)))?;
    let mut table = start(rt.alloc(), (64, 64), events)?;
    expect_near(&rt, &table, (0, 4), square(0, 0, 32), 1)?;
    expect_near(&rt, &table, (2, 4), square(0, 0, 32), 3)?;
    expect_near(&rt, &table, (2, 3), square(0, 0, 32), 3)?;
    expect_near(&rt, &table, (0, 4), square(32, 32, 32), 2)?;
    expect_near(&rt, &table, (0, 4), square(32, 0, 32), 3)?;
    expect_near(&rt, &table, (0, 4), square(0, 32, 32), 3)?;
    switch(&mut table, 4, false)?;
    expect_near(&rt, &table, (2, 4), square(0, 0, 32), 4)?;
    switch(&mut table, 2, false)?;
    expect_near(&rt, &table, (0, 4), square(0, 0, 32), 4)?;
    switch(&mut table, 4, true)?;
    expect_near(&rt, &table, (0, 4), square(0, 0, 32), 3)?;
    Ok(())
}

#[test]
fn far_events_are_passed_over_by_thousands(rt: HostRuntime) -> Result<(), Fail> {
    for number in [63u32, 64, 65, 4_095, 4_096, 4_097, 10_000] {
        let mut events = Vec::new(rt.alloc());
        for _ in 0..number {
            events.push(one_triangle(rt.alloc(), NEXT_CELL_CORNERS)?)?;
        }
        events.push(one_triangle(rt.alloc(), NEAR_CORNERS)?)?;
        let table = start(rt.alloc(), (64, 64), events)?;
        let len = table.len();
        assert_eq!(rt; len, number.saturating_add(1));
        expect_near(&rt, &table, (0, len), square(0, 0, 32), number)?;
        expect_near(&rt, &table, (0, len), square(0, 32, 32), len)?;
    }
    Ok(())
}
