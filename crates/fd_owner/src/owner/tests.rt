ghost use Rattle.std.specs.Prelude.{◌≡◌, false, IfOk};
ghost use Rattle.fd_events.specs.Table.{is_of_depth};
ghost use Rattle.fd_tile.specs.Place.{IsTilePlace};

use super::*;
use fd_blend::{BlendOp, BlendState, Factor, Mask, Part};
use fd_cover::{Depth, Func, Interp};
use fd_events::{Draw, Event, Vertex};
use fd_snap::Pos;
use fd_tile::Grid;
use std::process::Abort;
use std::test::Fail;

fn colour(r: u8, g: u8, b: u8, a: u8) -> Colour {
    Colour { r, g, b, a }
}

/// A triangle by its corners in pixels, its colour and its depth.
type Triangle = ([(i8, i8); 3], Colour, u16);

/// The upper left half of the square from (0, 0) to (2, 2).
const UPPER_LEFT: [(i8, i8); 3] = [(0, 0), (2, 0), (0, 2)];

/// Its lower right half.
const LOWER_RIGHT: [(i8, i8); 3] = [(2, 0), (2, 2), (0, 2)];

/// A draw of triangles, each of one colour.
fn flat(alloc: Global, triangles: &[Triangle]) -> Result<Event, Fail>
    ensures { IfOk result (λ event. is_of_depth event ≡ false) }
{
    let mut vertices = Vec::new(alloc);
    for (corners, colour, z) in triangles {
        for (x, y) in corners {
            let pos = Pos::new(i32::from(*x) * 65536, i32::from(*y) * 65536).ok_or("a position")?;
            let (colour, z) = (*colour, *z);
            vertices.push(Vertex { pos, colour, z })?;
        }
    }
    Ok(Event::Draw(Draw::new(vertices, None, Interp::Flat)?))
}

/// Sources are added to what is there, in all channels.
fn additive() -> Result<Event, Fail>
    ensures { IfOk result (λ event. is_of_depth event ≡ false) }
{
    let part = Part {
        src: Factor::One,
        dst: Factor::One,
        op: BlendOp::Add,
    };
    let mask = Mask::from_bits(15).ok_or("a mask")?;
    Ok(Event::SetBlend(BlendState::new(true, part, part, mask)?))
}

// All that a call promises is carried along to the end of a test. What follows promises nothing, so that no proof of a test carries it.

/// The table of some events.
fn start(
    alloc: Global,
    (width, height): (u32, u32),
    events: Vec<Event>,
) -> Result<EventTable, Fail> {
    Ok(EventTable::start(alloc, 3, width, height, events)?)
}

/// The table of one event.
fn table(alloc: Global, size: (u32, u32), event: Event) -> Result<EventTable, Fail> {
    let mut events = Vec::new(alloc);
    events.push(event)?;
    start(alloc, size, events)
}

/// Switches the first event of a table off.
fn switch_off(table: &mut EventTable) -> Result<(), Fail> {
    if table.len() == 0 {
        return Err(Fail::from("no event"));
    }
    table.set_on(1, false);
    Ok(())
}

/// A tile of one pixel with this colour and depth.
fn one_pixel(alloc: Global, colour: Colour, depth: u16) -> Result<Tile, Fail> {
    let place = Place {
        left: 0,
        top: 0,
        width: 1,
        height: 1,
    };
    let mut tile = Tile::fresh(alloc, place)?;
    if !tile.place().holds(0, 0) {
        return Err(Fail::from("no pixel"));
    }
    tile.set(0, 0, colour);
    tile.set_depth(0, 0, depth);
    Ok(tile)
}

/// The owner of a tile of one pixel with this colour and depth.
fn of_one_pixel(alloc: Global, (colour, depth): (Colour, u16)) -> Result<Owner, Fail> {
    Ok(Owner::of(alloc, one_pixel(alloc, colour, depth)?))
}

/// Two by two pixels.
const FOUR: Place = Place {
    left: 0,
    top: 0,
    width: 2,
    height: 2,
};

/// The owner of a fresh tile.
fn of_fresh_tile(alloc: Global, place: Place) -> Result<Owner, Fail>
    requires { IsTilePlace place }
{
    Ok(Owner::of(alloc, Tile::fresh(alloc, place)?))
}

/// The owner of a tile that isn't made.
fn of_blank_tile(alloc: Global, place: Place) -> Owner
    requires { IsTilePlace place }
{
    Owner::of(alloc, Tile::blank(alloc, place))
}

/// Its last pixel.
const ONE: Place = Place {
    left: 1,
    top: 1,
    width: 1,
    height: 1,
};

/// Goes through the next event, where there is one.
fn forward(owner: &mut Owner, table: &EventTable) -> Result<(), Fail> {
    let place = owner.place();
    let inside = place.left + place.width <= table.width()
        && place.top + place.height <= table.height();
    if owner.position() >= table.len() || !inside {
        return Err(Fail::from("no next event"));
    }
    owner.forward(table)?;
    Ok(())
}

/// Goes back over the last event, where there is one.
fn back(owner: &mut Owner) -> Result<(), Fail> {
    if owner.position() == 0 {
        return Err(Fail::from("no last event"));
    }
    owner.back();
    Ok(())
}

/// The position, how many pixels are kept up to it, and the colour and the depth of the tile's first pixel.
type Shown = (u32, u64, (Colour, u16));

fn shown(owner: &Owner) -> Shown {
    let place = owner.place();
    let colour = owner.pixel(place.left, place.top);
    let depth = owner.depth(place.left, place.top);
    (owner.position(), owner.recorded(), (colour, depth))
}

/// What a fresh tile of a target shows past the table's first event, and what it shows when it went back.
fn there_and_back(alloc: Global, table: &EventTable, tile: usize) -> Result<[Shown; 2], Fail> {
    let grid = Grid::new(table.width(), table.height()).ok_or("a grid")?;
    if tile >= grid.count() {
        return Err(Fail::from("no such tile"));
    }
    let mut owner = of_fresh_tile(alloc, grid.place(tile))?;
    forward(&mut owner, table)?;
    let there = shown(&owner);
    back(&mut owner)?;
    Ok([there, shown(&owner)])
}

/// The colours and depths that event number 2 kept of pixel (0, 0): the first three of them.
fn kept_by_the_second(owner: &Owner) -> Result<[Option<(Colour, u16)>; 3], Fail> {
    if owner.position() < 2 {
        return Err(Fail::from("no second event"));
    }
    Ok([
        owner.kept(2, 0, 0, 0),
        owner.kept(2, 0, 0, 1),
        owner.kept(2, 0, 0, 2),
    ])
}

#[test]
fn the_bounds_are_those_of_the_tile(rt: HostRuntime) -> Result<(), Fail> {
    let alloc = rt.alloc();
    let owner = of_one_pixel(alloc, (colour(1, 2, 3, 4), 5))?;
    let pixel = Bounds {
        left: 0,
        top: 0,
        right: 1,
        bottom: 1,
    };
    assert_eq!(rt; owner.bounds(), pixel);
    Ok(())
}

/// Two equal triangles in one draw, each of which adds ten: in a table of version 1.
fn added_twice(alloc: Global, depth: u16) -> Result<EventTable, Fail> {
    let triangle = (UPPER_LEFT, colour(10, 10, 10, 10), depth);
    let mut events = Vec::new(alloc);
    events.push(additive()?)?;
    events.push(flat(alloc, &[triangle, triangle])?)?;
    Ok(EventTable::start(alloc, 1, 1, 1, events)?)
}

/// A tile of any colour and depth.
#[test]
fn back_returns_to_the_image_before_the_draw(rt: HostRuntime) -> Result<(), Fail> {
    let alloc = rt.alloc();
    let before = (colour(5, 6, 7, 8), 500);
    let table = added_twice(alloc, 400)?;
    let mut owner = of_one_pixel(alloc, before)?;
    forward(&mut owner, &table)?;
    forward(&mut owner, &table)?;
    assert_eq!(rt; shown(&owner), (2, 2, (colour(25, 26, 27, 28), 500)));
    let kept = [Some(before), Some((colour(15, 16, 17, 18), 500)), None];
    assert_eq!(rt; kept_by_the_second(&owner)?, kept);
    back(&mut owner)?;
    assert_eq!(rt; shown(&owner), (1, 0, before));
    back(&mut owner)?;
    assert_eq!(rt; shown(&owner), (0, 0, before));
    assert_eq!(rt; (owner.refusals(), owner.refused_at()), (0, None));
    Ok(())
}

#[test]
fn a_frame_is_put_back(rt: HostRuntime) -> Result<(), Fail> {
    let alloc = rt.alloc();
    let red = colour(255, 0, 0, 255);
    let green = colour(0, 255, 0, 255);
    let fresh = (0, 0, (colour(0, 0, 0, 0), 65535));
    let shows_red = |count: u64| (1, count, (red, 65535));
    let across = table(alloc, (33, 1), Event::Clear(red))?;
    assert_eq!(rt; there_and_back(alloc, &across, 0)?, [shows_red(32), fresh]);
    assert_eq!(rt; there_and_back(alloc, &across, 1)?, [shows_red(1), fresh]);
    let halves = flat(alloc, &[(UPPER_LEFT, red, 0), (LOWER_RIGHT, green, 0)])?;
    let square = table(alloc, (2, 2), halves)?;
    assert_eq!(rt; there_and_back(alloc, &square, 0)?, [shows_red(4), fresh]);
    let deep = table(alloc, (33, 1), Event::DepthClear(7))?;
    let cleared = (1, 32, (colour(0, 0, 0, 0), 7));
    assert_eq!(rt; there_and_back(alloc, &deep, 0)?, [cleared, fresh]);
    Ok(())
}

/// A clear, a draw over half of it, and a clear of depths.
fn cleared_and_drawn(alloc: Global) -> Result<EventTable, Fail> {
    let half = (UPPER_LEFT, colour(0, 255, 0, 255), 0);
    let mut events = Vec::new(alloc);
    events.push(Event::Clear(colour(255, 0, 0, 255)))?;
    events.push(flat(alloc, &[half])?)?;
    events.push(Event::DepthClear(7))?;
    start(alloc, (2, 2), events)
}

/// A tile that is made when the second event draws on it.
#[test]
fn a_tile_is_made_when_it_is_drawn_on(rt: HostRuntime) -> Result<(), Fail> {
    let alloc = rt.alloc();
    let table = cleared_and_drawn(alloc)?;
    let mut owner = of_blank_tile(alloc, FOUR);
    let fresh = (colour(0, 0, 0, 0), 65535);
    let red = (colour(255, 0, 0, 255), 65535);
    let green = (colour(0, 255, 0, 255), 65535);
    forward(&mut owner, &table)?;
    assert!(rt; !owner.tile.is_made());
    assert_eq!(rt; shown(&owner), (1, 4, red));
    forward(&mut owner, &table)?;
    assert!(rt; owner.tile.is_made());
    assert_eq!(rt; shown(&owner), (2, 5, green));
    forward(&mut owner, &table)?;
    assert_eq!(rt; shown(&owner), (3, 9, (green.0, 7)));
    back(&mut owner)?;
    back(&mut owner)?;
    assert_eq!(rt; shown(&owner), (1, 4, red));
    back(&mut owner)?;
    assert_eq!(rt; shown(&owner), (0, 0, fresh));
    Ok(())
}

/// A draw with the depth test off, a clear of depths to the greatest and one to another depth, each time a draw behind them.
fn depths_cleared(alloc: Global) -> Result<EventTable, Fail> {
    let half = (UPPER_LEFT, colour(0, 255, 0, 255), 0);
    let mut events = Vec::new(alloc);
    events.push(flat(alloc, &[half])?)?;
    for depth in [65535, 7] {
        events.push(Event::DepthClear(depth))?;
        events.push(flat(alloc, &[half])?)?;
    }
    start(alloc, (2, 2), events)
}

/// Depths take memory with the first of them that isn't the greatest.
#[test]
fn a_tile_is_made_deep_by_another_depth(rt: HostRuntime) -> Result<(), Fail> {
    let alloc = rt.alloc();
    let table = depths_cleared(alloc)?;
    let mut owner = of_blank_tile(alloc, FOUR);
    let green = colour(0, 255, 0, 255);
    let passed = [
        (0, (colour(0, 0, 0, 0), 65535)),
        (1, (green, 65535)),
        (5, (green, 65535)),
        (6, (green, 65535)),
        (10, (green, 7)),
        (11, (green, 7)),
    ];
    for (position, (recorded, pixel)) in passed.iter().enumerate() {
        assert_eq!(rt; shown(&owner), (position as u32, *recorded, *pixel));
        assert_eq!(rt; owner.tile.is_deep(), position > 3);
        if position < 5 {
            forward(&mut owner, &table)?;
        }
    }
    for (position, (recorded, pixel)) in passed.iter().enumerate().rev() {
        assert_eq!(rt; shown(&owner), (position as u32, *recorded, *pixel));
        if position > 0 {
            back(&mut owner)?;
        }
    }
    assert!(rt; !owner.tile.is_deep());
    Ok(())
}

/// Clears of which the first is switched off, with a state between two of them, and a draw before the last.
fn clears_and_a_draw(alloc: Global) -> Result<EventTable, Fail> {
    let half = (UPPER_LEFT, colour(0, 255, 0, 255), 0);
    let mut events = Vec::new(alloc);
    events.push(Event::Clear(colour(1, 1, 1, 1)))?;
    events.push(Event::Clear(colour(2, 2, 2, 2)))?;
    events.push(Event::SetFactor(colour(9, 9, 9, 9)))?;
    events.push(Event::DepthClear(7))?;
    events.push(Event::Clear(colour(3, 3, 3, 3)))?;
    events.push(flat(alloc, &[half])?)?;
    events.push(Event::Clear(colour(4, 4, 4, 4)))?;
    let mut table = start(alloc, (2, 2), events)?;
    switch_off(&mut table)?;
    Ok(table)
}

/// Goes at once through the clears that are next, and says up to which position they are, and how many the tile keeps by itself.
fn clear(
    owner: &mut Owner,
    found: &mut FoundClears<'_>,
    table: &EventTable,
) -> Result<(u32, u32), Fail>
    requires { found.old ≡ table.now }
    ensures { found.new ≡ found.old }
{
    let place = owner.place();
    let inside = place.left + place.width <= table.width()
        && place.top + place.height <= table.height();
    if owner.position() > table.len() || !inside {
        return Err(Fail::from("no next event"));
    }
    let clears = owner.next_clears(found, table.len());
    owner.clear_to(found, clears);
    Ok((clears.to, clears.count))
}

/// A tile that is alike goes through clears at once, and back over one by one.
#[test]
fn clears_are_gone_through_at_once(rt: HostRuntime) -> Result<(), Fail> {
    let alloc = rt.alloc();
    let table = clears_and_a_draw(alloc)?;
    let mut found = FoundClears::none(alloc, &table);
    let mut owner = of_blank_tile(alloc, FOUR);
    assert_eq!(rt; clear(&mut owner, &mut found, &table)?, (0, 0));
    forward(&mut owner, &table)?;
    assert_eq!(rt; clear(&mut owner, &mut found, &table)?, (5, 0));
    assert!(rt; !owner.tile.is_made());
    assert_eq!(rt; shown(&owner), (5, 12, (colour(3, 3, 3, 3), 7)));
    forward(&mut owner, &table)?;
    assert_eq!(rt; clear(&mut owner, &mut found, &table)?, (6, 0));
    back(&mut owner)?;
    back(&mut owner)?;
    assert_eq!(rt; shown(&owner), (4, 8, (colour(2, 2, 2, 2), 7)));
    back(&mut owner)?;
    assert_eq!(rt; shown(&owner), (3, 4, (colour(2, 2, 2, 2), 65535)));
    back_to_start(&mut owner);
    assert_eq!(rt; shown(&owner), (0, 0, (colour(0, 0, 0, 0), 65535)));
    Ok(())
}

/// What a tile keeps already stands below what it keeps of more clears.
#[test]
fn clears_follow_a_clear(rt: HostRuntime) -> Result<(), Fail> {
    let alloc = rt.alloc();
    let table = clears_and_a_draw(alloc)?;
    let mut found = FoundClears::none(alloc, &table);
    let mut owner = of_blank_tile(alloc, FOUR);
    forward(&mut owner, &table)?;
    forward(&mut owner, &table)?;
    assert_eq!(rt; clear(&mut owner, &mut found, &table)?, (2, 0));
    forward(&mut owner, &table)?;
    assert_eq!(rt; clear(&mut owner, &mut found, &table)?, (5, 2));
    assert_eq!(rt; shown(&owner), (5, 12, (colour(3, 3, 3, 3), 7)));
    back(&mut owner)?;
    back(&mut owner)?;
    assert_eq!(rt; shown(&owner), (3, 4, (colour(2, 2, 2, 2), 65535)));
    Ok(())
}

/// Has an owner go through the first clears, and back over the last: so many pixels are kept at positions 5 and 4.
fn clear_and_back(
    rt: &impl Abort,
    mut owner: Owner,
    kept: (u64, u64),
    found: &mut FoundClears<'_>,
    table: &EventTable,
) -> Result<(), Fail>
    requires { found.old ≡ table.now }
    ensures { found.new ≡ found.old }
{
    forward(&mut owner, table)?;
    assert_eq!(rt; clear(&mut owner, found, table)?, (5, 0));
    assert_eq!(rt; shown(&owner), (5, kept.0, (colour(3, 3, 3, 3), 7)));
    back(&mut owner)?;
    assert_eq!(rt; shown(&owner), (4, kept.1, (colour(2, 2, 2, 2), 7)));
    Ok(())
}

/// Tiles of other sizes go through the clears that one found, and one of another colour through its own.
#[test]
fn clears_are_found_once(rt: HostRuntime) -> Result<(), Fail> {
    let alloc = rt.alloc();
    let table = clears_and_a_draw(alloc)?;
    let mut found = FoundClears::none(alloc, &table);
    clear_and_back(&rt, of_blank_tile(alloc, FOUR), (12, 8), &mut found, &table)?;
    clear_and_back(&rt, of_blank_tile(alloc, ONE), (3, 2), &mut found, &table)?;
    let mut tile = Tile::blank(alloc, ONE);
    tile.fill_colours(colour(9, 9, 9, 9));
    let mut owner = Owner::of(alloc, tile);
    forward(&mut owner, &table)?;
    assert_eq!(rt; clear(&mut owner, &mut found, &table)?, (5, 0));
    for _ in 0..4 {
        back(&mut owner)?;
    }
    assert_eq!(rt; shown(&owner), (1, 0, (colour(9, 9, 9, 9), 65535)));
    Ok(())
}

/// Goes back over all events at once.
fn back_to_start(owner: &mut Owner) {
    owner.back_to(0);
}

/// At once to the start: the tile gives its memory back.
#[test]
fn the_start_of_a_fresh_tile_is_near(rt: HostRuntime) -> Result<(), Fail> {
    let alloc = rt.alloc();
    let table = cleared_and_drawn(alloc)?;
    let mut owner = of_fresh_tile(alloc, FOUR)?;
    for _ in 0..3 {
        forward(&mut owner, &table)?;
    }
    back_to_start(&mut owner);
    assert!(rt; !owner.tile.is_made());
    assert_eq!(rt; shown(&owner), (0, 0, (colour(0, 0, 0, 0), 65535)));
    forward(&mut owner, &table)?;
    forward(&mut owner, &table)?;
    assert_eq!(rt; shown(&owner), (2, 5, (colour(0, 255, 0, 255), 65535)));
    Ok(())
}

/// A nearer triangle, one that it hides, a clear of depths, and the hidden one again.
fn hidden_and_shown(alloc: Global) -> Result<EventTable, Fail> {
    let depth = Depth {
        enable: true,
        write: true,
        func: Func::Less,
    };
    let near = (UPPER_LEFT, colour(1, 1, 1, 1), 1000);
    let far = (UPPER_LEFT, colour(2, 2, 2, 2), 2000);
    let mut events = Vec::new(alloc);
    events.push(Event::SetDepth(depth))?;
    events.push(flat(alloc, &[near])?)?;
    events.push(flat(alloc, &[far])?)?;
    events.push(Event::DepthClear(65535))?;
    events.push(flat(alloc, &[far])?)?;
    start(alloc, (1, 1), events)
}

/// The colours and depths that all events kept of pixel (0, 0).
fn all_kept(alloc: Global, owner: &Owner) -> Result<Vec<(Colour, u16)>, Fail> {
    let mut kept = Vec::new(alloc);
    for event in 1..=owner.position() {
        owner.add_kept(event, (0, 0), 9, &mut kept)?;
    }
    Ok(kept)
}

#[test]
fn depths_go_back_with_colours(rt: HostRuntime) -> Result<(), Fail> {
    let alloc = rt.alloc();
    let table = hidden_and_shown(alloc)?;
    let first = (colour(9, 9, 9, 9), 3000);
    let near = (colour(1, 1, 1, 1), 1000);
    let cleared = (colour(1, 1, 1, 1), 65535);
    let far = (colour(2, 2, 2, 2), 2000);
    let passed = [(0, first), (0, first), (1, near), (1, near), (2, cleared)];
    let mut owner = of_one_pixel(alloc, first)?;
    for (position, (recorded, pixel)) in passed.iter().enumerate() {
        assert_eq!(rt; shown(&owner), (position as u32, *recorded, *pixel));
        forward(&mut owner, &table)?;
    }
    assert_eq!(rt; shown(&owner), (5, 3, far));
    assert_eq!(rt;
        all_kept(alloc, &owner)?.as_slice(),
        [first, near, cleared].as_slice()
    );
    for (position, (recorded, pixel)) in passed.iter().enumerate().rev() {
        back(&mut owner)?;
        assert_eq!(rt; shown(&owner), (position as u32, *recorded, *pixel));
    }
    Ok(())
}

/// Checks the colours of row 0.
fn expect_first_row(rt: &impl Abort, owner: &Owner, colours: &[Colour]) -> Result<(), Fail> {
    if !owner.place().holds(0, 0) {
        return Err(Fail::from("no row"));
    }
    assert_eq!(rt; owner.row_from(0, 0).as_slice(), colours);
    Ok(())
}

#[test]
fn an_event_switched_off_adds_an_image_and_keeps_nothing(rt: HostRuntime) -> Result<(), Fail> {
    let alloc = rt.alloc();
    let green = colour(0, 255, 0, 255);
    let mut table = table(alloc, (1, 1), Event::Clear(colour(255, 0, 0, 255)))?;
    switch_off(&mut table)?;
    let mut owner = of_one_pixel(alloc, (green, 6))?;
    forward(&mut owner, &table)?;
    assert_eq!(rt; shown(&owner), (1, 0, (green, 6)));
    expect_first_row(&rt, &owner, &[green])
}

/// An owner holds no whole copy of an image: there is no field but these four.
#[test]
fn an_owner_has_no_further_field(rt: HostRuntime) -> Result<(), Fail> {
    let alloc = rt.alloc();
    let owner = of_one_pixel(alloc, (colour(1, 2, 3, 4), 5))?;
    let Owner {
        tile,
        undo,
        refusals,
        refused_at,
    } = &owner;
    let tile: &Tile = tile;
    let undo: &UndoStack = undo;
    assert_eq!(rt; tile.place().width, 1);
    assert_eq!(rt; undo.frames(), 0);
    assert_eq!(rt; (*refusals, *refused_at), (0, None));
    Ok(())
}
