//! Tests of the calls that want memory below a session and a capture. A test says `ready` once all is there that its call needs, and `told`
//! with what was answered.
ghost use Rattle.std.specs.Prelude.{◌≡◌, ◌≤◌, length, IfOk};
ghost use Rattle.fd_owner.specs.History.{position};

use fd_blend::Colour;
use fd_crew::{Free, Outcome, run_forward};
use fd_events::{Event, EventTable, Label, TableFault};
use fd_owner::{Owner, Refused};
use fd_pam::header;
use fd_tile::{Place, Tile};
use fd_undo::{AlikeFrames, UndoStack};
use std::alloc::{AllocError, Global};
use std::process::Abort;
use std::test::Fail;

const FRESH: Colour = Colour {
    r: 0,
    g: 0,
    b: 0,
    a: 0,
};

const fn colour(r: u8, g: u8, b: u8, a: u8) -> Colour {
    Colour { r, g, b, a }
}

fn one_clear(alloc: Global) -> Result<Vec<Event>, Fail> {
    let mut events = Vec::new(alloc);
    events.push(Event::Clear(colour(1, 2, 3, 4)))?;
    Ok(events)
}

/// A clear and a marker.
fn events(alloc: Global) -> Result<Vec<Event>, Fail> {
    let mut events = one_clear(alloc)?;
    events.push(Event::Marker(Label::new(String::from_str(alloc, "end")?)?))?;
    Ok(events)
}

#[test]
fn table_start(rt: HostRuntime) -> Result<(), Fail> {
    let first = events(rt.alloc())?;
    let second = events(rt.alloc())?;
    println!(rt; "ready")?;
    match EventTable::start(rt.alloc(), 3, 2, 2, first) {
        Ok(table) => {
            println!(rt; "told Ok")?;
            assert_eq!(rt; table.len(), 2);
        }
        Err(fault) => {
            println!(rt; "told {fault:?}")?;
            assert_eq!(rt; fault, TableFault::Memory);
            let again = EventTable::start(rt.alloc(), 3, 2, 2, second);
            assert!(rt; again.is_ok_and(|table| table.len() == 2));
        }
    }
    Ok(())
}

const PLACE: Place = Place {
    left: 0,
    top: 0,
    width: 32,
    height: 1,
};

#[test]
fn tile_fresh(rt: HostRuntime) -> Result<(), Fail> {
    println!(rt; "ready")?;
    match Tile::fresh(rt.alloc(), PLACE) {
        Ok(tile) => {
            println!(rt; "told Ok")?;
            assert_eq!(rt; tile.get(31, 0), FRESH);
            assert_eq!(rt; tile.depth(31, 0), 65535);
        }
        Err(AllocError) => {
            println!(rt; "told Memory")?;
            let again = Tile::fresh(rt.alloc(), PLACE);
            assert!(rt; again.is_ok_and(|tile| tile.place() == PLACE));
        }
    }
    Ok(())
}

#[test]
fn undo_reserve(rt: HostRuntime) -> Result<(), Fail> {
    let mut undo = UndoStack::new(rt.alloc());
    println!(rt; "ready")?;
    if undo.reserve(9, 40).is_ok() {
        println!(rt; "told Ok")?;
    } else {
        println!(rt; "told Full")?;
        assert!(rt; !undo.frame_left() && undo.spans_left() == 0 && undo.pixels_left() == 0);
        assert_eq!(rt; undo.frames(), 0);
        assert!(rt; undo.reserve(9, 40).is_ok());
    }
    assert!(rt; undo.frame_left() && undo.spans_left() == 9 && undo.pixels_left() == 40);
    Ok(())
}

/// The colour of the last pixel of a tile's first row.
fn last_of_row(tile: &Tile) -> Option<Colour> {
    if tile.place().holds(31, 0) {
        Some(tile.get(31, 0))
    } else {
        None
    }
}

/// A tile that is made late: nothing changes where there is no memory.
#[test]
fn tile_make(rt: HostRuntime) -> Result<(), Fail> {
    let mut tile = Tile::blank(rt.alloc(), PLACE);
    tile.fill_colours(colour(1, 2, 3, 4));
    println!(rt; "ready")?;
    if tile.make().is_ok() {
        println!(rt; "told Ok")?;
    } else {
        println!(rt; "told Memory")?;
        assert!(rt; !tile.is_made());
        assert_eq!(rt; last_of_row(&tile), Some(colour(1, 2, 3, 4)));
        assert!(rt; tile.make().is_ok());
    }
    assert!(rt; tile.is_made());
    assert_eq!(rt; last_of_row(&tile), Some(colour(1, 2, 3, 4)));
    assert_eq!(rt; tile.flat_depth(), Some(65535));
    Ok(())
}

/// A tile that gets depths late: nothing changes where there is no memory.
#[test]
fn tile_deepen(rt: HostRuntime) -> Result<(), Fail> {
    let mut tile = Tile::blank(rt.alloc(), PLACE);
    tile.make()?;
    println!(rt; "ready")?;
    if tile.deepen().is_ok() {
        println!(rt; "told Ok")?;
    } else {
        println!(rt; "told Memory")?;
        assert!(rt; !tile.is_deep());
        assert_eq!(rt; tile.depth(31, 0), 65535);
        assert!(rt; tile.deepen().is_ok());
    }
    assert!(rt; tile.is_deep());
    assert_eq!(rt; tile.flat_depth(), Some(65535));
    Ok(())
}

#[test]
fn undo_push_alike(rt: HostRuntime) -> Result<(), Fail> {
    let deep = Place {
        left: 0,
        top: 0,
        width: 1,
        height: 32,
    };
    let mut undo = UndoStack::new(rt.alloc());
    println!(rt; "ready")?;
    if undo.push_alike(deep, FRESH, 65535).is_ok() {
        println!(rt; "told Ok")?;
    } else {
        println!(rt; "told Full")?;
        assert_eq!(rt; (undo.frames(), undo.recorded()), (0, 0));
        assert!(rt; undo.push_alike(deep, FRESH, 65535).is_ok());
    }
    assert_eq!(rt; (undo.frames(), undo.recorded()), (1, 32));
    Ok(())
}

/// Frames that stacks share.
#[test]
fn undo_alike_frames(rt: HostRuntime) -> Result<(), Fail> {
    let alloc = rt.alloc();
    println!(rt; "ready")?;
    if AlikeFrames::of(alloc, Vec::new(alloc)).is_ok() {
        println!(rt; "told Ok")?;
    } else {
        println!(rt; "told Memory")?;
        assert!(rt; AlikeFrames::of(alloc, Vec::new(alloc)).is_ok());
    }
    Ok(())
}

/// One clear of a target of 33 by 1 pixels, which are two tiles.
fn two_tiles(alloc: Global) -> Result<EventTable, Fail>
    ensures { IfOk result (λ table. (table.width ≡ 33) × (table.height ≡ 1) × (length table.events ≡ 1)) }
{
    let Ok(table) = EventTable::start(alloc, 3, 33, 1, one_clear(alloc)?) else {
        return Err(Fail::from("memory"));
    };
    if table.len() != 1 || table.width() != 33 || table.height() != 1 {
        return Err(Fail::from("one event"));
    }
    Ok(table)
}

/// What an owner shows: its position, how much it keeps, and its first pixel's colour.
fn expect_owner(rt: &impl Abort, owner: &Owner, position: u32, recorded: u64, red: u8) {
    assert_eq!(rt; owner.position(), position);
    assert_eq!(rt; owner.recorded(), recorded);
    let place = owner.place();
    assert_eq!(rt; owner.pixel(place.left, place.top).r, red);
}

/// What a step over the next event of a table comes to, on a tile of its target.
fn step(owner: &mut Owner, table: &EventTable) -> Result<Result<(), Refused>, Fail> {
    let place = owner.place();
    let is_inside = place.left + place.width <= table.width()
        && place.top + place.height <= table.height();
    if owner.position() >= table.len() || !is_inside {
        return Err(Fail::from("an event of a tile"));
    }
    Ok(owner.forward(table))
}

/// Goes back over an event that the owner has gone through.
fn back(owner: &mut Owner) -> Result<(), Fail> {
    if owner.position() == 0 {
        return Err(Fail::from("one event"));
    }
    owner.back();
    Ok(())
}

/// An owner whose opening image is no fresh one.
#[test]
fn owner_forward(rt: HostRuntime) -> Result<(), Fail> {
    let table = two_tiles(rt.alloc())?;
    let mut tile = Tile::fresh(rt.alloc(), PLACE)?;
    tile.set(0, 0, colour(5, 6, 7, 8));
    let mut owner = Owner::of(rt.alloc(), tile);
    println!(rt; "ready")?;
    if step(&mut owner, &table)?.is_ok() {
        println!(rt; "told Ok")?;
        assert_eq!(rt; owner.refusals(), 0);
    } else {
        println!(rt; "told Refused")?;
        expect_owner(&rt, &owner, 0, 0, 5);
        assert_eq!(rt; owner.refusals(), 1);
        assert_eq!(rt; owner.refused_at(), Some(0));
        assert!(rt; step(&mut owner, &table)?.is_ok());
    }
    expect_owner(&rt, &owner, 1, 32, 1);
    back(&mut owner)?;
    expect_owner(&rt, &owner, 0, 0, 5);
    Ok(())
}

/// An owner whose tile isn't made, over a clear: one record of one colour.
#[test]
fn owner_forward_on_a_blank_tile(rt: HostRuntime) -> Result<(), Fail> {
    let table = two_tiles(rt.alloc())?;
    let mut owner = Owner::of(rt.alloc(), Tile::blank(rt.alloc(), PLACE));
    println!(rt; "ready")?;
    if step(&mut owner, &table)?.is_ok() {
        println!(rt; "told Ok")?;
    } else {
        println!(rt; "told Refused")?;
        expect_owner(&rt, &owner, 0, 0, 0);
        assert_eq!(rt; owner.refused_at(), Some(0));
        assert!(rt; step(&mut owner, &table)?.is_ok());
    }
    expect_owner(&rt, &owner, 1, 32, 1);
    back(&mut owner)?;
    expect_owner(&rt, &owner, 0, 0, 0);
    Ok(())
}

/// The owner of a fresh tile of one row.
fn owner(alloc: Global, left: u32, width: u32) -> Result<Owner, Fail>
    requires left { left ≤ 32 }
    requires width { (1 ≤ width) × (width ≤ 32) }
    ensures place { IfOk result (λ owner. owner.place ≡ record { left = left; top = 0; width = width; height = 1 }) }
    ensures opening { IfOk result (λ owner. position owner.history ≡ 0) }
{
    let place = Place {
        left,
        top: 0,
        width,
        height: 1,
    };
    Ok(Owner::of(alloc, Tile::fresh(alloc, place)?))
}

#[test]
fn crew_run_forward(rt: HostRuntime) -> Result<(), Fail> {
    let table = two_tiles(rt.alloc())?;
    let mut owners = [owner(rt.alloc(), 0, 32)?, owner(rt.alloc(), 32, 1)?];
    println!(rt; "ready")?;
    let first = run_forward(&rt, rt.alloc(), &mut owners, &table, 1, 2, &Free);
    match first {
        Ok(outcome) => {
            println!(rt; "told {outcome:?}")?;
            if outcome == Outcome::Reached {
                expect_owner(&rt, &owners[0], 1, 32, 1);
                expect_owner(&rt, &owners[1], 1, 1, 1);
                return Ok(());
            }
            assert_eq!(rt; outcome, Outcome::Stopped { at: 0 });
        }
        Err(AllocError) => println!(rt; "told Memory")?,
    }
    expect_owner(&rt, &owners[0], 0, 0, 0);
    expect_owner(&rt, &owners[1], 0, 0, 0);
    Ok(())
}

#[test]
fn pam_header(rt: HostRuntime) -> Result<(), Fail> {
    println!(rt; "ready")?;
    match header(rt.alloc(), 16384, 16384) {
        Ok(text) => {
            println!(rt; "told Ok")?;
            assert_eq!(rt; text.len(), 73);
        }
        Err(AllocError) => {
            println!(rt; "told Memory")?;
            let again = header(rt.alloc(), 16384, 16384);
            assert!(rt; again.is_ok_and(|text| text.len() == 73));
        }
    }
    Ok(())
}
