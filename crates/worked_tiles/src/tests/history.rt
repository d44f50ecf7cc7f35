//! Worked histories of a pixel, each of an owner that went along the events of a table.
ghost use Rattle.std.specs.Prelude.{◌≡◌, ◌≤◌, length, IfOk};
ghost use Rattle.fd_owner.specs.History.{fresh_history, drawn_history};
ghost use Rattle.fd_owner.specs.Shown.{IsInside};

use fd_blend::{BlendOp, BlendState, Colour, Factor, Mask, Part};
use fd_cover::{Cull, Depth, Func, Interp, Raster, Rect, Verdict};
use fd_events::{Draw, Event, EventTable, Vertex};
use fd_history::{Entry, history};
use fd_owner::Owner;
use fd_snap::Pos;
use fd_tile::{Grid, Tile};
use std::alloc::Global;
use std::test::Fail;

const CLOCKWISE: [(i8, i8); 3] = [(0, 0), (2, 0), (0, 2)];

const COUNTER_CLOCKWISE: [(i8, i8); 3] = [(0, 0), (0, 2), (2, 0)];

fn grey(level: u8) -> Colour {
    Colour {
        r: level,
        g: level,
        b: level,
        a: level,
    }
}

/// A draw of so many triangles with the same corners in pixels, of one colour and one depth.
fn flat(
    alloc: Global,
    count: usize,
    corners: [(i8, i8); 3],
    colour: Colour,
    z: u16,
) -> Result<Event, Fail> {
    let mut vertices = Vec::new(alloc);
    for _ in 0..count {
        for (x, y) in corners {
            let pos = Pos::new(i32::from(x) * 65536, i32::from(y) * 65536).ok_or("a position")?;
            vertices.push(Vertex { pos, colour, z })?;
        }
    }
    Ok(Event::Draw(Draw::new(vertices, None, Interp::Flat)?))
}

/// An owner of the first tile of a table's target, at position 0.
fn fresh_owner(alloc: Global, table: &EventTable) -> Result<Owner, Fail>
    ensures history { IfOk result (λ owner. owner.history ≡ fresh_history owner.place) }
    ensures inside { IfOk result (λ owner. IsInside owner.place table.now) }
{
    let grid = Grid::new(table.width(), table.height()).ok_or("a grid")?;
    if grid.count() == 0 {
        return Err(Fail::from("no tile"));
    }
    Ok(Owner::of(alloc, Tile::fresh(alloc, grid.place(0))?))
}

/// An owner of the first tile that went along the table's events up to a position.
fn owner_at(alloc: Global, table: &EventTable, position: u32) -> Result<Owner, Fail>
    requires { position ≤ length table.now.events }
    ensures history { IfOk result (λ owner. owner.history ≡ drawn_history table.now owner.place position) }
    ensures inside { IfOk result (λ owner. IsInside owner.place table.now) }
{
    let mut owner = fresh_owner(alloc, table)?;
    for passed in 0..position {
        owner.forward(table)?;
    }
    Ok(owner)
}

/// The history of pixel (0, 0) at a position.
fn history_at(alloc: Global, table: &EventTable, position: u32) -> Result<Vec<Entry>, Fail> {
    if position > table.len() {
        return Err(Fail::from("no such position"));
    }
    let owner = owner_at(alloc, table, position)?;
    if !owner.place().holds(0, 0) {
        return Err(Fail::from("no such pixel"));
    }
    Ok(history(alloc, table, &owner, 0, 0)?)
}

/// What a draw's first triangle of depth 0 did to a pixel whose depth stays that of a fresh target.
fn entry(event: u32, verdict: Verdict, source: Colour, before: Colour, after: Colour) -> Entry {
    Entry {
        event,
        triangle: Some(0),
        verdict,
        source,
        before,
        after,
        source_depth: 0,
        depth_before: 65535,
        depth_after: 65535,
    }
}

#[test]
fn history_names_culled_and_scissored(rt: HostRuntime) -> Result<(), Fail> {
    let alloc = rt.alloc();
    let last = Colour {
        r: 3,
        g: 4,
        b: 5,
        a: 6,
    };
    let mut events = Vec::new(alloc);
    events.push(flat(alloc, 1, COUNTER_CLOCKWISE, grey(1), 0)?)?;
    events.push(Event::SetRaster(Raster {
        cull: Cull::Back,
        front_ccw: false,
        scissor: true,
    }))?;
    events.push(flat(alloc, 1, CLOCKWISE, grey(2), 0)?)?;
    events.push(Event::SetScissor(Rect {
        left: 0,
        top: 0,
        right: 1,
        bottom: 1,
    }))?;
    events.push(flat(alloc, 1, CLOCKWISE, last, 0)?)?;
    let mut table = EventTable::start(alloc, 3, 1, 1, events)?;
    let expected = [
        entry(1, Verdict::Culled, grey(1), grey(0), grey(0)),
        entry(3, Verdict::Scissored, grey(2), grey(0), grey(0)),
        entry(5, Verdict::Drawn, last, grey(0), last),
    ];
    let entries = history_at(alloc, &table, 5)?;
    assert_eq!(rt; entries.as_slice(), expected.as_slice());
    assert!(rt; table.len() == 5);
    table.set_on(5, false);
    let fewer = history_at(alloc, &table, 5)?;
    assert_eq!(rt; fewer.as_slice(), &expected[..2]);
    Ok(())
}

/// Sources are added to what is there, in all channels.
fn additive() -> Result<Event, Fail> {
    let part = Part {
        src: Factor::One,
        dst: Factor::One,
        op: BlendOp::Add,
    };
    let mask = Mask::from_bits(15).ok_or("a mask")?;
    Ok(Event::SetBlend(BlendState::new(true, part, part, mask)?))
}

#[test]
fn history_of_two_triangles_of_one_draw(rt: HostRuntime) -> Result<(), Fail> {
    let alloc = rt.alloc();
    let mut events = Vec::new(alloc);
    events.push(additive()?)?;
    events.push(flat(alloc, 2, CLOCKWISE, grey(10), 0)?)?;
    events.push(Event::Clear(grey(7)))?;
    let table = EventTable::start(alloc, 3, 1, 1, events)?;
    let first = entry(2, Verdict::Drawn, grey(10), grey(0), grey(10));
    let second = Entry {
        triangle: Some(1),
        ..entry(2, Verdict::Drawn, grey(10), grey(10), grey(20))
    };
    let clear = Entry {
        triangle: None,
        ..entry(3, Verdict::Drawn, grey(7), grey(20), grey(7))
    };
    let expected = [first, second, clear];
    for (position, count) in [(0, 0), (1, 0), (2, 2), (3, 3)] {
        let entries = history_at(alloc, &table, position)?;
        assert_eq!(rt;
            Some(entries.as_slice()),
            expected.get(..count),
            "at {position}"
        );
    }
    Ok(())
}

/// A triangle, one that it hides, a clear of depths, and the hidden one again.
#[test]
fn history_shows_depths(rt: HostRuntime) -> Result<(), Fail> {
    let alloc = rt.alloc();
    let mut events = Vec::new(alloc);
    events.push(Event::SetDepth(Depth {
        enable: true,
        write: true,
        func: Func::Less,
    }))?;
    events.push(flat(alloc, 1, CLOCKWISE, grey(1), 1000)?)?;
    events.push(flat(alloc, 1, CLOCKWISE, grey(2), 2000)?)?;
    events.push(Event::DepthClear(65535))?;
    events.push(flat(alloc, 1, CLOCKWISE, grey(2), 2000)?)?;
    let table = EventTable::start(alloc, 3, 1, 1, events)?;
    let nearer = Entry {
        source_depth: 1000,
        depth_after: 1000,
        ..entry(2, Verdict::Drawn, grey(1), grey(0), grey(1))
    };
    let hidden = Entry {
        source_depth: 2000,
        depth_before: 1000,
        depth_after: 1000,
        ..entry(3, Verdict::DepthFailed, grey(2), grey(1), grey(1))
    };
    let cleared = Entry {
        triangle: None,
        source_depth: 65535,
        depth_before: 1000,
        ..entry(4, Verdict::Drawn, grey(0), grey(1), grey(1))
    };
    let farther = Entry {
        source_depth: 2000,
        depth_after: 2000,
        ..entry(5, Verdict::Drawn, grey(2), grey(1), grey(2))
    };
    let entries = history_at(alloc, &table, 5)?;
    let expected = [nearer, hidden, cleared, farther];
    assert_eq!(rt; entries.as_slice(), expected.as_slice());
    Ok(())
}
