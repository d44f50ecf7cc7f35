ghost use Rattle.std.specs.Prelude.{◌≡◌, ◌<◌, ◌≤◌, length, IfOk};

use crate::estimate::Area;
use crate::tests::frames::{colour, draw, flat};
use crate::way::Way;
use crate::worth::{MOVE_WORK, STILL_WORK, Slice, next_slice};
use fd_cover::{Bounds, Depth, Func, Interp};
use fd_events::{Event, EventTable};
use std::alloc::Global;
use std::test::Fail;

/// On a target of 1024 by 512 pixels, which is 512 tiles.
fn table(alloc: Global, first: Event, second: Event) -> Result<EventTable, Fail>
    ensures { IfOk result (λ table. length table.events ≡ 2) }
{
    let mut events = Vec::new(alloc);
    events.push(first)?;
    events.push(second)?;
    Ok(EventTable::start(alloc, 3, 1024, 512, events)?)
}

/// The next slice of a session's move over so many tiles.
fn slice_of(table: &EventTable, from: u32, to: u32, tiles: usize, workers: u32) -> Slice
    requires ahead { from < to }
    requires within { to ≤ length table.now.events }
    requires some { 1 ≤ workers }
{
    let area = Area {
        tiles,
        ..Area::of(table)
    };
    let way = Way {
        area,
        ..Way::of(table, from, to)
    };
    next_slice(&way, from, workers, MOVE_WORK)
}

#[test]
fn work_decides_how_many_workers_start(rt: HostRuntime) -> Result<(), Fail> {
    let alloc = rt.alloc();
    let clear = Event::Clear(colour(1, 2, 3, 4));
    let small = flat(alloc, [(0, 0), (90, 0), (0, 90)], colour(1, 2, 3, 4))?;
    let mut table = table(alloc, small, clear)?;
    // the draw takes 36,360 ns, which is worth no worker, and the clear of what was drawn 2,097,152 ns, which is worth 16
    for (from, to, workers, worth) in [
        (1, 2, 64, 16),
        (0, 2, 64, 16),
        (1, 2, 8, 8),
        (1, 2, 1, 1),
        (0, 1, 64, 1),
    ] {
        let slice = slice_of(&table, from, to, 512, workers);
        assert_eq!(rt; slice.workers, worth, "{from} to {to}");
        assert_eq!(rt; slice.end, to, "{from} to {to}");
    }
    assert_eq!(rt; slice_of(&table, 1, 2, 3, 64).workers, 3);
    table.set_on(2, false);
    assert_eq!(rt; slice_of(&table, 0, 2, 512, 64).workers, 1);
    Ok(())
}

/// A clear of tiles that are alike takes 51,200 ns, and not 2,097,152.
#[test]
fn clears_of_what_is_alike_are_little_work(rt: HostRuntime) -> Result<(), Fail> {
    let alloc = rt.alloc();
    let first = Event::Clear(colour(1, 2, 3, 4));
    let second = Event::Clear(colour(5, 6, 7, 8));
    let table = table(alloc, first, second)?;
    assert_eq!(rt; slice_of(&table, 0, 2, 512, 64).workers, 1);
    Ok(())
}

/// On 262,144 tiles the first clear takes 26,214,400 ns and each behind it 262,144, and a slice ends at 191,072,000. Where the first was gone through before,
/// each of the others takes as much as the first.
#[test]
fn clears_that_are_kept_once_are_little_work(rt: HostRuntime) -> Result<(), Fail> {
    let alloc = rt.alloc();
    let mut events = Vec::new(alloc);
    for grey in 0..40 {
        events.push(Event::Clear(colour(grey, grey, grey, grey)))?;
    }
    let table = EventTable::start(alloc, 3, 16384, 16384, events)?;
    if table.len() < 40 {
        return Err(Fail::from("40 clears"));
    }
    assert_eq!(rt; slice_of(&table, 0, 40, 262_144, 1).end, 40);
    assert_eq!(rt; slice_of(&table, 1, 40, 262_144, 1).end, 9);
    Ok(())
}

/// Twenty triangles take 1,454,720 ns, which is worth eleven workers, but not where no depth passes the test.
#[test]
fn what_draws_nothing_is_little_work(rt: HostRuntime) -> Result<(), Fail> {
    let alloc = rt.alloc();
    let never = Event::SetDepth(Depth {
        enable: true,
        write: false,
        func: Func::Never,
    });
    let mut table = table(alloc, never, over_one_another(alloc, 20)?)?;
    assert_eq!(rt; slice_of(&table, 0, 2, 512, 64).workers, 1);
    table.set_on(1, false);
    assert_eq!(rt; slice_of(&table, 0, 2, 512, 64).workers, 11);
    Ok(())
}

/// Triangles of 128 by 128 pixels, 16 tiles' worth, over one another. Each takes 4 ns a pixel and 450 ns a tile, which is 72,736 ns.
fn over_one_another(alloc: Global, count: usize) -> Result<Event, Fail> {
    let corners = [(0, 0), (128, 0), (0, 128)];
    let triangles = vec![in alloc; (corners, [colour(1, 2, 3, 4); 3]); count]?;
    draw(alloc, Interp::Flat, &triangles)
}

#[test]
fn triangles_over_one_another_are_worth_more(rt: HostRuntime) -> Result<(), Fail> {
    let alloc = rt.alloc();
    let one = over_one_another(alloc, 1)?;
    let twenty = over_one_another(alloc, 20)?;
    let table = table(alloc, one, twenty)?;
    assert_eq!(rt; slice_of(&table, 0, 1, 512, 64).workers, 1);
    assert_eq!(rt; slice_of(&table, 0, 2, 512, 64).workers, 11);
    Ok(())
}

/// Twenty groups of them are more than 15 tiles, so each group is taken for its box once and a look of 60 ns at each triangle a tile: 96,256 ns.
#[test]
fn many_triangles_are_looked_at_in_groups(rt: HostRuntime) -> Result<(), Fail> {
    let alloc = rt.alloc();
    let one = over_one_another(alloc, 1)?;
    let many = over_one_another(alloc, 640)?;
    let table = table(alloc, one, many)?;
    assert_eq!(rt; slice_of(&table, 1, 2, 15, 64).workers, 14);
    assert_eq!(rt; slice_of(&table, 1, 2, 20, 64).workers, 20);
    Ok(())
}

/// Triangles of 8 by 8 pixels in two corners of the target, by turns.
fn far_apart(alloc: Global, count: usize) -> Result<Event, Fail> {
    let mut triangles = Vec::new(alloc);
    for number in 0..count {
        let (x, y) = if number % 2 == 0 { (0, 0) } else { (1016, 504) };
        let corners = [(x, y), (x + 8, y), (x, y + 8)];
        triangles.push((corners, [colour(1, 2, 3, 4); 3]))?;
    }
    draw(alloc, Interp::Flat, &triangles)
}

#[test]
fn what_lies_between_triangles_is_no_work(rt: HostRuntime) -> Result<(), Fail> {
    let alloc = rt.alloc();
    let table = table(alloc, far_apart(alloc, 64)?, far_apart(alloc, 64)?)?;
    assert_eq!(rt; slice_of(&table, 0, 2, 512, 64).workers, 1);
    Ok(())
}

/// A thousand triangles take 72,736,720 ns: more than a slice takes on few tiles, and less than it takes to fetch 400,000 tiles.
#[test]
fn a_slice_does_more_than_fetch_its_tiles(rt: HostRuntime) -> Result<(), Fail> {
    let alloc = rt.alloc();
    let first = over_one_another(alloc, 1000)?;
    let second = over_one_another(alloc, 1000)?;
    let table = table(alloc, first, second)?;
    assert_eq!(rt; slice_of(&table, 0, 2, 512, 1).end, 1);
    assert_eq!(rt; slice_of(&table, 0, 2, 400_000, 1).end, 2);
    Ok(())
}

/// On 2048 by 2048 pixels a clear of what was drawn on takes 16,777,216 ns, and a slice of a still ends at 12,048,000 by one worker and at 24,048,000 by
/// four. It begins a slice where it is half of one and doesn't end in the slice of what was before, and isn't counted there. On 2048 by 1024 it takes
/// 8,388,608 of 11,024,000, and on 2048 by 4096 by four workers 33,554,432 of 26,096,000. The draw, of 36,360 ns, is worth no further worker.
#[test]
fn a_large_event_begins_a_slice(rt: HostRuntime) -> Result<(), Fail> {
    let alloc = rt.alloc();
    for (height, from, workers, end, worth) in [
        (2048, 0, 1, 1, 1),
        (2048, 1, 1, 2, 1),
        (2048, 0, 4, 3, 4),
        (1024, 0, 1, 3, 1),
        (1024, 2, 1, 4, 1),
        (4096, 0, 4, 1, 1),
        (4096, 1, 4, 2, 4),
    ] {
        let mut events = Vec::new(alloc);
        for grey in 1..3 {
            events.push(flat(alloc, [(0, 0), (90, 0), (0, 90)], colour(1, 2, 3, 4))?)?;
            events.push(Event::Clear(colour(grey, grey, grey, grey)))?;
        }
        let table = EventTable::start(alloc, 3, 2048, height, events)?;
        if table.len() < 4 {
            return Err(Fail::from("two draws and two clears"));
        }
        let slice = next_slice(&Way::of(&table, from, 4), from, workers, STILL_WORK);
        assert_eq!(rt; slice.end, end, "{height}: from {from} by {workers}");
        assert_eq!(rt; slice.workers, worth, "{height}: from {from} by {workers}");
    }
    Ok(())
}

/// An event that is switched off takes nothing, on however many tiles.
#[test]
fn what_reaches_no_tile_is_no_work(rt: HostRuntime) -> Result<(), Fail> {
    let alloc = rt.alloc();
    let mut table = table(alloc, far_apart(alloc, 2)?, far_apart(alloc, 2)?)?;
    table.set_on(1, false);
    let slice = slice_of(&table, 0, 2, 134_000_000, 1);
    assert_eq!(rt; slice.end, 2);
    Ok(())
}

/// The clear is the same on all 16 rows of tiles. The triangles lie in the box of the upper four, where each row takes 292,384 ns; there all four workers begin,
/// each with a row, and the last one has the rows below as well.
#[test]
fn workers_begin_where_the_work_is(rt: HostRuntime) -> Result<(), Fail> {
    let alloc = rt.alloc();
    let clear = Event::Clear(colour(1, 2, 3, 4));
    let corners = [(0, 0), (1024, 0), (0, 128)];
    let upper = draw(
        alloc,
        Interp::Flat,
        &[(corners, [colour(1, 2, 3, 4); 3]); 2],
    )?;
    let table = table(alloc, upper, clear)?;
    let slice = next_slice(&Way::of(&table, 1, 2), 1, 4, MOVE_WORK);
    assert!(rt; slice.firsts.as_slice() == [0, 128, 256, 384].as_slice());
    let slice = next_slice(&Way::of(&table, 0, 1), 0, 4, MOVE_WORK);
    assert!(rt; slice.firsts.as_slice() == [0, 32, 64, 96].as_slice());
    Ok(())
}

/// In a box of four rows of 16 tiles the clear behind the draw takes 65,536 ns a row, which is worth two workers: they begin in its first and its third row, at its left edge.
#[test]
fn workers_begin_inside_the_box(rt: HostRuntime) -> Result<(), Fail> {
    let alloc = rt.alloc();
    let clear = Event::Clear(colour(1, 2, 3, 4));
    let table = table(alloc, far_apart(alloc, 2)?, clear)?;
    let bounds = Bounds {
        left: 256,
        top: 128,
        right: 768,
        bottom: 256,
    };
    let way = Way {
        area: Area::round(&table, bounds),
        ..Way::of(&table, 1, 2)
    };
    let slice = next_slice(&way, 1, 4, MOVE_WORK);
    assert!(rt; slice.firsts.as_slice() == [136, 200].as_slice());
    Ok(())
}
