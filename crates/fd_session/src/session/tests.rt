use crate::frame::Frame;
use crate::session::Session;
use crate::tests::frames::{
    back, colour, expect_pixel, flat, go, grey, one_clear, raster, session, step, switch,
};
use fd_cover::Cull;
use fd_events::Event;
use fd_owner::Owner;
use fd_tile::Grid;
use std::alloc::Global;
use std::process::Abort;
use std::test::Fail;

/// There is no field but these: no whole copy of an image.
#[test]
fn an_owner_has_no_further_field(rt: HostRuntime) -> Result<(), Fail> {
    let session = one_clear(rt.alloc(), 33, colour(1, 2, 3, 4), 2)?;
    let Session { frame, position } = &session;
    let Frame {
        table,
        grid,
        owners,
        workers,
        alloc,
    } = frame;
    let grid: &Grid = grid;
    let owners: &Vec<Owner> = owners;
    let _alloc: &Global = alloc;
    assert_eq!(rt; table.len(), 1);
    assert_eq!(rt; grid.count(), 2);
    assert_eq!(rt; owners.len(), 2);
    assert_eq!(rt; *position, 0);
    assert_eq!(rt; *workers, 2);
    Ok(())
}

/// Three tiles beside each other. Draws of 8 by 8 pixels on the first, on the third and on the first, and a clear.
fn three_tiles(alloc: Global) -> Result<Session, Fail> {
    let mut events = Vec::new(alloc);
    events.push(flat(alloc, [(0, 0), (8, 0), (0, 8)], grey(1))?)?;
    events.push(flat(alloc, [(64, 0), (72, 0), (64, 8)], grey(2))?)?;
    events.push(flat(alloc, [(0, 0), (8, 0), (0, 8)], grey(3))?)?;
    events.push(Event::Clear(grey(4)))?;
    session(alloc, 96, 32, events, 2)
}

/// Checks at which positions the three owners stand.
fn expect_owners(rt: &impl Abort, session: &Session, positions: [u32; 3]) {
    assert_eq!(rt; session.frame.owners.len(), 3);
    for (owner, position) in session.frame.owners.iter().zip(positions) {
        assert_eq!(rt; owner.position(), position);
    }
}

#[test]
fn a_step_back_takes_the_owners_of_tiles_that_it_reaches(rt: HostRuntime) -> Result<(), Fail> {
    let mut session = three_tiles(rt.alloc())?;
    go(&rt, &mut session, 3);
    expect_owners(&rt, &session, [3, 3, 3]);
    expect_pixel(&rt, &session, (1, 1), grey(3));
    for (at, positions) in [(2, [2, 3, 3]), (1, [2, 3, 1]), (0, [0, 3, 1])] {
        back(&rt, &mut session, at);
        expect_owners(&rt, &session, positions);
    }
    expect_pixel(&rt, &session, (1, 1), grey(0));
    expect_pixel(&rt, &session, (65, 1), grey(0));
    Ok(())
}

/// The last two events reach no tile: nobody is taken forward over them.
#[test]
fn a_step_over_what_reaches_no_tile_takes_nobody(rt: HostRuntime) -> Result<(), Fail> {
    let alloc = rt.alloc();
    let mut events = Vec::new(alloc);
    events.push(Event::Clear(grey(4)))?;
    events.push(raster(Cull::None, false))?;
    events.push(flat(alloc, [(96, 0), (99, 0), (96, 3)], grey(9))?)?;
    let mut session = session(alloc, 96, 32, events, 2)?;
    for (at, positions) in [(1, [1, 1, 1]), (2, [1, 1, 1]), (3, [1, 1, 1])] {
        step(&rt, &mut session, at);
        expect_owners(&rt, &session, positions);
    }
    expect_pixel(&rt, &session, (95, 31), grey(4));
    go(&rt, &mut session, 0);
    expect_owners(&rt, &session, [0, 0, 0]);
    Ok(())
}

/// A hundred draws on the first of the tiles.
#[test]
fn a_long_jump_takes_the_owners_of_tiles_that_it_reaches(rt: HostRuntime) -> Result<(), Fail> {
    let alloc = rt.alloc();
    let mut events = Vec::new(alloc);
    for number in 1..101 {
        events.push(flat(alloc, [(0, 0), (8, 0), (0, 8)], grey(number))?)?;
    }
    let mut session = session(alloc, 96, 32, events, 2)?;
    go(&rt, &mut session, 100);
    expect_owners(&rt, &session, [100, 0, 0]);
    expect_pixel(&rt, &session, (1, 1), grey(100));
    expect_pixel(&rt, &session, (33, 1), grey(0));
    go(&rt, &mut session, 0);
    expect_owners(&rt, &session, [0, 0, 0]);
    expect_pixel(&rt, &session, (1, 1), grey(0));
    Ok(())
}

#[test]
fn a_jump_takes_owners_from_where_they_stand(rt: HostRuntime) -> Result<(), Fail> {
    let mut session = three_tiles(rt.alloc())?;
    go(&rt, &mut session, 4);
    expect_owners(&rt, &session, [4, 4, 4]);
    go(&rt, &mut session, 0);
    expect_owners(&rt, &session, [0, 3, 1]);
    go(&rt, &mut session, 2);
    expect_owners(&rt, &session, [2, 2, 2]);
    expect_pixel(&rt, &session, (65, 1), grey(2));
    expect_pixel(&rt, &session, (40, 1), grey(0));
    // the owner of the third tile goes back and forth
    switch(&rt, &mut session, (2, false), 2);
    expect_owners(&rt, &session, [2, 2, 2]);
    expect_pixel(&rt, &session, (65, 1), grey(0));
    Ok(())
}

/// Checks how many entries the history of a pixel of row 1 has.
fn expect_entries(
    rt: &impl Abort,
    alloc: Global,
    session: &Session,
    x: u32,
    entries: usize,
) -> Result<(), Fail> {
    let history = session.history(alloc, x, 1)?;
    assert_eq!(rt; history.len(), entries, "column {x}");
    Ok(())
}

/// The owners of its tiles stand ahead of the session or behind it.
#[test]
fn a_history_ends_where_the_session_stands(rt: HostRuntime) -> Result<(), Fail> {
    let alloc = rt.alloc();
    let mut session = three_tiles(alloc)?;
    for (at, first, third) in [
        (4, 3, 2),
        (3, 2, 1),
        (2, 1, 1),
        (1, 1, 0),
        (0, 0, 0),
        (3, 2, 1),
    ] {
        go(&rt, &mut session, at);
        for (x, entries) in [(1, first), (65, third)] {
            expect_entries(&rt, alloc, &session, x, entries)?;
        }
    }
    expect_owners(&rt, &session, [3, 3, 3]);
    Ok(())
}
