use crate::tests::frames::{
    back, colour, expect_pixel, expect_pixels, expect_refused, go, go_gated, grey,
    masked_and_scissored, one_clear, session, step, switch,
};
use crate::{Session, SessionFault, Shows};
use std::process::Abort;
use std::test::Fail;
use std::thread::Threads;

/// Checks that a step is refused at the end.
fn expect_end<R: Threads + Sync + Abort>(rt: &R, session: &mut Session) {
    expect_refused(rt, session.step(rt), SessionFault::AtEnd);
}

/// Checks that a step back is refused at the start.
fn expect_start(rt: &impl Abort, session: &mut Session) {
    assert_eq!(rt; session.back(), Err(SessionFault::AtStart));
}

/// Checks that there is no first event to go past, and none to switch.
fn expect_no_event<R: Threads + Sync + Abort>(rt: &R, session: &mut Session) {
    expect_refused(rt, session.goto(rt, 1), SessionFault::NoSuchPosition);
    expect_refused(rt, session.switch(rt, 1, true), SessionFault::NoSuchEvent);
}

#[test]
fn back_restores_a_fresh_target(rt: HostRuntime) -> Result<(), Fail> {
    for workers in [1, 2, 64] {
        let mut session = one_clear(rt.alloc(), 1, colour(10, 20, 30, 40), workers)?;
        step(&rt, &mut session, 1);
        expect_pixel(&rt, &session, (0, 0), colour(10, 20, 30, 40));
        expect_end(&rt, &mut session);
        back(&rt, &mut session, 0);
        expect_pixel(&rt, &session, (0, 0), grey(0));
        expect_start(&rt, &mut session);
    }
    Ok(())
}

#[test]
fn no_events_refuse_every_move(rt: HostRuntime) -> Result<(), Fail> {
    for workers in [1, 2, 64] {
        let mut session = session(rt.alloc(), 1, 1, Vec::new(rt.alloc()), workers)?;
        expect_end(&rt, &mut session);
        expect_start(&rt, &mut session);
        go(&rt, &mut session, 0);
        expect_no_event(&rt, &mut session);
        expect_pixel(&rt, &session, (0, 0), grey(0));
    }
    Ok(())
}

#[test]
fn going_back_and_forth_gives_the_same_bytes(rt: HostRuntime) -> Result<(), Fail> {
    let drawn = colour(200, 9, 202, 9);
    for workers in [1, 2, 64] {
        let mut session = masked_and_scissored(rt.alloc(), workers)?;
        go_gated(&rt, &mut session, 5);
        expect_pixels(&rt, &session, drawn, grey(9));
        go(&rt, &mut session, 0);
        expect_pixels(&rt, &session, grey(0), grey(0));
        go(&rt, &mut session, 5);
        expect_pixels(&rt, &session, drawn, grey(9));
    }
    Ok(())
}

#[test]
fn a_clear_reaches_each_tile(rt: HostRuntime) -> Result<(), Fail> {
    let cleared = colour(1, 2, 3, 4);
    for workers in [1, 2, 64] {
        let mut session = one_clear(rt.alloc(), 70, cleared, workers)?;
        go_gated(&rt, &mut session, 1);
        for x in [0, 31, 32, 63, 64, 69] {
            expect_pixel(&rt, &session, (x, 0), cleared);
        }
        switch(&rt, &mut session, (1, false), 1);
        expect_pixel(&rt, &session, (64, 0), grey(0));
        back(&rt, &mut session, 0);
        switch(&rt, &mut session, (1, true), 0);
        expect_pixel(&rt, &session, (64, 0), grey(0));
    }
    Ok(())
}

#[test]
fn rows_are_read_tile_by_tile(rt: HostRuntime) -> Result<(), Fail> {
    let cleared = colour(1, 2, 3, 4);
    let mut session = one_clear(rt.alloc(), 70, cleared, 2)?;
    step(&rt, &mut session, 1);
    assert!(rt; session.table().width() == 70 && session.table().height() == 1);
    for (x, count) in [(0, 32), (31, 1), (32, 32), (40, 24), (64, 6), (69, 1)] {
        let row = session.row_from(x, 0);
        assert_eq!(rt; row.len(), count, "from {x}");
        assert!(rt; row.iter().all(|colour| *colour == cleared), "from {x}");
    }
    Ok(())
}
