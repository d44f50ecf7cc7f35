//! A frame that is work for many workers. Each pixel's colour follows from its column by a count.
ghost use Rattle.std.specs.Prelude.{◌≤◌};

use crate::Session;
use crate::tests::frames::{back, blend, draw, go, go_gated, grey, session, step, switch};
use fd_blend::Factor;
use fd_cover::Interp;
use fd_crew::Free;
use fd_events::Event;
use std::alloc::Global;
use std::process::Abort;
use std::test::Fail;

/// All from the left border up to a column, as two triangles.
fn left_of(alloc: Global, column: i16) -> Result<Event, Fail> {
    let one = [grey(1); 3];
    let upper = ([(0, 0), (column, 0), (0, 256)], one);
    let lower = ([(column, 0), (column, 256), (0, 256)], one);
    draw(alloc, Interp::Flat, &[upper, lower])
}

/// On a target of 256 by 256 pixels, which are 64 tiles: a clear of grey 100, additive blending, and 16 draws.
/// The first draw adds 1 to the first 16 columns, and each further one to 16 more.
pub(crate) fn stair(alloc: Global, workers: u32) -> Result<Session, Fail>
    requires { (1 ≤ workers) × (workers ≤ 64) }
{
    let mut events = Vec::new(alloc);
    events.push(Event::Clear(grey(100)))?;
    events.push(blend(true, Factor::One, Factor::One, 15)?)?;
    for step in 1..=16i8 {
        events.push(left_of(alloc, i16::from(step) * 16)?)?;
    }
    session(alloc, 256, 256, events, workers)
}

/// Each pixel has the cleared level and 1 more for each of the draws that reach its 16 columns. Each tile is looked at in one of its rows.
fn expect_stair(rt: &impl Abort, session: &Session, cleared: u8, draws: u8) {
    for y in [0, 37, 74, 111, 148, 185, 222, 255] {
        for step in 0..16u8 {
            let level = cleared.saturating_add(draws.saturating_sub(step));
            for x in [0, 7, 15] {
                let column = u32::from(step) * 16 + x;
                assert_eq!(rt;
                    session.pixel(column, y),
                    Ok(grey(level)),
                    "at {column} {y}"
                );
            }
        }
    }
}

#[test]
fn many_workers_draw_what_one_does(rt: HostRuntime) -> Result<(), Fail> {
    for workers in [1, 2, 64] {
        let mut session = stair(rt.alloc(), workers)?;
        step(&rt, &mut session, 1);
        expect_stair(&rt, &session, 100, 0);
        go(&rt, &mut session, 18);
        expect_stair(&rt, &session, 100, 16);
        switch(&rt, &mut session, (1, false), 18);
        expect_stair(&rt, &session, 0, 16);
        switch(&rt, &mut session, (1, true), 18);
        expect_stair(&rt, &session, 100, 16);
        back(&rt, &mut session, 17);
        expect_stair(&rt, &session, 100, 15);
        go(&rt, &mut session, 2);
        go_gated(&rt, &mut session, 18);
        expect_stair(&rt, &session, 100, 16);
    }
    Ok(())
}
