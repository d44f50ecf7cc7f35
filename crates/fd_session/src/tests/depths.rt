ghost use Rattle.std.specs.Prelude.{◌≤◌};

use crate::tests::frames::{
    CLOCKWISE, depth_test, expect_pixel, flat_at, go, grey, session, switch,
};
use crate::{Session, SessionFault};
use fd_events::Event;
use std::alloc::Global;
use std::process::Abort;
use std::test::Fail;

/// A nearer triangle and a farther one under the depth test, and the farther one again after a clear of the depths.
pub(crate) fn tested(alloc: Global, workers: u32) -> Result<Session, Fail>
    requires { (1 ≤ workers) × (workers ≤ 64) }
{
    let mut events = Vec::new(alloc);
    events.push(depth_test(true))?;
    events.push(flat_at(alloc, CLOCKWISE, grey(1), 1000)?)?;
    events.push(flat_at(alloc, CLOCKWISE, grey(2), 2000)?)?;
    events.push(Event::DepthClear(65535))?;
    events.push(flat_at(alloc, CLOCKWISE, grey(2), 2000)?)?;
    session(alloc, 1, 1, events, workers)
}

fn expect(rt: &impl Abort, session: &Session, level: u8, depth: u16) {
    expect_pixel(rt, session, (0, 0), grey(level));
    assert_eq!(rt; session.depth(0, 0), Ok(depth));
}

#[test]
fn a_nearer_triangle_wins(rt: HostRuntime) -> Result<(), Fail> {
    for workers in [1, 2, 64] {
        let mut session = tested(rt.alloc(), workers)?;
        expect(&rt, &session, 0, 65535);
        for (at, level, depth) in [(3, 1, 1000), (5, 2, 2000), (4, 1, 65535), (3, 1, 1000)] {
            go(&rt, &mut session, at);
            expect(&rt, &session, level, depth);
        }
        switch(&rt, &mut session, (2, false), 3);
        expect(&rt, &session, 2, 2000);
        assert_eq!(rt; session.depth(1, 0), Err(SessionFault::NoSuchPixel));
    }
    Ok(())
}
