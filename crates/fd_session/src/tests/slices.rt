//! Long moves, which go slice by slice.
use crate::tests::frames::{
    Teller, drawn_clears, expect_moved, expect_pixel, expect_refused, go, grey, session,
};
use crate::{Session, SessionFault};
use std::alloc::Global;
use std::process::Abort;
use std::test::Fail;
use std::thread::Threads;

/// With one worker a slice takes 60 ms by estimate, which are 58 of these clears.
fn clears(alloc: Global, count: u8) -> Result<Session, Fail> {
    session(alloc, 512, 512, drawn_clears(alloc, count)?, 1)
}

/// Goes to a position.
fn go_telling<R: Threads + Sync + Abort>(
    rt: &R,
    session: &mut Session,
    to: u32,
    teller: &mut Teller,
) {
    expect_moved(rt, session.go(rt, to, teller), to);
}

/// Checks that there is no such position to go to.
fn refuse_to_go<R: Threads + Sync + Abort>(
    rt: &R,
    session: &mut Session,
    to: u32,
    teller: &mut Teller,
) {
    expect_refused(rt, session.go(rt, to, teller), SessionFault::NoSuchPosition);
}

#[test]
fn a_jump_is_told_slice_by_slice(rt: HostRuntime) -> Result<(), Fail> {
    let mut session = clears(rt.alloc(), 150)?;
    let mut teller = Teller::default();
    go_telling(&rt, &mut session, 300, &mut teller);
    assert_eq!(rt; (teller.times, teller.at, teller.to), (2, 232, 300));
    expect_pixel(&rt, &session, (511, 511), grey(150));
    go_telling(&rt, &mut session, 14, &mut teller);
    expect_pixel(&rt, &session, (511, 511), grey(7));
    refuse_to_go(&rt, &mut session, 301, &mut teller);
    assert_eq!(rt; teller.times, 2);
    go(&rt, &mut session, 300);
    expect_pixel(&rt, &session, (511, 511), grey(150));
    Ok(())
}
