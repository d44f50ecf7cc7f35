//! What a session tells of one pixel, event by event.
use crate::Session;
use crate::tests::depths::tested;
use crate::tests::frames::{
    CLOCKWISE, added_twice, colour, culled_and_scissored, draw, go, grey, session, step, switch,
};
use fd_blend::Colour;
use fd_cover::{Interp, Verdict};
use fd_events::Event;
use fd_history::Entry;
use std::alloc::Global;
use std::process::Abort;
use std::test::Fail;

/// What a triangle did whose source has the depth 0, to a pixel whose depth stays that of a fresh target.
fn entry(event: u32, verdict: Verdict, source: Colour, before: Colour, after: Colour) -> Entry {
    Entry {
        event,
        triangle: Some(0),
        verdict,
        source,
        before,
        after,
        source_depth: 0,
        depth_before: 65535,
        depth_after: 65535,
    }
}

/// Checks the history of pixel (0, 0).
fn expect_history(
    rt: &impl Abort,
    alloc: Global,
    session: &Session,
    expected: &[Entry],
) -> Result<(), Fail> {
    let entries = session.history(alloc, 0, 0)?;
    assert_eq!(rt; entries.as_slice(), expected);
    Ok(())
}

#[test]
fn history_names_culled_and_scissored(rt: HostRuntime) -> Result<(), Fail> {
    let fresh = grey(0);
    let last = colour(3, 4, 5, 6);
    let expected = [
        entry(1, Verdict::Culled, grey(1), fresh, fresh),
        entry(3, Verdict::Scissored, grey(2), fresh, fresh),
        entry(5, Verdict::Drawn, last, fresh, last),
    ];
    let events = culled_and_scissored(rt.alloc(), last)?;
    let mut session = session(rt.alloc(), 1, 1, events, 2)?;
    go(&rt, &mut session, 5);
    expect_history(&rt, rt.alloc(), &session, &expected)?;
    switch(&rt, &mut session, (5, false), 5);
    expect_history(&rt, rt.alloc(), &session, &expected[..2])
}

/// Of two triangles of grey 10, added to a fresh pixel, and of a clear of grey 7.
fn added_and_cleared() -> [Entry; 3] {
    let first = entry(2, Verdict::Drawn, grey(10), grey(0), grey(10));
    let second = Entry {
        triangle: Some(1),
        ..entry(2, Verdict::Drawn, grey(10), grey(10), grey(20))
    };
    let clear = Entry {
        triangle: None,
        ..entry(3, Verdict::Drawn, grey(7), grey(20), grey(7))
    };
    [first, second, clear]
}

#[test]
fn history_of_two_triangles_of_one_draw(rt: HostRuntime) -> Result<(), Fail> {
    let mut events = added_twice(rt.alloc())?;
    events.push(Event::Clear(grey(7)))?;
    let mut session = session(rt.alloc(), 1, 1, events, 2)?;
    let expected = added_and_cleared();
    for (at, count) in [(0, 0), (1, 0), (2, 2), (3, 3)] {
        go(&rt, &mut session, at);
        expect_history(
            &rt,
            rt.alloc(),
            &session,
            expected.get(..count).ok_or("entries")?,
        )?;
    }
    Ok(())
}

/// A triangle on a target of 8 by 8 pixels, whose last corner is red and the others black.
fn reddening(alloc: Global) -> Result<Session, Fail> {
    let black = colour(0, 0, 0, 255);
    let red = colour(255, 0, 0, 255);
    let mut events = Vec::new(alloc);
    events.push(draw(alloc, Interp::Linear, &[(CLOCKWISE, [black, black, red])])?)?;
    session(alloc, 8, 8, events, 2)
}

/// Checks that nothing was done to pixel (7, 7).
fn expect_none(rt: &impl Abort, alloc: Global, session: &Session) -> Result<(), Fail> {
    let entries = session.history(alloc, 7, 7)?;
    assert_eq!(rt; entries.len(), 0);
    Ok(())
}

/// A pixel halfway down the triangle, and one that the draw's box does not hold.
#[test]
fn history_of_a_linear_draw(rt: HostRuntime) -> Result<(), Fail> {
    let shown = colour(64, 0, 0, 255);
    let expected = [entry(1, Verdict::Drawn, shown, grey(0), shown)];
    let mut session = reddening(rt.alloc())?;
    step(&rt, &mut session, 1);
    expect_history(&rt, rt.alloc(), &session, &expected)?;
    expect_none(&rt, rt.alloc(), &session)
}

/// A triangle that is drawn, one that lies behind it, a clear of the depths, and the one behind again.
fn depths_in_turn() -> [Entry; 4] {
    let nearer = Entry {
        source_depth: 1000,
        depth_after: 1000,
        ..entry(2, Verdict::Drawn, grey(1), grey(0), grey(1))
    };
    let hidden = Entry {
        source_depth: 2000,
        depth_before: 1000,
        depth_after: 1000,
        ..entry(3, Verdict::DepthFailed, grey(2), grey(1), grey(1))
    };
    let cleared = Entry {
        triangle: None,
        source_depth: 65535,
        depth_before: 1000,
        ..entry(4, Verdict::Drawn, grey(0), grey(1), grey(1))
    };
    let farther = Entry {
        source_depth: 2000,
        depth_after: 2000,
        ..entry(5, Verdict::Drawn, grey(2), grey(1), grey(2))
    };
    [nearer, hidden, cleared, farther]
}

#[test]
fn history_shows_depths(rt: HostRuntime) -> Result<(), Fail> {
    let mut session = tested(rt.alloc(), 2)?;
    go(&rt, &mut session, 5);
    expect_history(&rt, rt.alloc(), &session, &depths_in_turn())
}
