use crate::tests::captures::{
    BLENDED, DEPTH_TEST, FRESH, MASKED, PICTURE, THREE_VERDICTS, TWO_TILES, colour, session,
};
use fd_blend::Colour;
use fd_capture::read;
use fd_crew::Free;
use fd_events::EventTable;
use fd_session::{Answer, Session, SessionFault};
use std::alloc::Global;
use std::process::Abort;
use std::test::Fail;
use std::thread::Threads;

// What these calls promise is proved of them. What a test expects is seen at run time alone, so that no proof carries along all that they promise.

fn step_of<R: Threads + Sync>(rt: &R, session: &mut Session) -> Answer {
    session.step(rt)
}

fn go<R: Threads + Sync>(rt: &R, session: &mut Session, to: u32) -> Answer {
    session.goto(rt, to)
}

fn go_gated<R: Threads + Sync>(rt: &R, session: &mut Session, to: u32) -> Answer {
    session.goto_gated(rt, to, &Free)
}

fn back(session: &mut Session) -> Result<u32, SessionFault> {
    session.back()
}

fn switch_to<R: Threads + Sync>(rt: &R, session: &mut Session, number: u32, on: bool) -> Answer {
    session.switch(rt, number, on)
}

/// How many entries the history of pixel (0, 0) has.
fn entries(alloc: Global, session: &Session) -> Result<usize, SessionFault> {
    Ok(session.history(alloc, 0, 0)?.len())
}

/// What each pixel of a row of 33 shows.
fn expect_row(rt: &impl Abort, session: &Session, position: u32, shown: Colour) {
    assert_eq!(rt; session.position(), position);
    for x in 0..33u32 {
        assert_eq!(rt; session.pixel(x, 0), Ok(shown), "at {x}");
    }
}

/// A step, or a jump by all workers. After a refusal nothing has changed, and the next step succeeds.
fn expect_cleared(rt: &impl Abort, session: &Session, answer: Answer) {
    match answer {
        Answer::Moved { at } => {
            assert_eq!(rt; at, 1);
            expect_row(rt, session, 1, colour(1, 2, 3, 4));
        }
        Answer::Stopped { at } => {
            assert_eq!(rt; at, 0);
            expect_row(rt, session, 0, FRESH);
        }
        Answer::Refused(fault) => {
            assert_eq!(rt; fault, SessionFault::Memory);
            expect_row(rt, session, 0, FRESH);
        }
    }
}

#[test]
fn step(rt: HostRuntime) -> Result<(), Fail> {
    let mut session = session(rt.alloc(), TWO_TILES, 2)?;
    println!(rt; "ready")?;
    let answer = step_of(&rt, &mut session);
    println!(rt; "told {answer:?}")?;
    expect_cleared(&rt, &session, answer);
    if session.position() == 0 {
        assert_eq!(rt; step_of(&rt, &mut session), Answer::Moved { at: 1 });
    }
    expect_row(&rt, &session, 1, colour(1, 2, 3, 4));
    Ok(())
}

#[test]
fn goto_gated(rt: HostRuntime) -> Result<(), Fail> {
    let mut session = session(rt.alloc(), TWO_TILES, 2)?;
    println!(rt; "ready")?;
    let answer = go_gated(&rt, &mut session, 1);
    println!(rt; "told {answer:?}")?;
    expect_cleared(&rt, &session, answer);
    if session.position() == 0 {
        assert_eq!(rt; go_gated(&rt, &mut session, 1), Answer::Moved { at: 1 });
    }
    expect_row(&rt, &session, 1, colour(1, 2, 3, 4));
    Ok(())
}

/// What two by two pixels show at a position of the capture with a mask.
fn expect_masked(rt: &impl Abort, session: &Session) {
    let position = session.position();
    let nine = colour(9, 9, 9, 9);
    let shown = if position < 4 { FRESH } else { nine };
    for (x, y) in [(1, 0), (0, 1), (1, 1)] {
        assert_eq!(rt; session.pixel(x, y), Ok(shown), "at {x} {y}");
    }
    let first = if position == 5 {
        colour(200, 9, 202, 9)
    } else {
        shown
    };
    assert_eq!(rt; session.pixel(0, 0), Ok(first));
}

#[test]
fn goto(rt: HostRuntime) -> Result<(), Fail> {
    let mut session = session(rt.alloc(), MASKED, 3)?;
    println!(rt; "ready")?;
    let answer = go(&rt, &mut session, 5);
    println!(rt; "told {answer:?}")?;
    match answer {
        Answer::Moved { at } => assert_eq!(rt; at, 5),
        Answer::Stopped { at } => assert!(rt; at < 5 && at == session.position()),
        Answer::Refused(fault) => {
            assert_eq!(rt; fault, SessionFault::Memory);
            assert_eq!(rt; session.position(), 0);
        }
    }
    expect_masked(&rt, &session);
    assert_eq!(rt; go(&rt, &mut session, 5), Answer::Moved { at: 5 });
    expect_masked(&rt, &session);
    Ok(())
}

/// What the pixel of the capture with depth shows at each position.
fn expect_depth(rt: &impl Abort, session: &Session) {
    let (colour, depth) = match session.position() {
        0 | 1 => (FRESH, 65535),
        2 | 3 => (colour(1, 1, 1, 1), 1000),
        4 => (colour(1, 1, 1, 1), 65535),
        _ => (colour(2, 2, 2, 2), 2000),
    };
    assert_eq!(rt; session.pixel(0, 0), Ok(colour));
    assert_eq!(rt; session.depth(0, 0), Ok(depth));
}

#[test]
fn goto_with_depth(rt: HostRuntime) -> Result<(), Fail> {
    let mut session = session(rt.alloc(), DEPTH_TEST, 2)?;
    println!(rt; "ready")?;
    let answer = go(&rt, &mut session, 5);
    println!(rt; "told {answer:?}")?;
    expect_depth(&rt, &session);
    assert_eq!(rt; go(&rt, &mut session, 5), Answer::Moved { at: 5 });
    expect_depth(&rt, &session);
    for _ in 0..5 {
        assert!(rt; back(&mut session).is_ok());
        expect_depth(&rt, &session);
    }
    Ok(())
}

/// What the capture with a picture shows at each position: through a hole one sees what is behind.
fn expect_picture(rt: &impl Abort, session: &Session) {
    let fresh = (FRESH, 65535);
    let near = (colour(9, 9, 9, 9), 1000);
    let texel = (colour(255, 0, 10, 51), 2000);
    let behind = (colour(3, 3, 3, 3), 3000);
    let [left, upper, lower] = match session.position() {
        0 | 1 => [fresh, fresh, fresh],
        2 => [near, fresh, fresh],
        3 => [near, texel, fresh],
        _ => [near, texel, behind],
    };
    for (x, y, shown) in [(0, 0, left), (1, 0, upper), (0, 1, left), (1, 1, lower)] {
        assert_eq!(rt; session.pixel(x, y), Ok(shown.0), "at {x} {y}");
        assert_eq!(rt; session.depth(x, y), Ok(shown.1), "at {x} {y}");
    }
}

#[test]
fn goto_with_a_picture(rt: HostRuntime) -> Result<(), Fail> {
    let mut session = session(rt.alloc(), PICTURE, 2)?;
    println!(rt; "ready")?;
    let answer = go(&rt, &mut session, 4);
    println!(rt; "told {answer:?}")?;
    expect_picture(&rt, &session);
    assert_eq!(rt; go(&rt, &mut session, 4), Answer::Moved { at: 4 });
    expect_picture(&rt, &session);
    for _ in 0..4 {
        assert!(rt; back(&mut session).is_ok());
        expect_picture(&rt, &session);
    }
    Ok(())
}

#[test]
fn switch(rt: HostRuntime) -> Result<(), Fail> {
    let mut session = session(rt.alloc(), BLENDED, 2)?;
    if go(&rt, &mut session, 2) != (Answer::Moved { at: 2 }) {
        return Err(Fail::from("memory"));
    }
    println!(rt; "ready")?;
    let answer = switch_to(&rt, &mut session, 1, false);
    println!(rt; "told {answer:?}")?;
    match answer {
        Answer::Moved { at } => assert_eq!(rt; at, 2),
        Answer::Stopped { at } => assert!(rt; at < 2 && at == session.position()),
        Answer::Refused(_) => assert!(rt; false),
    }
    assert_eq!(rt; session.is_on(1), Ok(false));
    let again = switch_to(&rt, &mut session, 1, false);
    assert_eq!(rt; again, Answer::Refused(SessionFault::AlreadySo));
    assert_eq!(rt; go(&rt, &mut session, 2), Answer::Moved { at: 2 });
    assert_eq!(rt; session.pixel(0, 0), Ok(colour(200, 100, 50, 128)));
    Ok(())
}

#[test]
fn history(rt: HostRuntime) -> Result<(), Fail> {
    let mut session = session(rt.alloc(), THREE_VERDICTS, 1)?;
    if go(&rt, &mut session, 5) != (Answer::Moved { at: 5 }) {
        return Err(Fail::from("memory"));
    }
    println!(rt; "ready")?;
    match entries(rt.alloc(), &session) {
        Ok(count) => {
            println!(rt; "told Ok")?;
            assert_eq!(rt; count, 3);
        }
        Err(fault) => {
            println!(rt; "told {fault:?}")?;
            assert_eq!(rt; fault, SessionFault::Memory);
            assert_eq!(rt; entries(rt.alloc(), &session), Ok(3));
        }
    }
    assert_eq!(rt; session.position(), 5);
    assert_eq!(rt; session.pixel(0, 0), Ok(colour(3, 4, 5, 6)));
    Ok(())
}

/// What is to be known of the table of three verdicts.
fn expect_table(rt: &impl Abort, table: &EventTable) {
    assert!(rt; table.len() == 5 && table.width() == 1 && table.height() == 1);
    if table.len() == 5 {
        assert!(rt; table.is_on(1) && !table.is_on(3) && table.is_on(5));
    }
}

/// What a session of these verdicts shows at its end, with the event of the second one off and then on.
fn expect_verdicts<R: Threads + Sync + Abort>(rt: &R, alloc: Global, session: &mut Session) {
    assert_eq!(rt; session.table().version(), 1);
    for number in 1..6u32 {
        assert_eq!(rt; session.is_on(number), Ok(number != 3));
    }
    assert_eq!(rt; go(rt, session, 5), Answer::Moved { at: 5 });
    assert_eq!(rt; session.pixel(0, 0), Ok(colour(3, 4, 5, 6)));
    assert_eq!(rt; entries(alloc, session), Ok(2));
    assert_eq!(rt; switch_to(rt, session, 3, true), Answer::Moved { at: 5 });
    assert_eq!(rt; entries(alloc, session), Ok(3));
}

/// On a refusal the table is handed back as it was, its flags too.
#[test]
fn start(rt: HostRuntime) -> Result<(), Fail> {
    let mut table = read(rt.alloc(), THREE_VERDICTS.as_bytes())?;
    if table.len() < 3 {
        return Err(Fail::from("five events"));
    }
    table.set_on(3, false);
    println!(rt; "ready")?;
    match Session::start(rt.alloc(), table, 2) {
        Ok(session) => {
            println!(rt; "told Ok")?;
            expect_table(&rt, session.table());
        }
        Err((handed_back, _)) => {
            println!(rt; "told Memory")?;
            expect_table(&rt, &handed_back);
            let Ok(mut again) = Session::start(rt.alloc(), handed_back, 2) else {
                return Err(Fail::from("no memory"));
            };
            expect_verdicts(&rt, rt.alloc(), &mut again);
        }
    }
    Ok(())
}
