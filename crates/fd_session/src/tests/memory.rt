//! Moves that meet want of memory. All memory is taken and given back bit by bit, so that a move gets a little further each time.
use crate::tests::frames::{blend, colour, expect_pixel, flat, go, one_clear, session, switch};
use crate::{Answer, Session, SessionFault};
use fd_blend::{Colour, Factor};
use fd_crew::Free;
use fd_events::Event;
use std::alloc::{AllocError, Global};
use std::process::Abort;
use std::test::Fail;
use std::thread::Threads;

const CLEARED: Colour = Colour {
    r: 1,
    g: 2,
    b: 3,
    a: 4,
};

/// The sizes of the pieces in which memory is taken. Address space alone is used up by the larger ones.
const PIECES: [usize; 11] = [
    1 << 46,
    1 << 42,
    1 << 38,
    1 << 36,
    1 << 34,
    1 << 32,
    1 << 30,
    1 << 28,
    1 << 24,
    1 << 20,
    1 << 16,
];

/// No piece of memory is smaller.
const SMALLEST: usize = 24;

/// Memory that lies side by side, and is taken in the smallest pieces last of all. They take 32 bytes each of it, so that it makes some 2,000.
const LAST: usize = 1 << 16;

/// Takes pieces of this size until there is no more of them.
fn take_all(alloc: Global, pieces: &mut Vec<Vec<u8>>, size: usize) {
    for _ in pieces.len()..pieces.capacity() {
        let Ok(piece) = Vec::with_capacity(alloc, size) else {
            return;
        };
        if pieces.push(piece).is_err() {
            return;
        }
    }
}

/// Takes all memory, the last of it in small pieces side by side, so that what some of them give back is one piece again.
fn exhaust(alloc: Global) -> Result<Vec<Vec<u8>>, AllocError> {
    let mut pieces = Vec::with_capacity(alloc, 200_000)?;
    let last: Vec<u8> = Vec::with_capacity(alloc, LAST)?;
    for size in PIECES {
        take_all(alloc, &mut pieces, size);
    }
    take_all(alloc, &mut pieces, SMALLEST);
    drop(last);
    take_all(alloc, &mut pieces, SMALLEST);
    Ok(pieces)
}

/// What the two ends of a row of 33 pixels show.
fn expect_ends(rt: &impl Abort, session: &Session, position: u32, shown: Colour) {
    assert_eq!(rt; session.position(), position);
    for x in [0, 32] {
        expect_pixel(rt, session, (x, 0), shown);
    }
}

/// How often each way of moving is tried with so many pieces given back: more often than a step has allocations.
const TRIES: usize = 8;

/// More pieces than all allocations of a step need together, which take 12 KB, and fewer than lie side by side.
const MOST_GIVEN: usize = 800;

/// A step, or a jump over one event by all workers.
fn step_somehow<R: Threads + Sync>(rt: &R, session: &mut Session, gated: bool) -> Answer {
    if gated {
        session.goto_gated(rt, 1, &Free)
    } else {
        session.step(rt)
    }
}

/// A step is refused where the crew's fence wants memory, and stops where a tile does. Either way nothing has changed. What a tile got it keeps, so each
/// try gets a little further, though all memory is taken again before it. By the gate two workers are asked for, and the thread can't be started.
#[test]
fn a_step_with_hardly_any_memory(rt: HostRuntime) -> Result<(), Fail> {
    let fresh = colour(0, 0, 0, 0);
    for gated in [false, true] {
        let mut session = one_clear(rt.alloc(), 33, CLEARED, 2)?;
        let mut pieces = exhaust(rt.alloc())?;
        let mut refused = false;
        let mut stopped = false;
        for given in 0..MOST_GIVEN {
            for _ in 0..TRIES {
                if session.position() == 1 {
                    break;
                }
                take_all(rt.alloc(), &mut pieces, SMALLEST);
                for _ in 0..given {
                    drop(pieces.pop());
                }
                match step_somehow(&rt, &mut session, gated) {
                    Answer::Moved { at } => assert_eq!(rt; at, 1),
                    Answer::Stopped { at } => {
                        assert_eq!(rt; at, 0);
                        stopped = true;
                    }
                    Answer::Refused(fault) => {
                        assert_eq!(rt; fault, SessionFault::Memory);
                        refused = true;
                    }
                }
                let shown = if session.position() == 1 {
                    CLEARED
                } else {
                    fresh
                };
                expect_ends(&rt, &session, session.position(), shown);
            }
        }
        assert!(rt; refused && stopped && session.position() == 1);
        drop(pieces);
    }
    Ok(())
}

/// Whether there is no memory for a history.
fn has_no_history(alloc: Global, session: &Session) -> bool {
    session.history(alloc, 0, 0).is_err()
}

/// Both draws lie beside the target, so that they and the blending between them reach no tile; and blending that is set again changes nothing. No owner is
/// asked to move. A history, which asks for memory, finds none.
#[test]
fn a_switch_that_reaches_nothing_wants_no_memory(rt: HostRuntime) -> Result<(), Fail> {
    let beside = [(50, 0), (60, 0), (50, 10)];
    let mut events = Vec::new(rt.alloc());
    events.push(Event::Clear(CLEARED))?;
    events.push(blend(true, Factor::One, Factor::One, 15)?)?;
    events.push(flat(rt.alloc(), beside, CLEARED)?)?;
    events.push(blend(true, Factor::One, Factor::One, 15)?)?;
    events.push(flat(rt.alloc(), [(0, 0), (1, 0), (0, 1)], CLEARED)?)?;
    events.push(blend(false, Factor::One, Factor::Zero, 15)?)?;
    events.push(flat(rt.alloc(), beside, CLEARED)?)?;
    let mut session = session(rt.alloc(), 33, 1, events, 2)?;
    go(&rt, &mut session, 7);
    let pieces = exhaust(rt.alloc())?;
    for number in [2, 3, 6, 7] {
        switch(&rt, &mut session, (number, false), 7);
        assert_eq!(rt; session.is_on(number), Ok(false));
    }
    switch(&rt, &mut session, (2, true), 7);
    switch(&rt, &mut session, (4, false), 7);
    assert!(rt; has_no_history(rt.alloc(), &session));
    drop(pieces);
    Ok(())
}
