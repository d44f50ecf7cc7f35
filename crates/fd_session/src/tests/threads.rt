//! How many threads a move has at one time, as the system counts them.
use crate::Session;
use crate::tests::stair::stair;
use std::alloc::Alloc;
use std::rt::Files;
use std::sync::atomic::{AtomicU64, Ordering};
use std::test::Fail;
use std::thread::Threads;
use std::{fs, thread};

/// How often the threads are counted at most.
const LOOKS: u32 = 10_000_000;

/// How often a move is made at most, until as many threads were counted as are wanted.
const TRIES: u32 = 2_000;

#[derive(Clone, Copy, Debug)]
enum Move {
    Step,
    Jump,
    Switch,
}

/// The threads of this process now, or none where the system does not tell.
fn thread_count<R: Files + Alloc>(rt: &R) -> u32 {
    let Ok(status) = fs::read_to_string(rt, "/proc/self/status") else {
        return 0;
    };
    status
        .lines()
        .find_map(|line| line.strip_prefix("Threads:"))
        .and_then(|count| count.trim().parse().ok())
        .unwrap_or(0)
}

/// The most threads that were counted at one time, until the moves have ended or as many as are wanted were there.
fn most_threads<R: Files + Alloc>(rt: &R, wanted: u32, ended: &AtomicU64) -> u32 {
    let mut most = 0;
    for _ in 0..LOOKS {
        if ended.load(Ordering::SeqCst) == 1 {
            break;
        }
        most = thread_count(rt).max(most);
        if most >= wanted {
            ended.store(1, Ordering::SeqCst);
        }
    }
    most
}

fn step_and_back<R: Threads + Sync>(rt: &R, session: &mut Session) {
    session.step(rt);
    let _position = session.back();
}

fn jump_and_back<R: Threads + Sync>(rt: &R, session: &mut Session) {
    session.goto(rt, 18);
    session.goto(rt, 2);
}

fn switch_off_and_on<R: Threads + Sync>(rt: &R, session: &mut Session) {
    session.switch(rt, 1, false);
    session.switch(rt, 1, true);
}

/// Makes a move, and takes it back, until it is ended or was tried often enough.
fn try_moves<R: Threads + Sync>(rt: &R, session: &mut Session, kind: Move, ended: &AtomicU64) {
    for _ in 0..TRIES {
        if ended.load(Ordering::SeqCst) == 1 {
            return;
        }
        match kind {
            Move::Step => step_and_back(rt, session),
            Move::Jump => jump_and_back(rt, session),
            Move::Switch => switch_off_and_on(rt, session),
        }
    }
    ended.store(1, Ordering::SeqCst);
}

/// All workers but one have threads of their own, beside the one that counts. The last draw is work for two.
#[test]
fn each_move_has_the_workers_that_it_was_given(rt: HostRuntime) -> Result<(), Fail> {
    let own = thread_count(&rt);
    assert!(rt; own > 0);
    for (kind, opening, workers) in [
        (Move::Step, 17, 2),
        (Move::Jump, 2, 4),
        (Move::Switch, 18, 4),
    ] {
        let wanted = own.saturating_add(workers);
        let mut session = stair(rt.alloc(), workers)?;
        session.goto(&rt, opening);
        let ended = AtomicU64::new(0);
        let (most, ()) = thread::join(
            &rt,
            || most_threads(&rt, wanted, &ended),
            || try_moves(&rt, &mut session, kind, &ended),
        );
        assert_eq!(rt; most, wanted, "{kind:?}");
    }
    Ok(())
}
