use crate::Session;
use crate::tests::frames::{colour, expect_moved, expect_pixel, one_clear};
use fd_crew::Gate;
use std::process::Abort;
use std::sync::atomic::{AtomicU64, Ordering};
use std::test::Fail;
use std::thread;
use std::thread::Threads;

/// How long a lane waits for the other.
const TURNS: u32 = 10_000_000;

/// Two lanes, each of which waits for the other.
#[derive(Drop)]
struct Meeting {
    first: AtomicU64,
    second: AtomicU64,
    gave_up: AtomicU64,
}

impl Gate for Meeting {
    fn pass(&self, lane: usize, _event: u32) {
        let (own, other) = if lane == 0 {
            (&self.first, &self.second)
        } else {
            (&self.second, &self.first)
        };
        own.store(1, Ordering::SeqCst);
        for _ in 0..TURNS {
            if other.load(Ordering::SeqCst) == 1 {
                return;
            }
            thread::yield_now();
        }
        self.gave_up.fetch_add(1, Ordering::SeqCst);
    }
}

/// Steps over the clear through the gate.
fn meet<R: Threads + Sync + Abort>(rt: &R, session: &mut Session, gate: &Meeting) {
    expect_moved(rt, session.goto_gated(rt, 1, gate), 1);
}

#[test]
fn every_worker_is_in_a_lane_at_once(rt: HostRuntime) -> Result<(), Fail> {
    let mut session = one_clear(rt.alloc(), 33, colour(1, 2, 3, 4), 2)?;
    let gate = Meeting {
        first: AtomicU64::new(0),
        second: AtomicU64::new(0),
        gave_up: AtomicU64::new(0),
    };
    meet(&rt, &mut session, &gate);
    assert_eq!(rt; gate.gave_up.load(Ordering::SeqCst), 0);
    for flag in [&gate.first, &gate.second] {
        assert_eq!(rt; flag.load(Ordering::SeqCst), 1);
    }
    for x in [0, 32] {
        expect_pixel(&rt, &session, (x, 0), colour(1, 2, 3, 4));
    }
    Ok(())
}
