//! Runs of a crew over fake lanes, whose place has no pixel, and a table of markers; and one over the owners of two tiles.
ghost use Rattle.std.specs.Prelude.{◌≡◌, ◌≤◌, length, IfOk};
ghost use Rattle.fd_owner.specs.History.{position};

use fd_blend::Colour;
use fd_crew::{Advance, Free, Gate, Lane, Outcome, run_back, run_forward, run_shared};
use fd_events::{Event, EventTable, Label};
use fd_owner::{Owner, Refused};
use fd_tile::{Place, Tile};
use std::alloc::Global;
use std::process::Abort;
use std::sync::atomic::{AtomicU64, Ordering};
use std::test::Fail;
use std::thread::{self, Threads};

/// How often a gate looks at what it waits for before it gives up.
const TURNS: u32 = 10_000_000;

/// A table of so many markers.
fn markers(alloc: Global, count: u32) -> Result<EventTable, Fail>
    requires { count ≤ 9 }
    ensures { IfOk result (λ table. length table.events ≡ count) }
{
    let mut events = Vec::new(alloc);
    for _ in 0..count {
        events.push(Event::Marker(Label::new(String::new(alloc))?))?;
    }
    Ok(EventTable::start(alloc, 3, 1, 1, events)?)
}

/// A lane that refuses one event once.
#[derive(Drop)]
struct Fake<'a> {
    position: u32,
    refusals: u64,
    refused_at: Option<u32>,
    refuses: Option<u32>,
    // the flag that its gate sets, and whether the lane went on before
    flag: Option<&'a AtomicU64>,
    went_early: bool,
}

impl<'a> Fake<'a> {
    fn new(refuses: Option<u32>) -> Fake<'a>
        ensures { result.position ≡ 0 }
    {
        Fake {
            position: 0,
            refusals: 0,
            refused_at: None,
            refuses,
            flag: None,
            went_early: false,
        }
    }

    fn flagged(flag: &'a AtomicU64) -> Fake<'a>
        ensures { result.position ≡ 0 }
    {
        Fake {
            flag: Some(flag),
            ..Fake::new(None)
        }
    }
}

impl<'a> Lane for Fake<'a> {
    ghost use Rattle.fd_crew.specs.Fakes.{shown_fake};

    ghost shown = { λ l. shown_fake l.position l.refusals l.refused_at };

    ghost fits = { λ l table. Unit {0} };

    fn position(&self) -> u32 {
        self.position
    }

    fn refusals(&self) -> u64 {
        self.refusals
    }

    fn refused_at(&self) -> Option<u32> {
        self.refused_at
    }

    fn forward(&mut self, table: &EventTable) -> Result<(), Refused> {
        let _count = table.len();
        self.went_early |= self
            .flag
            .is_some_and(|flag| flag.load(Ordering::SeqCst) == 0);
        if self.refuses == Some(self.position + 1) {
            self.refuses = None;
            self.refused_at = Some(self.position);
            self.refusals = self.refusals.saturating_add(1);
            return Err(Refused);
        }
        self.position += 1;
        Ok(())
    }

    fn back(&mut self) {
        self.position -= 1;
    }
}

/// One of two lanes refuses an event, and goes on when it is asked again.
fn refuses_once<R: Threads + Sync + Abort>(
    rt: &R,
    alloc: Global,
    table: &EventTable,
) -> Result<(), Fail>
    requires { length table.now.events ≡ 9 }
{
    let mut lanes = [Fake::new(None), Fake::new(Some(3))];
    let outcome = run_forward(rt, alloc, &mut lanes, table, 9, 2, &Free)?;
    assert!(rt; outcome == Outcome::Stopped { at: 2 });
    assert!(rt; lanes[0].position == 2 && lanes[1].position == 2);
    assert!(rt; lanes[0].refusals == 0 && lanes[1].refusals == 1);
    assert!(rt; lanes[1].refused_at == Some(2));
    let outcome = run_forward(rt, alloc, &mut lanes, table, 9, 2, &Free)?;
    assert!(rt; outcome == Outcome::Reached);
    assert!(rt; lanes[0].position == 9 && lanes[1].position == 9);
    run_back(&mut lanes, 4);
    assert!(rt; lanes[0].position == 4 && lanes[1].position == 4);
    Ok(())
}

#[test]
fn a_lane_refuses_once(rt: HostRuntime) -> Result<(), Fail> {
    let table = markers(rt.alloc(), 9)?;
    refuses_once(&rt, rt.alloc(), &table)
}

/// Two of three lanes refuse, and so many workers take them.
fn two_refuse<R: Threads + Sync + Abort>(
    rt: &R,
    alloc: Global,
    table: &EventTable,
    workers: u32,
) -> Result<(), Fail>
    requires workers { (1 ≤ workers) × (workers ≤ 64) }
    requires events { length table.now.events ≡ 9 }
{
    let mut lanes = [Fake::new(Some(5)), Fake::new(None), Fake::new(Some(3))];
    let outcome = run_forward(rt, alloc, &mut lanes, table, 9, workers, &Free)?;
    assert!(rt; outcome == Outcome::Stopped { at: 2 }, "{workers} workers");
    assert!(rt; lanes[0].position == 2 && lanes[1].position == 2 && lanes[2].position == 2);
    assert!(rt; lanes[1].refusals == 0 && lanes[2].refusals == 1);
    Ok(())
}

#[test]
fn two_lanes_refuse_and_the_lower_counts(rt: HostRuntime) -> Result<(), Fail> {
    let table = markers(rt.alloc(), 9)?;
    two_refuse(&rt, rt.alloc(), &table, 1)?;
    two_refuse(&rt, rt.alloc(), &table, 2)?;
    two_refuse(&rt, rt.alloc(), &table, 3)
}

/// A lane whose count of refusals can't grow, and so many workers for it.
fn refuses_uncounted<R: Threads + Sync + Abort>(
    rt: &R,
    alloc: Global,
    table: &EventTable,
    workers: u32,
) -> Result<(), Fail>
    requires workers { (1 ≤ workers) × (workers ≤ 64) }
    requires events { length table.now.events ≡ 9 }
{
    let mut lanes = [Fake::new(Some(1))];
    lanes[0].refusals = u64::MAX;
    let outcome = run_forward(rt, alloc, &mut lanes, table, 9, workers, &Free)?;
    assert!(rt; outcome == Outcome::Stopped { at: 0 }, "{workers} workers");
    assert!(rt; lanes[0].position == 0 && lanes[0].refusals == u64::MAX);
    assert!(rt; lanes[0].refused_at == Some(0));
    Ok(())
}

#[test]
fn refusals_at_their_greatest_number(rt: HostRuntime) -> Result<(), Fail> {
    let table = markers(rt.alloc(), 9)?;
    refuses_uncounted(&rt, rt.alloc(), &table, 1)?;
    refuses_uncounted(&rt, rt.alloc(), &table, 2)?;
    refuses_uncounted(&rt, rt.alloc(), &table, 64)
}

/// Counts the calls of `pass`.
#[derive(Drop)]
struct Counts {
    calls: AtomicU64,
}

impl Gate for Counts {
    fn pass(&self, _lane: usize, _event: u32) {
        self.calls.fetch_add(1, Ordering::SeqCst);
    }
}

/// So many workers take three lanes to the target, then find them there, and then have no lane.
fn reaches<R: Threads + Sync + Abort>(
    rt: &R,
    alloc: Global,
    table: &EventTable,
    workers: u32,
) -> Result<(), Fail>
    requires workers { (1 ≤ workers) × (workers ≤ 64) }
    requires events { length table.now.events ≡ 9 }
{
    let mut lanes = [Fake::new(None), Fake::new(None), Fake::new(None)];
    let outcome = run_forward(rt, alloc, &mut lanes, table, 9, workers, &Free)?;
    assert!(rt; outcome == Outcome::Reached);
    assert!(rt; lanes[0].position == 9 && lanes[1].position == 9 && lanes[2].position == 9);
    assert!(rt; lanes[0].refusals == 0 && lanes[1].refusals == 0 && lanes[2].refusals == 0);
    let gate = Counts {
        calls: AtomicU64::new(0),
    };
    let outcome = run_forward(rt, alloc, &mut lanes, table, 9, workers, &gate)?;
    assert!(rt; outcome == Outcome::Reached && gate.calls.load(Ordering::SeqCst) == 0);
    let mut none: [Fake<'_>; 0] = [];
    let outcome = run_forward(rt, alloc, &mut none, table, 9, workers, &gate)?;
    assert!(rt; outcome == Outcome::Reached && gate.calls.load(Ordering::SeqCst) == 0);
    Ok(())
}

#[test]
fn any_number_of_workers_reaches_the_target(rt: HostRuntime) -> Result<(), Fail> {
    let table = markers(rt.alloc(), 9)?;
    reaches(&rt, rt.alloc(), &table, 1)?;
    reaches(&rt, rt.alloc(), &table, 2)?;
    reaches(&rt, rt.alloc(), &table, 3)?;
    reaches(&rt, rt.alloc(), &table, 64)
}

/// Each lane sets its flag and waits for the flags of all lanes.
#[derive(Drop)]
struct Meets<'a> {
    flags: &'a [AtomicU64],
    gave_up: AtomicU64,
}

impl<'a> Gate for Meets<'a> {
    fn pass(&self, lane: usize, _event: u32) {
        if let Some(flag) = self.flags.get(lane) {
            flag.store(1, Ordering::SeqCst);
        }
        for _ in 0..TURNS {
            if self
                .flags
                .iter()
                .all(|flag| flag.load(Ordering::SeqCst) == 1)
            {
                return;
            }
            thread::yield_now();
        }
        self.gave_up.fetch_add(1, Ordering::SeqCst);
    }
}

#[test]
fn every_worker_is_in_a_lane_at_once(rt: HostRuntime) -> Result<(), Fail> {
    let table = markers(rt.alloc(), 1)?;
    let flags = [AtomicU64::new(0), AtomicU64::new(0)];
    let gate = Meets {
        flags: &flags,
        gave_up: AtomicU64::new(0),
    };
    let mut two = [Fake::flagged(&flags[0]), Fake::flagged(&flags[1])];
    let outcome = run_forward(&rt, rt.alloc(), &mut two, &table, 1, 2, &gate)?;
    assert!(rt; outcome == Outcome::Reached && gate.gave_up.load(Ordering::SeqCst) == 0);
    assert!(rt;
        two.iter()
            .all(|lane| lane.position == 1 && !lane.went_early)
    );
    let flags = [
        AtomicU64::new(0),
        AtomicU64::new(0),
        AtomicU64::new(0),
        AtomicU64::new(0),
    ];
    let gate = Meets {
        flags: &flags,
        gave_up: AtomicU64::new(0),
    };
    let mut four = [
        Fake::flagged(&flags[0]),
        Fake::flagged(&flags[1]),
        Fake::flagged(&flags[2]),
        Fake::flagged(&flags[3]),
    ];
    let outcome = run_forward(&rt, rt.alloc(), &mut four, &table, 1, 4, &gate)?;
    assert!(rt; outcome == Outcome::Reached && gate.gave_up.load(Ordering::SeqCst) == 0);
    assert!(rt;
        four.iter()
            .all(|lane| lane.position == 1 && !lane.went_early)
    );
    Ok(())
}

/// The first lanes of five workers, of seven lanes: they wait for one another, and lane 3, which is the third worker's second one, for none.
#[derive(Drop)]
struct FirstsMeet {
    // one for each lane that has come
    flags: [AtomicU64; 7],
    gave_up: AtomicU64,
    // whether lane 3 came before lane 4
    is_early: AtomicU64,
}

/// The lanes at which five workers begin, of seven.
const FIRSTS: [usize; 5] = [0, 1, 2, 4, 5];

impl FirstsMeet {
    fn has_come(&self, lane: usize) -> bool {
        match self.flags.get(lane) {
            Some(flag) => flag.load(Ordering::SeqCst) == 1,
            None => false,
        }
    }
}

impl Gate for FirstsMeet {
    fn pass(&self, lane: usize, _event: u32) {
        if lane == 4 {
            self.is_early
                .fetch_max(self.flags[3].load(Ordering::SeqCst), Ordering::SeqCst);
        }
        if let Some(flag) = self.flags.get(lane) {
            flag.store(1, Ordering::SeqCst);
        }
        if !FIRSTS.contains(&lane) {
            return;
        }
        for _ in 0..TURNS {
            if FIRSTS.iter().all(|first| self.has_come(*first)) {
                return;
            }
            thread::yield_now();
        }
        self.gave_up.fetch_add(1, Ordering::SeqCst);
    }
}

/// Five workers own of seven lanes 0, 1, 2 and 3, 4, 5 and 6.
#[test]
fn lanes_are_shared_out_evenly(rt: HostRuntime) -> Result<(), Fail> {
    let table = markers(rt.alloc(), 1)?;
    let gate = FirstsMeet {
        flags: [
            AtomicU64::new(0),
            AtomicU64::new(0),
            AtomicU64::new(0),
            AtomicU64::new(0),
            AtomicU64::new(0),
            AtomicU64::new(0),
            AtomicU64::new(0),
        ],
        gave_up: AtomicU64::new(0),
        is_early: AtomicU64::new(0),
    };
    let mut lanes = [
        Fake::new(None),
        Fake::new(None),
        Fake::new(None),
        Fake::new(None),
        Fake::new(None),
        Fake::new(None),
        Fake::new(None),
    ];
    let outcome = run_forward(&rt, rt.alloc(), &mut lanes, &table, 1, 5, &gate)?;
    assert!(rt; outcome == Outcome::Reached && gate.gave_up.load(Ordering::SeqCst) == 0);
    assert_eq!(rt; gate.is_early.load(Ordering::SeqCst), 0);
    assert!(rt;
        gate.flags
            .iter()
            .all(|flag| flag.load(Ordering::SeqCst) == 1)
    );
    Ok(())
}

/// The second worker begins at lane 1, so that lanes 0 and 1 meet. Shared out evenly both were the first worker's.
#[test]
fn a_worker_begins_at_the_lane_that_it_is_given(rt: HostRuntime) -> Result<(), Fail> {
    let table = markers(rt.alloc(), 1)?;
    let flags = [AtomicU64::new(0), AtomicU64::new(0)];
    let gate = Meets {
        flags: &flags,
        gave_up: AtomicU64::new(0),
    };
    let mut lanes = [
        Fake::flagged(&flags[0]),
        Fake::flagged(&flags[1]),
        Fake::new(None),
        Fake::new(None),
    ];
    let advance = Advance {
        table: &table,
        target: 1,
        workers: 2,
        firsts: &[0, 1],
    };
    let outcome = run_shared(&rt, rt.alloc(), &mut lanes, &advance, &gate)?;
    assert!(rt; outcome == Outcome::Reached && gate.gave_up.load(Ordering::SeqCst) == 0);
    assert!(rt;
        lanes
            .iter()
            .all(|lane| lane.position == 1 && !lane.went_early)
    );
    Ok(())
}

/// Each of four workers begins at a lane of its own among the first four, so that these meet. Shared out evenly, or counted otherwise, two of them
/// were one worker's.
#[test]
fn four_workers_begin_at_the_lanes_that_they_are_given(rt: HostRuntime) -> Result<(), Fail> {
    let table = markers(rt.alloc(), 1)?;
    let flags = [
        AtomicU64::new(0),
        AtomicU64::new(0),
        AtomicU64::new(0),
        AtomicU64::new(0),
    ];
    let gate = Meets {
        flags: &flags,
        gave_up: AtomicU64::new(0),
    };
    let mut lanes = [
        Fake::flagged(&flags[0]),
        Fake::flagged(&flags[1]),
        Fake::flagged(&flags[2]),
        Fake::flagged(&flags[3]),
        Fake::new(None),
        Fake::new(None),
        Fake::new(None),
        Fake::new(None),
    ];
    let firsts = [0, 1, 2, 3];
    let advance = Advance {
        table: &table,
        target: 1,
        workers: 4,
        firsts: &firsts,
    };
    let outcome = run_shared(&rt, rt.alloc(), &mut lanes, &advance, &gate)?;
    assert!(rt; outcome == Outcome::Reached && gate.gave_up.load(Ordering::SeqCst) == 0);
    Ok(())
}

/// Three workers that are to begin at these lanes take all three lanes to where one of them refuses.
fn all_go<R: Threads + Sync + Abort>(
    rt: &R,
    alloc: Global,
    table: &EventTable,
    firsts: &[usize],
) -> Result<(), Fail>
    requires { length table.now.events ≡ 9 }
{
    let mut lanes = [Fake::new(None), Fake::new(None), Fake::new(Some(4))];
    let advance = Advance {
        table: table,
        target: 9,
        workers: 3,
        firsts: firsts,
    };
    let outcome = run_shared(rt, alloc, &mut lanes, &advance, &Free)?;
    assert!(rt; outcome == Outcome::Stopped { at: 3 });
    assert!(rt; lanes.iter().all(|lane| lane.position == 3));
    Ok(())
}

/// Of three lanes one stands above the target. There it stays, until another one refuses below it.
#[test]
fn lanes_may_begin_apart(rt: HostRuntime) -> Result<(), Fail> {
    let table = markers(rt.alloc(), 9)?;
    let mut lanes = [Fake::new(None), Fake::new(Some(6)), Fake::new(None)];
    lanes[2].position = 7;
    let advance = Advance {
        table: &table,
        target: 3,
        workers: 2,
        firsts: &[],
    };
    let outcome = run_shared(&rt, rt.alloc(), &mut lanes, &advance, &Free)?;
    assert!(rt; outcome == Outcome::Reached);
    assert!(rt; lanes[0].position == 3 && lanes[1].position == 3 && lanes[2].position == 7);
    let advance = Advance {
        table: &table,
        target: 9,
        workers: 2,
        firsts: &[],
    };
    let outcome = run_shared(&rt, rt.alloc(), &mut lanes, &advance, &Free)?;
    assert!(rt; outcome == Outcome::Stopped { at: 5 });
    assert!(rt; lanes.iter().all(|lane| lane.position == 5));
    lanes[0].back_to(2);
    assert!(rt; lanes[0].position == 2 && lanes[1].position == 5);
    Ok(())
}

/// Workers that begin behind the last lane, at one lane, out of order, or nowhere.
#[test]
fn all_lanes_go_wherever_workers_begin(rt: HostRuntime) -> Result<(), Fail> {
    let table = markers(rt.alloc(), 9)?;
    for firsts in [
        [].as_slice(),
        &[0],
        &[2],
        &[9],
        &[0, 9],
        &[2, 2],
        &[2, 1],
        &[9, 0],
        &[0, 9, 9],
        &[2, 2, 2],
        &[2, 1, 0],
        &[9, 0, 9],
    ] {
        all_go(&rt, rt.alloc(), &table, firsts)?;
    }
    Ok(())
}

/// Sets the flag of each lane that passes, and holds none.
#[derive(Drop)]
struct Tells<'a> {
    flags: &'a [AtomicU64],
}

impl<'a> Gate for Tells<'a> {
    fn pass(&self, lane: usize, _event: u32) {
        if let Some(flag) = self.flags.get(lane) {
            flag.store(1, Ordering::SeqCst);
        }
    }
}

/// So many workers take five lanes through one event.
fn five_pass<R: Threads + Sync + Abort>(
    rt: &R,
    alloc: Global,
    table: &EventTable,
    workers: u32,
) -> Result<(), Fail>
    requires workers { (1 ≤ workers) × (workers ≤ 64) }
    requires events { length table.now.events ≡ 1 }
{
    let flags = [
        AtomicU64::new(0),
        AtomicU64::new(0),
        AtomicU64::new(0),
        AtomicU64::new(0),
        AtomicU64::new(0),
    ];
    let gate = Tells { flags: &flags };
    let mut lanes = [
        Fake::flagged(&flags[0]),
        Fake::flagged(&flags[1]),
        Fake::flagged(&flags[2]),
        Fake::flagged(&flags[3]),
        Fake::flagged(&flags[4]),
    ];
    let outcome = run_forward(rt, alloc, &mut lanes, table, 1, workers, &gate)?;
    assert!(rt; outcome == Outcome::Reached, "{workers} workers");
    assert!(rt;
        lanes
            .iter()
            .all(|lane| lane.position == 1 && !lane.went_early)
    );
    Ok(())
}

/// Two workers have five lanes, so that one of them has three.
#[test]
fn each_lane_passes_by_its_own_number(rt: HostRuntime) -> Result<(), Fail> {
    let table = markers(rt.alloc(), 1)?;
    five_pass(&rt, rt.alloc(), &table, 1)?;
    five_pass(&rt, rt.alloc(), &table, 2)?;
    five_pass(&rt, rt.alloc(), &table, 3)
}

/// Holds lane 2 until lane 0 has come to an event, and lane 0 until lane 3 has; and counts how often lane 0 passes.
#[derive(Drop)]
struct Waits {
    first: AtomicU64,
    last: AtomicU64,
    gave_up: AtomicU64,
}

impl Waits {
    fn wait(&self, other: &AtomicU64) {
        for _ in 0..TURNS {
            if other.load(Ordering::SeqCst) > 0 {
                return;
            }
            thread::yield_now();
        }
        self.gave_up.fetch_add(1, Ordering::SeqCst);
    }
}

impl Gate for Waits {
    fn pass(&self, lane: usize, _event: u32) {
        match lane {
            0 => {
                self.first.fetch_add(1, Ordering::SeqCst);
                self.wait(&self.last);
            }
            2 => self.wait(&self.first),
            3 => self.last.store(1, Ordering::SeqCst),
            _ => {}
        }
    }
}

/// Lane 2 refuses its second event, and its worker goes on with lane 3. Only then may lane 0 go on, which looks again before its second event.
#[test]
fn a_refusal_holds_the_others(rt: HostRuntime) -> Result<(), Fail> {
    let table = markers(rt.alloc(), 9)?;
    let gate = Waits {
        first: AtomicU64::new(0),
        last: AtomicU64::new(0),
        gave_up: AtomicU64::new(0),
    };
    let mut lanes = [
        Fake::new(None),
        Fake::new(None),
        Fake::new(Some(2)),
        Fake::new(None),
    ];
    let outcome = run_forward(&rt, rt.alloc(), &mut lanes, &table, 9, 2, &gate)?;
    assert!(rt; outcome == Outcome::Stopped { at: 1 });
    assert!(rt; gate.first.load(Ordering::SeqCst) == 1 && gate.gave_up.load(Ordering::SeqCst) == 0);
    Ok(())
}

/// Holds lane 0 before event 1 until lane 1 has come to event 9.
#[derive(Drop)]
struct Holds {
    came: AtomicU64,
    gave_up: AtomicU64,
}

impl Gate for Holds {
    fn pass(&self, lane: usize, event: u32) {
        if lane == 1 && event == 9 {
            self.came.store(1, Ordering::SeqCst);
        }
        if lane == 0 && event == 1 {
            for _ in 0..TURNS {
                if self.came.load(Ordering::SeqCst) == 1 {
                    return;
                }
                thread::yield_now();
            }
            self.gave_up.fetch_add(1, Ordering::SeqCst);
        }
    }
}

#[test]
fn a_lane_runs_ahead_of_a_held_one(rt: HostRuntime) -> Result<(), Fail> {
    let table = markers(rt.alloc(), 9)?;
    let gate = Holds {
        came: AtomicU64::new(0),
        gave_up: AtomicU64::new(0),
    };
    let mut lanes = [Fake::new(None), Fake::new(None)];
    let outcome = run_forward(&rt, rt.alloc(), &mut lanes, &table, 9, 2, &gate)?;
    assert!(rt; outcome == Outcome::Reached && gate.gave_up.load(Ordering::SeqCst) == 0);
    assert!(rt; lanes[0].position == 9 && lanes[1].position == 9);
    Ok(())
}

/// The owner of a tile of one row.
fn owner(alloc: Global, left: u32, width: u32) -> Result<Owner, Fail>
    requires left { left ≤ 32 }
    requires width { (1 ≤ width) × (width ≤ 32) }
    ensures place { IfOk result (λ owner. owner.place ≡ record { left = left; top = 0; width = width; height = 1 }) }
    ensures opening { IfOk result (λ owner. position owner.history ≡ 0) }
{
    let place = Place {
        left,
        top: 0,
        width,
        height: 1,
    };
    Ok(Owner::of(alloc, Tile::fresh(alloc, place)?))
}

/// One clear of a target of 33 by 1 pixels, which are two tiles.
fn one_clear(alloc: Global, colour: Colour) -> Result<EventTable, Fail>
    ensures { IfOk result (λ table. (table.width ≡ 33) × (table.height ≡ 1) × (length table.events ≡ 1)) }
{
    let mut events = Vec::new(alloc);
    events.push(Event::Clear(colour))?;
    Ok(EventTable::start(alloc, 3, 33, 1, events)?)
}

fn colour_shown<R: Abort>(rt: &R, owner: &Owner, x: u32) -> Colour {
    assert!(rt; owner.place().holds(x, 0));
    owner.pixel(x, 0)
}

#[test]
fn owners_of_two_tiles_go_on_and_back(rt: HostRuntime) -> Result<(), Fail> {
    let colour = Colour {
        r: 1,
        g: 2,
        b: 3,
        a: 4,
    };
    let table = one_clear(rt.alloc(), colour)?;
    let mut owners = [owner(rt.alloc(), 0, 32)?, owner(rt.alloc(), 32, 1)?];
    let outcome = run_forward(&rt, rt.alloc(), &mut owners, &table, 1, 2, &Free)?;
    assert!(rt; outcome == Outcome::Reached);
    assert_eq!(rt; colour_shown(&rt, &owners[0], 31), colour);
    assert_eq!(rt; colour_shown(&rt, &owners[1], 32), colour);
    run_back(&mut owners, 0);
    assert_eq!(rt; colour_shown(&rt, &owners[0], 31), Colour::default());
    assert_eq!(rt; colour_shown(&rt, &owners[1], 32), Colour::default());
    Ok(())
}

/// Three markers of a target of one pixel.
fn three_markers(alloc: Global) -> Result<EventTable, Fail>
    ensures { IfOk result (λ table. (table.width ≡ 1) × (table.height ≡ 1) × (length table.events ≡ 3)) }
{
    let mut events = Vec::new(alloc);
    events.push(Event::Marker(Label::new(String::new(alloc))?))?;
    events.push(Event::Marker(Label::new(String::new(alloc))?))?;
    events.push(Event::Marker(Label::new(String::new(alloc))?))?;
    Ok(EventTable::start(alloc, 3, 1, 1, events)?)
}

/// Counts the events that it is asked for, and those that aren't the next one.
#[derive(Drop)]
struct Follows {
    asked: AtomicU64,
    other: AtomicU64,
}

impl Gate for Follows {
    fn pass(&self, _lane: usize, event: u32) {
        let before = self.asked.fetch_add(1, Ordering::SeqCst);
        if before.saturating_add(1) != u64::from(event) {
            self.other.fetch_add(1, Ordering::SeqCst);
        }
    }
}

/// A tile goes at once through events that write nothing on it, and its gate is asked for each of them all the same.
#[test]
fn a_gate_is_asked_for_each_event_that_is_passed_over(rt: HostRuntime) -> Result<(), Fail> {
    let table = three_markers(rt.alloc())?;
    let gate = Follows {
        asked: AtomicU64::new(0),
        other: AtomicU64::new(0),
    };
    let mut lanes = [owner(rt.alloc(), 0, 1)?];
    let outcome = run_forward(&rt, rt.alloc(), &mut lanes, &table, 3, 1, &gate)?;
    assert!(rt; outcome == Outcome::Reached && lanes[0].position() == 3);
    assert!(rt; gate.asked.load(Ordering::SeqCst) == 3 && gate.other.load(Ordering::SeqCst) == 0);
    Ok(())
}
