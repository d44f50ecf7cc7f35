//! The crew: workers in threads of their own, each with lanes of its own, and all of them under one fence.
//!
//! A run forward goes in three steps. The fence is raised at the target; nothing else is allocated here, and no lane has moved yet. The workers take
//! their lanes forward, each as far as the fence lets it (`draw_lane`). When the last one has come back the fence is taken away, and where it was lowered
//! each lane that stands above it goes back (`run_back`).
ghost use Rattle.std.specs.Prelude.{◌≡◌, ◌<◌, ◌≤◌, ◌^◌, ◌+◌, ◌⊎◌, length, map, All, MatchResult};
ghost use Rattle.std.specs.List.{AllZip};
ghost use Rattle.fd_events.specs.Table.{Table};
ghost use Rattle.fd_owner.specs.History.{position};
ghost use denote.Param.Send.{IsSync, IsSend};
ghost use Rattle.fd_owner.specs.Shown.{gone_back_to};
ghost use Rattle.fd_crew.specs.Fence.{CanWork};
ghost use Rattle.fd_crew.specs.Seats.{crew_of, target_of};
ghost use Rattle.fd_crew.specs.Teams.{IsTeam, lower_lanes, upper_lanes};
ghost use Rattle.fd_crew.specs.Lanes.{Drawn, IsPassed, ArePassed, RefusedAt, Worked, EndsAs, EndsApart, OnStop, opening_position};
ghost use Rattle.fd_memory.specs.Wanting.{Wanted};

use crate::fence::{Fence, Post};
use crate::lane::{Gate, Lane};
use crate::team::{Team, even_firsts};
use fd_events::EventTable;
use fd_memory::prime;
use fd_owner::FoundClears;
use std::alloc::{AllocError, Global};
use std::thread::{Threads, join_mut};

/// The most workers that a run may have.
pub const MOST_WORKERS: u32 = 64;

/// Before so many lanes each of several workers lets the heap of its thread grow at once, and not page by page: that holds up the others.
const PRIMED_LANES: usize = 64;

/// What so many tiles take with the undo records of some draws. The C library takes the first piece of this size from elsewhere, and all later ones from
/// the heap.
const PRIMED_BYTES: usize = 2 << 20;

/// How a run forward ended.
#[derive(Clone, Copy, PartialEq, Eq, Debug)]
pub enum Outcome {
    /// All lanes stand at the target, and none refused.
    Reached,
    /// All lanes stand at this position, the least one at which a lane refused.
    Stopped { at: u32 },
}

/// A run forward: through the events of which table, to which position, and by how many workers.
#[derive(Clone, Copy)]
pub struct Advance<'a> {
    pub table: &'a EventTable,
    pub target: u32,
    /// From 1 to `MOST_WORKERS`.
    pub workers: u32,
    /// The lane at which each worker is to begin. Where there is none for a worker, the lanes are shared out evenly.
    pub firsts: &'a [usize],
}

/// What all workers of a run share.
#[derive(Clone, Copy)]
struct Course<'a, G: Gate> {
    alloc: Global,
    workers: u32,
    fence: &'a Fence,
    gate: &'a G,
    table: &'a EventTable,
}

/// Takes all lanes back to a position, in the calling thread.
pub fn run_back<L: Lane>(lanes: &mut [L], to: u32)
    requires { All (λ l. to ≤ position (L.shown l).history) lanes.old }
    ensures moved { AllZip (λ x y. L.shown y ≡ gone_back_to to (L.shown x)) lanes.old lanes.new }
    ensures fits { AllZip (λ x y. (table : Table) → L.fits x table → L.fits y table) lanes.old lanes.new }
{
    for lane in lanes.iter_mut() {
        lane.back_to(to);
    }
}

/// Takes all lanes forward to the run's target, each worker those from the lane of its own number in `firsts` up to the next worker's first one. Where
/// `firsts` has no lane for a worker, or one that lies among another worker's, the lanes are shared out by the workers that are left. A lane that stands
/// above the target stays there. Where a lane refuses, all lanes end at the least position at which one refused, those above it too. An `Err` says that there
/// was no memory for the fence; then no lane has moved.
///
/// So it ends for every number of workers, however the lanes are shared out, and every schedule. Which lanes refuse may differ from run to run, as memory may.
/// The bound is `Threads` without `Wait`: nothing waits but the join of a thread, so the call returns if the lanes and the gate do.
pub fn run_shared<R: Threads + Sync, L: Lane, G: Gate>(
    rt: &R,
    alloc: Global,
    lanes: &mut [L],
    advance: &Advance<'_>,
    gate: &G,
) -> Result<Outcome, AllocError>
    requires target { advance.now.target ≤ length advance.now.table.now.events }
    requires workers { (1 ≤ advance.now.workers) × (advance.now.workers ≤ 64) }
    requires fits { All (λ l. L.fits l advance.now.table.now) lanes.old }
    ensures ended { MatchResult result (λ outcome. EndsApart L.shown advance.now.table.now advance.now.target lanes.old lanes.new outcome)
        (λ _. lanes.new ≡ lanes.old) }
    ensures wanted { MatchResult result (OnStop L.wanted) (λ _. Wanted) }
    ensures passed { ArePassed L.shown (G.opened gate.now) 0 lanes.old lanes.new }
    ensures fits { All (λ l. L.fits l advance.now.table.now) lanes.new }
{
    let (fence, mut seat) = Fence::raise(alloc, advance.target, advance.workers)?;
    let team = Team::whole(advance.workers, advance.firsts);
    let course = Course {
        alloc,
        workers: advance.workers,
        fence: &fence,
        gate,
        table: advance.table,
    };
    run_range(rt, &course, &team, &mut seat, lanes);
    let at = fence.close(seat) as u32;
    if at == advance.target {
        return Ok(Outcome::Reached);
    }
    run_back(lanes, at);
    Ok(Outcome::Stopped { at })
}

/// The same of lanes that all stand at one position, shared out evenly: worker w owns those from `w * lanes / workers` up to the next worker's first one.
pub fn run_forward<R: Threads + Sync, L: Lane, G: Gate>(
    rt: &R,
    alloc: Global,
    lanes: &mut [L],
    table: &EventTable,
    target: u32,
    workers: u32,
    gate: &G,
) -> Result<Outcome, AllocError>
    requires together { All (λ l. position (L.shown l).history ≡ opening_position (map L.shown lanes.old)) lanes.old }
    requires target { (opening_position (map L.shown lanes.old) ≤ target) × (target ≤ length table.now.events) }
    requires workers { (1 ≤ workers) × (workers ≤ 64) }
    requires fits { All (λ l. L.fits l table.now) lanes.old }
    ensures ended { MatchResult result (λ outcome. EndsAs L.shown table.now target lanes.old lanes.new outcome) (λ _. lanes.new ≡ lanes.old) }
    ensures wanted { MatchResult result (OnStop L.wanted) (λ _. Wanted) }
    ensures passed { ArePassed L.shown (G.opened gate.now) 0 lanes.old lanes.new }
    ensures fits { All (λ l. L.fits l table.now) lanes.new }
{
    let firsts = even_firsts(lanes.len(), workers);
    let advance = Advance {
        table,
        target,
        workers,
        firsts: &firsts[..workers as usize],
    };
    run_shared(rt, alloc, lanes, &advance, gate)
}

/// Takes one lane forward until it stands at the fence or above it. Events that leave its image as it is are gone through at once, up to the next one
/// that may draw, and so are clears that follow one another. Where it refuses a step, it lowers the fence to where it stands, and ends.
/// Clears that a lane of the same worker found last it may go through as that did.
/// No lock, and no wait for another worker: one load of the fence before each such run of events with the step after it, and at most one atomic minimum.
fn draw_lane<L: Lane, G: Gate, S: Post>(
    course: &Course<'_, G>,
    number: usize,
    seat: &mut S,
    found: &mut FoundClears<'_>,
    lane: &mut L,
)
    requires seat { S.stands course.now.fence.now seat.old }
    requires found { found.old ≡ course.now.table.now }
    requires can { CanWork (crew_of course.now.fence.now) (length course.now.table.now.events) (S.view seat.old) }
    requires fits { L.fits lane.old course.now.table.now }
    ensures seat { S.stands course.now.fence.now seat.new }
    ensures share { (S.view seat.new).share ≡ (S.view seat.old).share }
    ensures lower { ((S.view seat.new).low ≤ (S.view seat.old).low) × ((S.view seat.new).seen ≤ (S.view seat.old).seen) }
    ensures low { ((S.view seat.new).low ≡ (S.view seat.old).low) ⊎ RefusedAt (S.view seat.new).low (L.shown lane.old) (L.shown lane.new) }
    ensures lane { Drawn course.now.table.now (target_of course.now.fence.now) (S.view seat.new).seen (S.view seat.new).low (L.shown lane.old)
        (L.shown lane.new) }
    ensures wanted { ((S.view seat.new).low ≡ (S.view seat.old).low) ⊎ L.wanted }
    ensures passed { IsPassed (G.opened course.now.gate.now number) (L.shown lane.old) (L.shown lane.new) }
    ensures fits { L.fits lane.new course.now.table.now }
    ensures found { found.new ≡ found.old }
{
    loop {
        let limit = seat.look(course.fence);
        let position = lane.position();
        if u64::from(position) >= limit {
            return;
        }
        let near = lane.next_near(course.table, limit as u32);
        course.gate.pass_each(number, position, near);
        lane.pass_to(course.table, near);
        let from = lane.position();
        if u64::from(from) >= limit {
            return;
        }
        let clears = lane.next_clears(found, limit as u32);
        course.gate.pass_each(number, from, clears.to);
        lane.clear_to(found, clears);
        let at = lane.position();
        if u64::from(at) >= limit {
            return;
        }
        course.gate.pass(number, at + 1);
        if lane.forward(course.table).is_err() {
            seat.lower(course.fence, u64::from(at));
            return;
        }
    }
}

/// Lets the heap of one thread of several grow at once, before each so many of its worker's lanes, of which so many are left.
fn grow_heap<G: Gate>(course: &Course<'_, G>, index: usize, left: usize) {
    if course.workers > 1 && index % PRIMED_LANES == 0 && left >= PRIMED_LANES {
        let _primed = prime(course.alloc, PRIMED_BYTES);
    }
}

/// One worker: takes its lanes forward, one after the other.
fn draw_lanes<L: Lane, G: Gate, S: Post>(
    course: &Course<'_, G>,
    first: usize,
    seat: &mut S,
    lanes: &mut [L],
)
    requires seat { S.stands course.now.fence.now seat.old }
    requires can { CanWork (crew_of course.now.fence.now) (length course.now.table.now.events) (S.view seat.old) }
    requires room { first + length lanes.old < 2 ^ 64 }
    requires fits { All (λ l. L.fits l course.now.table.now) lanes.old }
    ensures seat { S.stands course.now.fence.now seat.new }
    ensures worked { Worked L.shown L.fits course.now.table.now (target_of course.now.fence.now) (S.view seat.old) (S.view seat.new) lanes.old lanes.new }
    ensures wanted { ((S.view seat.new).low ≡ (S.view seat.old).low) ⊎ L.wanted }
    ensures passed { ArePassed L.shown (G.opened course.now.gate.now) first lanes.old lanes.new }
{
    let count = lanes.len();
    let mut found = FoundClears::none(course.alloc, course.table);
    for (index, lane) in lanes.iter_mut().enumerate() {
        grow_heap(course, index, count.saturating_sub(index));
        draw_lane(course, first + index, seat, &mut found, lane);
    }
}

/// Two neighbouring teams of the crew side by side: the upper one in this thread, the lower one in a new thread, or in this one afterwards where none
/// can be started. It is a function of its own, and its closures capture only references to its parameters, since only then is it known what they
/// leave in the two halves of the lanes.
#[cycle(range)]
fn run_both<R: Threads + Sync, L: Lane, G: Gate, S: Post>(
    rt: &R,
    course: &Course<'_, G>,
    halves: &(Team<'_>, Team<'_>),
    seat: &mut S,
    other: &mut S,
    lanes: &mut [L],
)
    requires seats { S.stands course.now.fence.now seat.old × S.stands course.now.fence.now other.old }
    requires can { CanWork (crew_of course.now.fence.now) (length course.now.table.now.events) (S.view seat.old)
        × CanWork (crew_of course.now.fence.now) (length course.now.table.now.events) (S.view other.old) }
    requires workers { ((S.view seat.old).share ≡ halves.now.0.workers) × ((S.view other.old).share ≡ halves.now.1.workers) }
    requires teams { IsTeam halves.now.0 × IsTeam halves.now.1 }
    requires owned { (halves.now.0.first_lane ≤ halves.now.1.first_lane) × (halves.now.1.first_lane ≤ halves.now.0.first_lane + length lanes.old) }
    requires room { halves.now.0.first_lane + length lanes.old < 2 ^ 64 }
    requires fits { All (λ l. L.fits l course.now.table.now) lanes.old }
    ensures seats { S.stands course.now.fence.now seat.new × S.stands course.now.fence.now other.new }
    ensures lower { Worked L.shown L.fits course.now.table.now (target_of course.now.fence.now) (S.view seat.old) (S.view seat.new)
        (lower_lanes halves.now.0 halves.now.1 lanes.old) (lower_lanes halves.now.0 halves.now.1 lanes.new) }
    ensures upper { Worked L.shown L.fits course.now.table.now (target_of course.now.fence.now) (S.view other.old) (S.view other.new)
        (upper_lanes halves.now.0 halves.now.1 lanes.old) (upper_lanes halves.now.0 halves.now.1 lanes.new) }
    ensures lower_wanted { ((S.view seat.new).low ≡ (S.view seat.old).low) ⊎ L.wanted }
    ensures upper_wanted { ((S.view other.new).low ≡ (S.view other.old).low) ⊎ L.wanted }
    ensures lower_passed { ArePassed L.shown (G.opened course.now.gate.now) halves.now.0.first_lane (lower_lanes halves.now.0 halves.now.1 lanes.old)
        (lower_lanes halves.now.0 halves.now.1 lanes.new) }
    ensures upper_passed { ArePassed L.shown (G.opened course.now.gate.now) halves.now.1.first_lane (upper_lanes halves.now.0 halves.now.1 lanes.old)
        (upper_lanes halves.now.0 halves.now.1 lanes.new) }
{
    let (front, back) = lanes.split_at_mut(halves.1.first_lane - halves.0.first_lane);
    join_mut(
        rt,
        &mut ||
            requires threads { IsSync R.row × IsSend L.row × IsSync G.row × IsSend S.row }
            requires seat { S.stands course.now.fence.now seat.now }
            requires can { CanWork (crew_of course.now.fence.now) (length course.now.table.now.events) (S.view seat.now) }
            requires workers { (S.view seat.now).share ≡ halves.now.0.workers }
            requires team { IsTeam halves.now.0 }
            requires room { halves.now.0.first_lane + length front.now < 2 ^ 64 }
            requires fits { All (λ l. L.fits l course.now.table.now) front.now }
            ensures seat { S.stands course.entry.now.fence.now seat.exit.now }
            ensures worked { Worked L.shown L.fits course.entry.now.table.now (target_of course.entry.now.fence.now) (S.view seat.entry.now)
                (S.view seat.exit.now) front.entry.now front.exit.now }
            ensures wanted { ((S.view seat.exit.now).low ≡ (S.view seat.entry.now).low) ⊎ L.wanted }
            ensures passed { ArePassed L.shown (G.opened course.entry.now.gate.now) halves.entry.now.0.first_lane front.entry.now front.exit.now }
        { run_range(rt, course, &halves.0, seat, front) },
        &mut ||
            requires threads { IsSync R.row × IsSend L.row × IsSync G.row × IsSend S.row }
            requires seat { S.stands course.now.fence.now other.now }
            requires can { CanWork (crew_of course.now.fence.now) (length course.now.table.now.events) (S.view other.now) }
            requires workers { (S.view other.now).share ≡ halves.now.1.workers }
            requires team { IsTeam halves.now.1 }
            requires room { halves.now.1.first_lane + length back.now < 2 ^ 64 }
            requires fits { All (λ l. L.fits l course.now.table.now) back.now }
            ensures seat { S.stands course.entry.now.fence.now other.exit.now }
            ensures worked { Worked L.shown L.fits course.entry.now.table.now (target_of course.entry.now.fence.now) (S.view other.entry.now)
                (S.view other.exit.now) back.entry.now back.exit.now }
            ensures wanted { ((S.view other.exit.now).low ≡ (S.view other.entry.now).low) ⊎ L.wanted }
            ensures passed { ArePassed L.shown (G.opened course.entry.now.gate.now) halves.entry.now.1.first_lane back.entry.now back.exit.now }
        { run_range(rt, course, &halves.1, other, back) },
    );
}

/// A team of the crew, with the lanes that its workers own. It is cut in two until one worker is left, or at most one lane: that this thread does itself.
#[cycle(range)]
fn run_range<R: Threads + Sync, L: Lane, G: Gate, S: Post>(
    rt: &R,
    course: &Course<'_, G>,
    team: &Team<'_>,
    seat: &mut S,
    lanes: &mut [L],
)
    requires seat { S.stands course.now.fence.now seat.old }
    requires can { CanWork (crew_of course.now.fence.now) (length course.now.table.now.events) (S.view seat.old) }
    requires workers { (S.view seat.old).share ≡ team.now.workers }
    requires team { IsTeam team.now }
    requires room { team.now.first_lane + length lanes.old < 2 ^ 64 }
    requires fits { All (λ l. L.fits l course.now.table.now) lanes.old }
    ensures seat { S.stands course.now.fence.now seat.new }
    ensures worked { Worked L.shown L.fits course.now.table.now (target_of course.now.fence.now) (S.view seat.old) (S.view seat.new) lanes.old lanes.new }
    ensures wanted { ((S.view seat.new).low ≡ (S.view seat.old).low) ⊎ L.wanted }
    ensures passed { ArePassed L.shown (G.opened course.now.gate.now) team.now.first_lane lanes.old lanes.new }
{
    if team.workers < 2 || lanes.len() < 2 {
        draw_lanes(course, team.first_lane, seat, lanes);
        return;
    }
    let halves = team.halves(lanes.len());
    let mut other = seat.split(course.fence);
    run_both(rt, course, &halves, seat, &mut other, lanes);
    seat.join(course.fence, other);
}
