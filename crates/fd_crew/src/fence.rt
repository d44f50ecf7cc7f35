//! The fence of a run: one atomic word, the position that no lane may stay above. It starts at the target, and goes only down.
//!
//! A worker reads it before each step of a lane, and lowers it to the position at which its lane has refused a step.
//! It does so with a seat, which takes no bytes: what the worker knows of the word is written on it for the proofs alone (`View`).
//! docs/ARCHITECTURE.md has the whole story.
ghost use Rattle.std.specs.Prelude.{◌≡◌, ◌≤◌, ◌<◌, ◌^◌, ◌+◌, min, [], IfOk, OnErr};
ghost use Rattle.fd_crew.specs.Fence.{view as view_of, front_view, back_view, joined_view};
ghost use Rattle.fd_crew.specs.Seats.{IsSeatAt, crew_of};
ghost use Rattle.fd_memory.specs.Wanting.{Wanted};

use atomic_table::{Join, Play, Seat, Split, Table, TableRule};
use std::alloc::{AllocError, Global};

/// What a worker knows of the fence. Nothing of it is there when the program runs.
pub struct View {
    /// The position at which the worker saw the fence last.
    pub seen: u64,
    /// The lowest position to which the worker has lowered it, or the target.
    pub low: u64,
    /// The number of workers for which this one speaks.
    pub share: u64,
}

/// What the fence is told when it is made.
#[derive(Drop)]
pub struct Crew {
    pub target: u64,
    pub workers: u64,
}

/// The rule that each step of the word keeps: the word is the least `low` of all workers, and none saw less.
pub struct FenceRule;

impl TableRule<(), View, Crew> for FenceRule {
    ghost use Rattle.fd_crew.specs.Fence.{Kept, opening_view};

    ghost holds = { Kept };

    ghost first = { opening_view };
}

struct Look;

impl Play<(), View> for Look {
    ghost use Rattle.fd_crew.specs.Fence.{Looks};

    ghost then = { Looks };
}

struct Lower;

impl Play<(), View> for Lower {
    ghost use Rattle.fd_crew.specs.Fence.{Lowers};

    ghost then = { Lowers };
}

struct Halves;

impl Split<View> for Halves {
    ghost use Rattle.fd_crew.specs.Fence.{front_view, back_view};

    ghost left = { front_view };

    ghost right = { back_view };
}

struct Both;

impl Join<View> for Both {
    ghost use Rattle.fd_crew.specs.Fence.{joined_view, spent_view};

    ghost both = { joined_view };

    ghost spent = { spent_view };
}

/// A worker's seat at the fence.
pub type FenceSeat = Seat<(), View>;

/// The position that no lane may stay above: a table of one word, under the rule.
pub struct Fence {
    pub table: Table<(), View, Crew, FenceRule, Global>,
}

impl Fence {
    /// A fence at the target, and the one seat, which speaks for all workers.
    pub fn raise(alloc: Global, target: u32, workers: u32) -> Result<(Fence, FenceSeat), AllocError>
        requires { 0 < workers }
        ensures workers { IfOk result (λ f. ((crew_of f.0).workers ≡ workers) × ((crew_of f.0).target ≡ target)) }
        ensures seat { IfOk result (λ f. IsSeatAt f.0 f.1) }
        ensures view { IfOk result (λ f. f.1.me.0 ≡ view_of target target workers) }
        ensures wanted { OnErr result Wanted }
    {
        let target = u64::from(target);
        let workers = u64::from(workers);
        let crew = Crew { target, workers };
        let (table, seat) = fd_memory::table(alloc, &[target], &crew)?;
        Ok((Fence { table }, seat))
    }

    /// Takes the fence away, by a seat that speaks for all workers again. The answer is the position at which it stood.
    pub fn close(self, seat: FenceSeat) -> u64
        requires seat { IsSeatAt self seat }
        requires all { seat.me.0.share ≡ (crew_of self).workers }
        requires below { seat.me.0.low < 2 ^ 64 }
        ensures low { result ≡ seat.me.0.low }
        ensures seen { result ≤ seat.me.0.seen }
    {
        let Fence { table } = self;
        let closed = table.close_with(seat);
        let position = closed.word(0);
        closed.free();
        position
    }
}

/// A seat at the fence. The crew knows it by this trait alone, as a type parameter.
pub trait Post: Send {
    ghost use Rattle.fd_crew.specs.declared.fence.Fence.{Fence};
    ghost use Rattle.fd_crew.specs.declared.fence.View.{View};

    /// It is a seat at this fence.
    ghost stands: { Fence → Self → Type 0 };

    ghost view: { Self → View };

    /// The position at which the fence is: one load of the word.
    fn look(&mut self, fence: &Fence) -> u64
        requires seat { stands fence.now self.old }
        requires some { 0 < (view self.old).share }
        ensures seat { stands fence.now self.new }
        ensures view { view self.new ≡ view_of result (view self.old).low (view self.old).share }
        ensures lower { result ≤ (view self.old).seen };

    /// Lowers the fence to this position, or leaves it where it is lower: one atomic minimum.
    fn lower(&mut self, fence: &Fence, to: u64)
        requires seat { stands fence.now self.old }
        requires some { 0 < (view self.old).share }
        ensures seat { stands fence.now self.new }
        ensures low { (view self.new).low ≡ min (view self.old).low to }
        ensures share { (view self.new).share ≡ (view self.old).share }
        ensures seen { ((view self.new).seen ≤ (view self.old).seen) × ((view self.new).seen ≤ to) };

    /// A second seat, which speaks for the other half of the workers.
    fn split(&mut self, fence: &Fence) -> Self
        requires seat { stands fence.now self.old }
        requires some { 2 ≤ (view self.old).share }
        ensures front { stands fence.now self.new }
        ensures front_view { view self.new ≡ front_view (view self.old) }
        ensures back { stands fence.now result }
        ensures back_view { view result ≡ back_view (view self.old) };

    /// Takes the other seat in, and speaks for the workers of both.
    fn join(&mut self, fence: &Fence, other: Self)
        requires seat { stands fence.now self.old }
        requires other { stands fence.now other }
        requires some { 0 < (view self.old).share }
        ensures seat { stands fence.now self.new }
        ensures view { view self.new ≡ joined_view (view self.old) (view other) };
}

impl Post for Seat<(), View> {
    ghost use Rattle.fd_crew.specs.Seats.{IsSeatAt};

    ghost stands = { IsSeatAt };

    ghost view = { λ s. s.me.0 };

    fn look(&mut self, fence: &Fence) -> u64 {
        fence.table.shared.load::<Look>(self, 0)
    }

    fn lower(&mut self, fence: &Fence, to: u64) {
        fence.table.shared.fetch_min::<Lower>(self, 0, to);
    }

    fn split(&mut self, fence: &Fence) -> Seat<(), View> {
        fence.table.shared.split_seat::<Halves>(self)
    }

    fn join(&mut self, fence: &Fence, other: Seat<(), View>) {
        fence.table.shared.join_seat::<Both>(self, other);
    }
}
