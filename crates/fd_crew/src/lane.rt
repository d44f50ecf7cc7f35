//! Lanes, which go through the events of a table one by one and back, as the owner of a tile does, and the gate before each step.
ghost use Rattle.std.specs.Prelude.{◌≡◌, ◌<◌, ◌≤◌, length, MatchResult, OnErr};
ghost use Rattle.fd_owner.specs.History.{position};
ghost use Rattle.fd_owner.specs.Untouched.{AreUntouched};
ghost use Rattle.fd_owner.specs.Shown.{gone_forward, gone_on_to, gone_back, gone_back_to, refused};

use fd_events::EventTable;
use fd_owner::{Clears, FoundClears, Owner, Refused};

/// What a worker takes forward and back: a place with the list of its images, the opening one and one for each event that it went through.
/// The position is the number of those events. A lane moves to the thread of the worker that owns it, and no other thread sees it until the worker has left.
pub trait Lane: Send {
    ghost use Rattle.fd_events.specs.Table.{Table};
    ghost use Rattle.fd_owner.specs.Shown.{Shown};

    /// All that a caller sees of the lane.
    ghost shown: { Self → Shown };

    /// What the lane asks of a table.
    ghost fits: { Self → Table → Type 0 };

    /// What each refusal tells beside. A lane that refuses for reasons of its own tells nothing.
    ghost wanted: { Type 0 } = { Unit {0} };

    fn position(&self) -> u32
        ensures { result ≡ position (shown self.now).history };

    /// How often the lane has refused a step, which stays at `u64::MAX` once there.
    fn refusals(&self) -> u64
        ensures { result ≡ (shown self.now).refusals };

    /// The position at which it refused last.
    fn refused_at(&self) -> Option<u32>
        ensures { result ≡ (shown self.now).refused_at };

    /// Goes through the next event. A refusal changes nothing but `refusals` and `refused_at`.
    fn forward(&mut self, table: &EventTable) -> Result<(), Refused>
        requires below { position (shown self.old).history < length table.now.events }
        requires fits { fits self.old table.now }
        ensures moved { MatchResult result (λ _. shown self.new ≡ gone_forward table.now (shown self.old)) (λ _. shown self.new ≡ refused (shown self.old)) }
        ensures wanted { OnErr result wanted }
        ensures fits { fits self.new table.now };

    /// The first position from the lane's own on, and `to` at most, whose next event may write on its place. A lane that can't tell answers its own.
    fn next_near(&self, table: &EventTable, to: u32) -> u32
        requires on { position (shown self.now).history ≤ to }
        requires last { to ≤ length table.now.events }
        requires fits { fits self.now table.now }
        ensures least { position (shown self.now).history ≤ result }
        ensures most { result ≤ to }
        ensures far { AreUntouched table.now (position (shown self.now).history) result (shown self.now).place }
    {
        let (_table, _at_most) = (table, to);
        self.position()
    }

    /// Goes at once through next events that write nothing on its place, to this position, which takes no memory and can't be refused. A lane that goes
    /// through each event for itself stays.
    fn pass_to(&mut self, table: &EventTable, to: u32)
        requires on { position (shown self.old).history ≤ to }
        requires last { to ≤ length table.now.events }
        requires far { AreUntouched table.now (position (shown self.old).history) to (shown self.old).place }
        requires fits { fits self.old table.now }
        ensures moved { shown self.new ≡ gone_on_to table.now (position (shown self.new).history) (shown self.old) }
        ensures least { position (shown self.old).history ≤ position (shown self.new).history }
        ensures most { position (shown self.new).history ≤ to }
        ensures fits { fits self.new table.now }
    {
        let (_table, _at_most) = (table, to);
    }

    /// The next events, up to position `to` at most, that `clear_to` goes through at once, which may be those that another lane found last. A lane that can't
    /// tell answers none.
    fn next_clears(&self, found: &mut FoundClears<'_>, to: u32) -> Clears
        requires on { position (shown self.now).history ≤ to }
        requires last { to ≤ length found.old.events }
        requires fits { fits self.now found.old }
        ensures same { found.new ≡ found.old }
        ensures least { position (shown self.now).history ≤ result.to }
        ensures most { result.to ≤ to }
    {
        let (_found, _at_most) = (found, to);
        Clears {
            to: self.position(),
            count: 0,
        }
    }

    /// Goes at once through these next events, as far as it needs no step of its own for one of them, and can't be refused. A lane that goes through each
    /// event for itself stays.
    fn clear_to(&mut self, found: &FoundClears<'_>, clears: Clears)
        requires on { position (shown self.old).history ≤ clears.to }
        requires last { clears.to ≤ length found.now.events }
        requires fits { fits self.old found.now }
        ensures moved { shown self.new ≡ gone_on_to found.now (position (shown self.new).history) (shown self.old) }
        ensures least { position (shown self.old).history ≤ position (shown self.new).history }
        ensures most { position (shown self.new).history ≤ clears.to }
        ensures fits { fits self.new found.now }
    {
        let (_found, _clears) = (found, clears);
    }

    /// Goes back over the last event: the exact inverse of the step forward, which can't be refused.
    fn back(&mut self)
        requires { 0 < position (shown self.old).history }
        ensures moved { shown self.new ≡ gone_back (shown self.old) }
        ensures fits { (table : Table) → fits self.old table → fits self.new table };

    /// Goes back to a position. A lane that knows of no shorter way goes event by event.
    fn back_to(&mut self, to: u32)
        requires { to ≤ position (shown self.old).history }
        ensures moved { shown self.new ≡ gone_back_to to (shown self.old) }
        ensures fits { (table : Table) → fits self.old table → fits self.new table }
    {
        while self.position() > to {
            self.back();
        }
    }
}

/// What an owner asks of a table is that its place lies inside the target. It refuses where memory was wanted.
impl Lane for Owner {
    ghost use Rattle.fd_owner.specs.Shown.{IsInside};
    ghost use Rattle.fd_memory.specs.Wanting.{Wanted};

    ghost shown = { λ o. o };

    ghost fits = { λ o table. IsInside o.place table };

    ghost wanted = { Wanted };

    fn position(&self) -> u32 {
        Owner::position(self)
    }

    fn refusals(&self) -> u64 {
        Owner::refusals(self)
    }

    fn refused_at(&self) -> Option<u32> {
        Owner::refused_at(self)
    }

    fn forward(&mut self, table: &EventTable) -> Result<(), Refused> {
        Owner::forward(self, table)
    }

    fn next_near(&self, table: &EventTable, to: u32) -> u32 {
        Owner::next_near(self, table, to)
    }

    fn pass_to(&mut self, table: &EventTable, to: u32) {
        Owner::pass_to(self, table, to)
    }

    fn next_clears(&self, found: &mut FoundClears<'_>, to: u32) -> Clears {
        Owner::next_clears(self, found, to)
    }

    fn clear_to(&mut self, found: &FoundClears<'_>, clears: Clears) {
        Owner::clear_to(self, found, clears)
    }

    fn back(&mut self) {
        Owner::back(self)
    }

    fn back_to(&mut self, to: u32) {
        Owner::back_to(self, to)
    }
}

/// What a worker passes before each event that it takes a lane through, in their order and after its look at the fence.
/// A gate may hold a lane as long as it likes, as a test does that wants one lane ahead of another. No result depends on it.
pub trait Gate: Sync {
    ghost use Rattle.std.specs.Prelude.{ℕ};

    /// It has let a lane pass for an event. Only a call gives it: whoever knows no more of a gate than this trait can't look into it.
    ghost opened: { Self → ℕ → ℕ → Type 0 } = { λ _ _ _. Unit {0} };

    fn pass(&self, lane: usize, event: u32)
        ensures { opened self.now lane event };

    /// Passes for each event after one position, up to another, which the lane then goes through at once.
    fn pass_each(&self, lane: usize, from: u32, to: u32)
        ensures { (event : ℕ) → from < event → event ≤ to → opened self.now lane event }
    {
        for event in from..to {
            self.pass(lane, event + 1);
        }
    }
}

/// A gate that holds nobody.
#[derive(Clone, Copy)]
pub struct Free;

impl Gate for Free {
    fn pass(&self, _lane: usize, _event: u32) {}

    fn pass_each(&self, _lane: usize, _from: u32, _to: u32) {}
}
