//! What a switch of an event that was gone through changes.
ghost use Rattle.std.specs.Prelude.{◌≡◌, ℕ, ◌≤◌, Bool, IsTrue, Some, length};
ghost use Rattle.fd_tile.specs.declared.place.Place.{Place};
ghost use Rattle.fd_events.specs.Reach.{HoldsWritten};
ghost use Rattle.fd_events.specs.Table.{with_flag, flag_at, state_at};
ghost use Rattle.fd_owner.specs.Shown.{IsInside};
ghost use Rattle.fd_session.specs.Switch.{HoldsChanged, HoldsByState, HoldsSwitched, IsSpared};

use fd_cover::Bounds;
use fd_events::{Effect, Event, EventTable, Pipeline};
use fd_owner::Owner;

/// A switch of an event, with the table as it is after it.
#[derive(Clone, Copy, Debug)]
pub(crate) struct Switch {
    pub number: u32,
    /// Whether the event was on before.
    pub was_on: bool,
    /// The position of the owners.
    pub position: u32,
    /// A box round all that changes up to this position.
    pub reach: Bounds,
}

impl Switch {
    /// Switches an event on or off that owners at a position have gone through.
    pub(crate) fn make(table: &mut EventTable, number: u32, on: bool, position: u32) -> Switch
        requires first { 1 ≤ number }
        requires last { number ≤ position }
        requires within { position ≤ length table.old.events }
        ensures table { table.new ≡ with_flag table.old number on }
        ensures number { result.number ≡ number }
        ensures was_on { flag_at table.old number ≡ Some result.was_on }
        ensures position { result.position ≡ position }
        ensures reach { HoldsSwitched table.new result }
    {
        let _count = table.len();
        let was_on = table.is_on(number);
        let after = *table.state_before(number + 1);
        table.set_on(number, on);
        Switch {
            number,
            was_on,
            position,
            reach: changed_reach(table, number, after, position),
        }
    }

    /// Whether an owner's tile is the same as before the switch.
    pub(crate) fn spares(&self, table: &EventTable, owner: &Owner) -> bool
        requires reach { HoldsSwitched table.now self.now }
        requires inside { IsInside owner.now.place table.now }
        ensures { IsTrue result → IsSpared table.now self.now owner.now.place }
    {
        let _table = table;
        !self.reach.meets(owner.bounds())
    }
}

/// Whether two states are the same.
fn is_same(state: &Pipeline, other: &Pipeline) -> bool
    ensures { IsTrue result → state.now ≡ other.now }
{
    *state == *other
}

/// The box of the pixels that an event can write otherwise in another state, by the box of all that it can write. A clear asks no state.
fn reach_by_state(event: &Event, reach: Bounds) -> Bounds
    ensures { (width height : ℕ) → HoldsWritten reach width height event.now → HoldsByState result width height event.now }
{
    match event.effect() {
        Effect::Draw(_) => reach,
        Effect::Clear(_) | Effect::State | Effect::Nothing => Bounds::empty(),
    }
}

/// A box round all that a switch of an event changes up to a position, where the state after the event was this one: what the event itself can write, and
/// as long as the state is another one than it was, what later draws can.
fn changed_reach(table: &EventTable, number: u32, after: Pipeline, to: u32) -> Bounds
    requires first { 1 ≤ number }
    requires last { number ≤ to }
    requires within { to ≤ length table.now.events }
    ensures { (was : Bool) → after ≡ state_at (with_flag table.now number was) number → HoldsChanged result (with_flag table.now number was) table.now to }
{
    let mut reach = table.reach(number);
    let mut state = after;
    let mut at = number;
    while at < to && !is_same(&state, table.state_before(at + 1)) {
        at += 1;
        if table.is_on(at) {
            let event = table.event(at);
            reach = reach.join(reach_by_state(event, table.reach(at)));
            state = state.after(event);
        }
    }
    reach
}

#[cfg(test)]
mod tests;
