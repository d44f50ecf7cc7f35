ghost use Rattle.std.specs.Prelude.{◌≡◌, ◌≤◌, ◌<◌, ◌+◌, length, true, replicate, Some, slice_get, slice_set, IfOk, OnErr, IsSome, if◌then◌else◌};
ghost use Rattle.fd_events.specs.Limits.{most_events};
ghost use Rattle.fd_events.specs.Pipeline.{state_after};
ghost use Rattle.fd_memory.specs.Wanting.{Wanted};
ghost use Rattle.fd_events.specs.StateList.{place_past, ArePlaces, HasStatesTo, HasStates, listed_state};

use crate::event::Event;
use crate::pipeline::Pipeline;
use std::alloc::{AllocError, Global};

/// Which events of a frame are switched on, and the states that they make: the one before any event, and one more for each state event.
/// So a frame of markers and draws has a single state, and a switch asks for no memory.
#[derive(Debug, Drop)]
pub(crate) struct StateList {
    flags: Vec<bool>,
    // where the state before each event stands among the states, and the one after the last
    places: Vec<u32>,
    states: Vec<Pipeline>,
}

impl StateList {
    /// The states of these events, all switched on.
    pub(crate) fn all_on(events: &[Event], alloc: Global) -> Result<StateList, AllocError>
        requires { length events.now ≤ most_events }
        ensures flags { IfOk result (λ list. list.flags.items ≡ replicate (length events.now) true) }
        ensures states { IfOk result (λ list. HasStates events.now list) }
        ensures wanted { OnErr result Wanted }
    {
        let mut list = StateList::fresh(events, alloc)?;
        list.recompute(events, 0);
        Ok(list)
    }

    /// Room for them, with the state before any event in each place.
    fn fresh(events: &[Event], alloc: Global) -> Result<StateList, AllocError>
        requires { length events.now ≤ most_events }
        ensures flags { IfOk result (λ list. list.flags.items ≡ replicate (length events.now) true) }
        ensures states { IfOk result (λ list. HasStatesTo events.now 0 list) }
        ensures wanted { OnErr result Wanted }
    {
        let flags = fd_memory::filled(alloc, true, events.len())?;
        let places = places_of(events, alloc)?;
        let last = places[events.len()] as usize;
        let states = fd_memory::filled(alloc, Pipeline::default(), last + 1)?;
        Ok(StateList {
            flags,
            places,
            states,
        })
    }

    /// Computes the states after a position anew.
    fn recompute(&mut self, events: &[Event], position: usize)
        requires within { position ≤ length events.now }
        requires before { HasStatesTo events.now position self.old }
        ensures flags { self.new.flags.items ≡ self.old.flags.items }
        ensures states { HasStates events.now self.new }
    {
        for index in position..events.len() {
            self.step(events, index);
        }
    }

    /// Computes the state after the event at an index. Where this is no state event, it is the one before it, and stands there already.
    fn step(&mut self, events: &[Event], index: usize)
        requires within { index < length events.now }
        requires before { HasStatesTo events.now index self.old }
        ensures flags { self.new.flags.items ≡ self.old.flags.items }
        ensures states { HasStatesTo events.now (index + 1) self.new }
    {
        let place = self.places[index] as usize;
        let next = self.places[index + 1] as usize;
        if place < next {
            self.states[next] = state_past(&events[index], self.flags[index], self.states[place]);
        }
    }

    /// Whether the event at an index is switched on.
    pub(crate) fn is_on(&self, index: usize) -> bool
        requires { index < length self.now.flags.items }
        ensures { slice_get self.now.flags.items index ≡ Some result }
    {
        self.flags[index]
    }

    /// The state before the event at an index, or after the last event.
    pub(crate) fn before(&self, index: usize) -> &Pipeline
        requires { IsSome (listed_state self.now index) }
        ensures { listed_state self.now index ≡ Some result.now }
    {
        &self.states[self.places[index] as usize]
    }

    /// Switches the event at an index on or off. The states after a state event are computed anew; any other event changes none.
    pub(crate) fn set_on(&mut self, events: &[Event], index: usize, on: bool)
        requires within { index < length events.now }
        requires states { HasStates events.now self.old }
        ensures flags { self.new.flags.items ≡ slice_set self.old.flags.items index on }
        ensures states { HasStates events.now self.new }
    {
        self.flags[index] = on;
        if self.places[index] < self.places[index + 1] {
            self.recompute(events, index);
        }
    }
}

/// The place of the state after an event, from the place of the one before it.
fn place_past(event: &Event, place: u32) -> u32
    requires { place < most_events }
    ensures { result ≡ place_past event.now place }
{
    if event.is_state_event() {
        place + 1
    } else {
        place
    }
}

/// The place of the state before each event, and of the one after the last.
fn places_of(events: &[Event], alloc: Global) -> Result<Vec<u32>, AllocError>
    requires { length events.now ≤ most_events }
    ensures places { IfOk result (λ places. ArePlaces events.now places.items) }
    ensures wanted { OnErr result Wanted }
{
    let mut places = fd_memory::room(alloc, events.len() + 1)?;
    let mut place: u32 = 0;
    fd_memory::push(&mut places, place)?;
    for event in events {
        place = place_past(event, place);
        fd_memory::push(&mut places, place)?;
    }
    Ok(places)
}

/// The state after an event that may be switched off.
fn state_past(event: &Event, on: bool, state: Pipeline) -> Pipeline
    ensures { result ≡ (if on then state_after event.now state else state) }
{
    if on { state.after(event) } else { state }
}
