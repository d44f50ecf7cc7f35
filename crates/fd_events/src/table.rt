ghost use Rattle.std.specs.Prelude.{◌≡◌, ◌≤◌, ◌+◌, ◌-◌, ◌&&◌, length, ℕ, Some, map, not};
ghost use Rattle.std.specs.Prelude.{IfOk, OnErr};
ghost use Rattle.fd_memory.specs.Wanting.{Wanted};
ghost use Rattle.fd_events.specs.Table.{is_side};
ghost use Rattle.fd_snap.specs.Limits.{most_pixels};
ghost use Rattle.fd_cover.specs.Bounds.{is_empty};
ghost use Rattle.fd_events.specs.Reach.{box_of, AreReaches};
ghost use Rattle.fd_events.specs.declared.table.TableFault.TheVariants.{Memory};

use crate::event::Event;
use crate::index::EventIndex;
use crate::pipeline::Pipeline;
use crate::reach::Reach;
use crate::state_list::StateList;
use fd_cover::Bounds;
use fd_snap::MAX_SIDE;
use std::alloc::{AllocError, Global};
use std::marker::Model;
use thiserror::Error;

/// The most events that a frame has.
pub const MAX_EVENTS: u32 = 1_000_000;

/// Why there is no table. Size is checked first, then the number of events, then memory.
#[derive(Clone, Copy, PartialEq, Eq, Debug, Error)]
pub enum TableFault {
    /// Memory ran out.
    #[error("memory")]
    Memory,
    /// The width or the height is not from 1 to 16,384 pixels.
    #[error("size")]
    Size,
    /// There are more than `MAX_EVENTS` events.
    #[error("too many events")]
    TooMany,
}

impl From<AllocError> for TableFault {
    ghost from_gives = { λ _ fault. fault ≡ Memory };

    fn from(_refused: AllocError) -> TableFault {
        TableFault::Memory
    }
}

/// The version of a capture, the target's size and the events of the frame, numbered from 1, each switched on or off.
#[derive(Debug, Drop)]
pub struct EventTable {
    version: u32,
    width: u32,
    height: u32,
    events: Vec<Event>,
    // whether each event is switched on, and the states that those make
    states: StateList,
    // the box of the pixels that each event can write, since the events themselves are large
    reaches: Vec<Reach>,
    // whether each event is switched on and its box has a pixel: each tile asks this of every event
    writers: Vec<bool>,
    // which events can write in which cells, whether they are switched on or off
    index: EventIndex,
}

impl Model for EventTable {
    ghost use Rattle.fd_events.specs.Table.{Table, table_of, IsTable};
    ghost use Rattle.fd_events.specs.StateList.{HasStates};
    ghost use Rattle.fd_events.specs.Reach.{AreReaches, AreWriters};
    ghost use Rattle.fd_events.specs.Index.{IsIndex};

    ghost Value = { Table };

    ghost view = { λ t. table_of t.version t.width t.height t.events.items t.states.flags.items };

    ghost invariant = { λ t.
        IsTable (table_of t.version t.width t.height t.events.items t.states.flags.items)
        × HasStates t.events.items t.states
        × AreReaches t.width t.height t.events.items t.reaches.items
        × AreWriters t.states.flags.items t.reaches.items t.writers.items
        × IsIndex t.index t.events.items };
}

impl EventTable {
    ghost use Rattle.std.specs.Prelude.{◌≡◌, ℕ, ◌<◌, ◌≤◌, ◌+◌, ◌-◌, length, true, IsTrue, not, Some, Err, IfSome, IfOk, OnErr, option_map};
    ghost use Rattle.fd_events.specs.Reach.{reach_of, may_write_at, HoldsWritten};
    ghost use Rattle.fd_events.specs.Far.{IsFar, AreFar, IsPassedBy, ArePassedBy};
    ghost use Rattle.fd_events.specs.Table.{IsTable, IsVersion, all_on, started, UnlessMemory, event_at, flag_at, state_at, with_flag};

    /// A table of these events, all switched on. They are dropped on a refusal. Memory is the reason only where it was wanted.
    pub fn start(
        alloc: Global,
        version: u32,
        width: u32,
        height: u32,
        mut events: Vec<Event>,
    ) -> Result<EventTable, TableFault>
        requires { IsVersion version events.items }
        ensures exact { UnlessMemory result (started version width height events.items) }
        ensures wanted { result ≡ Err Memory → Wanted }
    {
        if !is_side(width) || !is_side(height) {
            return Err(TableFault::Size);
        }
        if events.len() > MAX_EVENTS as usize {
            return Err(TableFault::TooMany);
        }
        list_triangles(&mut events, width, height, alloc)?;
        Ok(EventTable::all_on(alloc, version, width, height, events)?)
    }

    /// The table of these events, all switched on.
    fn all_on(
        alloc: Global,
        version: u32,
        width: u32,
        height: u32,
        events: Vec<Event>,
    ) -> Result<EventTable, AllocError>
        requires { IsTable (all_on version width height events.items) }
        ensures table { IfOk result (λ table. table ≡ all_on version width height events.items) }
        ensures wanted { OnErr result Wanted }
    {
        let states = StateList::all_on(&events, alloc)?;
        let reaches = reaches_of(&events, width, height, alloc)?;
        let writers = writers_of(&reaches, alloc)?;
        let index = EventIndex::of(&events, width, height, alloc)?;
        Ok(EventTable {
            version,
            width,
            height,
            events,
            states,
            reaches,
            writers,
            index,
        })
    }

    /// The number of events.
    pub fn len(&self) -> u32
        ensures value { result ≡ length self.now.events }
        ensures table { IsTable self.now }
    {
        self.events.len() as u32
    }

    /// The version of the capture, 1 or 2.
    pub fn version(&self) -> u32
        ensures value { result ≡ self.now.version }
        ensures table { IsTable self.now }
    {
        self.version
    }

    /// The width of the target.
    pub fn width(&self) -> u32
        ensures value { result ≡ self.now.width }
        ensures table { IsTable self.now }
    {
        self.width
    }

    /// The height of the target.
    pub fn height(&self) -> u32
        ensures value { result ≡ self.now.height }
        ensures table { IsTable self.now }
    {
        self.height
    }

    /// The event of this number.
    pub fn event(&self, number: u32) -> &Event
        requires first { 1 ≤ number }
        requires last { number ≤ length self.now.events }
        ensures { event_at self.now number ≡ Some result.now }
    {
        &self.events[number as usize - 1]
    }

    /// Whether the event of this number is switched on.
    pub fn is_on(&self, number: u32) -> bool
        requires first { 1 ≤ number }
        requires last { number ≤ length self.now.events }
        ensures { flag_at self.now number ≡ Some result }
    {
        self.states.is_on(number as usize - 1)
    }

    /// The box of the pixels that the event of this number can write: for a clear the whole target, for a draw what lies in the box round its
    /// triangles and on its picture, for any other event none.
    pub fn reach(&self, number: u32) -> Bounds
        requires first { 1 ≤ number }
        requires last { number ≤ length self.now.events }
        ensures value { option_map (reach_of self.now.width self.now.height) (event_at self.now number) ≡ Some result }
        ensures written { IfSome (event_at self.now number) (HoldsWritten result self.now.width self.now.height) }
    {
        self.reaches[number as usize - 1].bounds()
    }

    /// Whether the event of this number is switched on and its box has a pixel. Else it writes nothing, and this takes one look at a byte.
    pub fn may_write(&self, number: u32) -> bool
        requires first { 1 ≤ number }
        requires last { number ≤ length self.now.events }
        ensures { Some result ≡ may_write_at self.now number }
    {
        self.writers[number as usize - 1]
    }

    /// The first position from `from` on, and `to` at most, whose next event is switched on and has a box that meets a window. No event that is passed
    /// over can write there in any state. Those that the window's cell doesn't list are passed over by one search.
    pub fn next_near(&self, from: u32, to: u32, window: Bounds) -> u32
        requires order { from ≤ to }
        requires last { to ≤ length self.now.events }
        ensures from { from ≤ result }
        ensures last { result ≤ to }
        ensures near { result < to → flag_at self.now (result + 1) ≡ Some true }
        ensures far { AreFar self.now from result window }
    {
        let mut near = self.next_indexed(from, to, window);
        while near < to && !self.is_near(near, window) {
            near = self.next_indexed(near + 1, to, window);
        }
        near
    }

    /// The first position from `from` on, and `to` at most, whose next event is switched on and may cover a pixel of a window, whether or not its picture
    /// has a texel there. No event that is passed over has anything to do with the window.
    pub fn next_over(&self, from: u32, to: u32, window: Bounds) -> u32
        requires order { from ≤ to }
        requires last { to ≤ length self.now.events }
        ensures from { from ≤ result }
        ensures last { result ≤ to }
        ensures over { result < to → flag_at self.now (result + 1) ≡ Some true }
        ensures passed { ArePassedBy self.now from result window }
    {
        let mut over = self.next_indexed(from, to, window);
        while over < to && !self.is_over(over + 1, window) {
            over = self.next_indexed(over + 1, to, window);
        }
        over
    }

    /// The same as far as the cells tell, where an event that is switched off counts as well.
    fn next_indexed(&self, from: u32, to: u32, window: Bounds) -> u32
        requires order { from ≤ to }
        requires last { to ≤ length self.now.events }
        ensures from { from ≤ result }
        ensures last { result ≤ to }
        ensures passed { ArePassedBy self.now from result window }
    {
        self.index.next(from, to, window)
    }

    /// Whether the event of this number is switched on and isn't seen to have nothing to do with a window.
    fn is_over(&self, number: u32, window: Bounds) -> bool
        requires first { 1 ≤ number }
        requires last { number ≤ length self.now.events }
        ensures over { IsTrue result → flag_at self.now number ≡ Some true }
        ensures passed { IsTrue (not result) → (position : ℕ) → number ≡ position + 1 → IsPassedBy self.now position window }
    {
        self.is_on(number) && !self.event(number).passes_by(window)
    }

    /// Whether the event after a position is switched on and has a box that meets a window. The event itself is not looked at.
    fn is_near(&self, position: u32, window: Bounds) -> bool
        requires { position < length self.now.events }
        ensures near { IsTrue result → flag_at self.now (position + 1) ≡ Some true }
        ensures far { IsTrue (not result) → IsFar self.now position window }
    {
        let _len = self.len();
        let number = position + 1;
        self.may_write(number) && self.reach(number).meets(window)
    }

    /// The state before the event of this number, or after the last event.
    pub fn state_before(&self, number: u32) -> &Pipeline
        requires first { 1 ≤ number }
        requires last { number ≤ length self.now.events + 1 }
        ensures { result.now ≡ state_at self.now (number - 1) }
    {
        self.states.before(number as usize - 1)
    }

    /// Switches the event of this number on or off, and where it is a state event computes the states after it anew.
    pub fn set_on(&mut self, number: u32, on: bool)
        requires first { 1 ≤ number }
        requires last { number ≤ length self.old.events }
        ensures { self.new ≡ with_flag self.old number on }
    {
        let index = number as usize - 1;
        self.writers[index] = may_write(on, self.reaches[index]);
        self.states.set_on(&self.events, index, on);
    }
}

/// Whether a target may be so wide or high.
fn is_side(side: u32) -> bool
    ensures { result ≡ is_side side }
{
    (1..=MAX_SIDE).contains(&side)
}

/// Computes the boxes of all draws' triangles and of their groups, and lists these in cells over a target of this size. On want of memory
/// no event has changed.
fn list_triangles(
    events: &mut [Event],
    width: u32,
    height: u32,
    alloc: Global,
) -> Result<(), AllocError>
    ensures same { events.new ≡ events.old }
    ensures wanted { OnErr result Wanted }
{
    for event in events.iter_mut() {
        event.list_triangles(width, height, alloc)?;
    }
    Ok(())
}

/// The box of each event's pixels on a target of this size.
fn reaches_of(
    events: &[Event],
    width: u32,
    height: u32,
    alloc: Global,
) -> Result<Vec<Reach>, AllocError>
    requires width { width ≤ most_pixels }
    requires height { height ≤ most_pixels }
    ensures reaches { IfOk result (λ reaches. AreReaches width height events.now reaches.items) }
    ensures wanted { OnErr result Wanted }
{
    let mut reaches = fd_memory::room(alloc, events.len())?;
    for event in events {
        fd_memory::push(&mut reaches, event.reach(width, height))?;
    }
    Ok(reaches)
}

/// Whether an event is switched on and its box has a pixel.
fn may_write(on: bool, reach: Reach) -> bool
    ensures { result ≡ (on && not (is_empty (box_of reach))) }
{
    on && !reach.is_empty()
}

/// The same of each event, where all are switched on.
fn writers_of(reaches: &[Reach], alloc: Global) -> Result<Vec<bool>, AllocError>
    ensures writers { IfOk result (λ writers. writers.items ≡ map (λ reach. not (is_empty (box_of reach))) reaches.now) }
    ensures wanted { OnErr result Wanted }
{
    let mut writers = fd_memory::room(alloc, reaches.len())?;
    for reach in reaches {
        fd_memory::push(&mut writers, may_write(true, *reach))?;
    }
    Ok(writers)
}
