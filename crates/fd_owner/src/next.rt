//! The next event of an owner.
ghost use Rattle.std.specs.Prelude.{◌≡◌, ℕ, ◌+◌, ◌^◌, ◌<◌, ◌≤◌, length, true, IsTrue, IfNone, IfSome, IsOk, OnOk, OnErr};
ghost use Rattle.fd_tile.specs.Place.{IsTilePlace};
ghost use Rattle.fd_draw.specs.Plan.{MayBeginAt};
ghost use Rattle.fd_owner.specs.Shown.{IsInside};
ghost use Rattle.fd_owner.specs.Step.{IsNext, IsSame, StepsOver};
ghost use Rattle.fd_owner.specs.Untouched.{IsUntouched, AreUntouched};
ghost use Rattle.fd_memory.specs.Wanting.{Wanted};

use fd_draw::{Demand, Plan};
use fd_events::{Event, EventTable, Pipeline};
use fd_tile::{Place, Tile};
use fd_undo::{Full, UndoStack};

/// The next event of an owner, which is switched on, and the state before it. Of its triangles none before the first one covers a pixel of the tile.
#[derive(Clone, Copy)]
pub(crate) struct Next<'a> {
    event: &'a Event,
    state: &'a Pipeline,
    first: u32,
}

impl<'a> Next<'a> {
    /// The event after a position. None where its box or what it lists tells that it writes nothing on a place.
    pub(crate) fn of(table: &'a EventTable, position: u32, place: Place) -> Option<Next<'a>>
        requires below { position < length table.now.events }
        requires placed { IsTilePlace place }
        requires inside { IsInside place table.now }
        ensures next { IfSome result (λ next. IsNext next.event.now next.state.now table.now position) }
        ensures first { IfSome result (λ next. MayBeginAt next.event.now place next.first) }
        ensures far { IfNone result (IsUntouched table.now position place) }
    {
        let number = number_past(table, position);
        if !table.may_write(number) || !table.reach(number).meets(fd_draw::box_of(place)) {
            return None;
        }
        let event = table.event(number);
        match fd_draw::first_listed(event, place) {
            Some(first) => Some(Next {
                event,
                state: table.state_before(number),
                first,
            }),
            None => None,
        }
    }

    /// Draws it on a tile, and keeps what it overwrites in a frame more. A refusal changes no pixel.
    pub(crate) fn draw(&self, tile: &mut Tile, undo: &mut UndoStack) -> Result<(), Full>
        requires { MayBeginAt self.now.event.now tile.old.place self.now.first }
        ensures { StepsOver self.now.event.now self.now.state.now tile.old undo.old result tile.new undo.new }
    {
        if fd_draw::clear_alike(self.event, tile, undo)? {
            return Ok(());
        }
        self.draw_planned(tile, undo)
    }

    /// The same by a plan, which is large: a clear of what is alike doesn't pay for its room.
    #[inline(never)]
    fn draw_planned(&self, tile: &mut Tile, undo: &mut UndoStack) -> Result<(), Full>
        requires { MayBeginAt self.now.event.now tile.old.place self.now.first }
        ensures { StepsOver self.now.event.now self.now.state.now tile.old undo.old result tile.new undo.new }
    {
        let mut plan = Plan::empty();
        plan.fill(self.event, self.state, tile.place(), self.first);
        let deep = fd_draw::writes_deep(self.event, self.state);
        make_room(plan.demand, deep, tile, undo)?;
        undo.begin();
        // of many small draws most write nothing on a tile
        if plan.demand.pixels > 0 {
            // where no other depth has a place, all pixels have the greatest
            let _deep = tile.is_deep();
            fd_draw::draw(self.event, self.state, &plan, tile, undo);
        }
        Ok(())
    }
}

/// The number of the event after a position.
pub(crate) fn number_past(table: &EventTable, position: u32) -> u32
    requires { position < length table.now.events }
    ensures { result ≡ position + 1 }
{
    // as the table's length fits, so does the number
    let _length = table.len();
    position + 1
}

/// The first position from this one on, and `to` at most, whose next event isn't seen to write nothing on a place.
pub(crate) fn pass_idle(table: &EventTable, from: u32, to: u32, place: Place) -> u32
    requires order { from ≤ to }
    requires last { to ≤ length table.now.events }
    requires placed { IsTilePlace place }
    ensures from { from ≤ result }
    ensures last { result ≤ to }
    ensures idle { AreUntouched table.now from result place }
{
    let mut position = from;
    while position < to && is_idle(table, position, place) {
        position += 1;
    }
    position
}

/// Whether the event after a position is seen to write nothing on a place in the state before it.
fn is_idle(table: &EventTable, position: u32, place: Place) -> bool
    requires below { position < length table.now.events }
    requires placed { IsTilePlace place }
    ensures { IsTrue result → IsUntouched table.now position place }
{
    let number = number_past(table, position);
    fd_draw::draws_nothing(table.event(number), table.state_before(number), place)
}

/// Takes the memory that an event wants which writes so much on a tile: where it writes any pixel that of the tile, and where it may write other depths than
/// the greatest that of depths, and that of what it overwrites.
fn make_room(demand: Demand, deep: bool, tile: &mut Tile, undo: &mut UndoStack) -> Result<(), Full>
    ensures same { IsSame tile.old undo.old tile.new undo.new }
    ensures made { OnOk result (0 < demand.pixels → tile.new.made ≡ true) }
    ensures deep { OnOk result (0 < demand.pixels → deep ≡ true → tile.new.deep ≡ true) }
    ensures room { OnOk result (undo.new ≡ record {
      frames = undo.old.frames;
      opens_fresh = undo.old.opens_fresh;
      frame_left = true;
      spans_left = demand.spans;
      pixels_left = demand.pixels;
    }) }
    ensures free { demand.spans ≡ 0 → demand.pixels ≡ 0 → length undo.old.frames + 1 < 2 ^ 64 → IsOk result }
    ensures wanted { OnErr result (length undo.old.frames < 4294967295 → Wanted) }
{
    if demand.pixels > 0 {
        if deep && tile.deepen().is_err() {
            return Err(Full);
        }
        if tile.make().is_err() {
            return Err(Full);
        }
    }
    undo.reserve(demand.spans, demand.pixels)
}
