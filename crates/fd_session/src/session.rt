//! A frame at a position, stepped forward and back.
ghost use Rattle.std.specs.Prelude.{◌≡◌, ◌≤◌, ◌+◌, false, Some, not, length, IfOk, IfErr, OnErr, MatchResult};
ghost use Rattle.fd_memory.specs.Wanting.{Wanted};

use crate::answer::{Answer, SessionFault};
use crate::drive::Policy;
use crate::frame::Frame;
use crate::moves::go_forward;
use crate::near::{draw_reached, level, take_back};
use crate::redraw::go_again;
use crate::switch::Switch;
use crate::way::Way;
use fd_blend::Colour;
use fd_crew::{Free, Gate};
use fd_device::{Progress, Untold};
use fd_events::{EventTable, Pipeline};
use fd_frame::Shows;
use fd_history::{Entry, history_near};
use fd_owner::Owner;
use fd_tile::Piece;
use std::alloc::{AllocError, Global};
use std::marker::Model;
use std::thread::Threads;

/// A frame at a position. Position k has gone through the first k events.
#[derive(Drop)]
pub struct Session {
    // an owner may stand elsewhere than the session where its tile is the same there
    frame: Frame,
    position: u32,
}

impl Model for Session {
    ghost use Rattle.std.specs.Prelude.{◌≤◌};
    ghost use Rattle.fd_session.specs.Near.{HoldsNear};
    ghost use Rattle.fd_frame.specs.State.{State};

    ghost Value = { State };

    ghost view = { λ s. record { table = s.frame.table; position = s.position } };

    ghost invariant = { λ s. HoldsNear s.frame.table s.frame.grid s.position s.frame.owners.items × (1 ≤ s.frame.workers) × (s.frame.workers ≤ 64) };
}

impl Session {
    ghost use Rattle.std.specs.Prelude.{◌<◌, ◌*◌, IfSome, IfNone};
    ghost use Rattle.std.specs.Result.{result_map_both, result_unwrap_or};
    ghost use Rattle.fd_tile.specs.Place.{Holds};
    ghost use Rattle.fd_tile.specs.Tile.{pixel_in};
    ghost use Rattle.fd_events.specs.Image.{pixel_at};
    ghost use Rattle.fd_owner.specs.History.{last_image};
    ghost use Rattle.fd_events.specs.Limits.{most_triangles, most_events};
    ghost use Rattle.fd_events.specs.Table.{state_at, flag_at};
    ghost use Rattle.fd_session.specs.Near.{StandsNear};
    ghost use Rattle.fd_frame.specs.State.{State, opening, at_position, with_flag_at};
    ghost use Rattle.fd_session.specs.Machine.{Steps, GoesBack, Jumps, RefusesSwitch, Switches, ShowsPixel};
    ghost use Rattle.fd_frame.specs.State.{IsState};
    ghost use Rattle.fd_session.specs.Machine.{ShowsDepth, ShowsFlag, ShowsHistory, OnMemory, Passes, OnWant};

    /// A session at position 0, whose moves have at most so many workers. On want of memory the table is handed back.
    pub fn start(
        alloc: Global,
        table: EventTable,
        workers: u32,
    ) -> Result<Session, (EventTable, AllocError)>
        requires { (1 ≤ workers) × (workers ≤ 64) }
        ensures ok { IfOk result (λ session. session ≡ opening table) }
        ensures err { IfErr result (λ e. e.0 ≡ table) }
        ensures wanted { OnErr result Wanted }
    {
        let frame = Frame::open(alloc, table, workers)?;
        Ok(Session { frame, position: 0 })
    }

    /// Goes forward to a position, or to the one before the first event that is refused, and gives that position. It takes the owners of tiles that the
    /// events reach, slice by slice.
    fn forward<R: Threads + Sync, T: Progress>(
        &mut self,
        rt: &R,
        to: u32,
        teller: &mut T,
    ) -> Result<u32, AllocError>
        requires ahead { self.old.position ≤ to }
        requires within { to ≤ length self.old.table.events }
        ensures on { self.old.position ≤ result_unwrap_or result self.old.position }
        ensures within { result_unwrap_or result self.old.position ≤ to }
        ensures moved { self.new ≡ at_position self.old (result_unwrap_or result self.old.position) }
        ensures wanted { MatchResult result (λ at. at < to → Wanted) (λ _. Wanted) }
        ensures told { T.kept teller.new ≡ T.kept teller.old }
    {
        let drive = self.frame.drive(Policy::Slices, &Free);
        let way = Way::of(&self.frame.table, self.position, to);
        let run = draw_reached(rt, &mut self.frame.owners, &way, &drive, teller);
        self.position = run.unwrap_or(way.from);
        run
    }

    /// The same with all owners at once, each of which passes the gate before each event.
    fn forward_gated<R: Threads + Sync, G: Gate>(
        &mut self,
        rt: &R,
        to: u32,
        gate: &G,
    ) -> Result<u32, AllocError>
        requires ahead { self.old.position ≤ to }
        requires within { to ≤ length self.old.table.events }
        ensures on { self.old.position ≤ result_unwrap_or result self.old.position }
        ensures within { result_unwrap_or result self.old.position ≤ to }
        ensures moved { self.new ≡ at_position self.old (result_unwrap_or result self.old.position) }
        ensures wanted { MatchResult result (λ at. at < to → Wanted) (λ _. Wanted) }
        ensures passed { Passes (G.opened gate.now) self.old self.new }
    {
        let drive = self.frame.drive(Policy::Whole, gate);
        let way = Way::of(&self.frame.table, self.position, to);
        level(&mut self.frame.owners, way.table, way.from);
        let run = go_forward(rt, &mut self.frame.owners, &way, &drive, &mut Untold);
        self.position = run.unwrap_or(way.from);
        run
    }

    /// Goes back to a position.
    fn back_to(&mut self, to: u32)
        requires { to ≤ self.old.position }
        ensures { self.new ≡ at_position self.old to }
    {
        take_back(&mut self.frame.owners, &self.frame.table, self.position, to);
        self.position = to;
    }

    /// What a jump answers that does not go forward: one to a position that there is not is refused, and one back is gone.
    fn jump_back(&mut self, to: u32) -> Option<Answer>
        ensures jumped { IfSome result (λ answer. Jumps self.old to answer self.new × (self.new.position ≤ self.old.position)) }
        ensures wanted { IfSome result (OnWant Wanted) }
        ensures ahead { IfNone result ((self.new ≡ self.old) × (self.old.position < to) × (to ≤ length self.old.table.events)) }
    {
        if to > self.table().len() {
            return Some(Answer::Refused(SessionFault::NoSuchPosition));
        }
        if to > self.position() {
            return None;
        }
        self.back_to(to);
        Some(Answer::Moved { at: to })
    }

    /// Goes through the next event. On want of memory nothing changes.
    pub fn step<R: Threads + Sync>(&mut self, rt: &R) -> Answer
        ensures steps { Steps self.old result self.new }
        ensures wanted { OnWant Wanted result }
    {
        let position = self.position();
        if position == self.table().len() {
            return Answer::Refused(SessionFault::AtEnd);
        }
        self.goto(rt, position + 1)
    }

    /// Jumps to a position. A jump forward may stop before it. It goes slice by slice, so that where memory runs out all earlier slices stay.
    pub fn goto<R: Threads + Sync>(&mut self, rt: &R, to: u32) -> Answer
        ensures jumps { Jumps self.old to result self.new }
        ensures wanted { OnWant Wanted result }
    {
        self.go(rt, to, &mut Untold)
    }

    /// The same. The teller is told after each slice but the last how far the jump has come.
    pub fn go<R: Threads + Sync, T: Progress>(&mut self, rt: &R, to: u32, teller: &mut T) -> Answer
        ensures jumps { Jumps self.old to result self.new }
        ensures told { T.kept teller.new ≡ T.kept teller.old }
        ensures wanted { OnWant Wanted result }
    {
        if let Some(answer) = self.jump_back(to) {
            return answer;
        }
        let run = self.forward(rt, to, teller);
        Answer::of(run, to)
    }

    /// Jumps to a position, by all workers. On the way forward each tile passes the gate before each of its events.
    pub fn goto_gated<R: Threads + Sync, G: Gate>(&mut self, rt: &R, to: u32, gate: &G) -> Answer
        ensures jumps { Jumps self.old to result self.new }
        ensures passed { Passes (G.opened gate.now) self.old self.new }
        ensures wanted { OnWant Wanted result }
    {
        if let Some(answer) = self.jump_back(to) {
            return answer;
        }
        let run = self.forward_gated(rt, to, gate);
        Answer::of(run, to)
    }

    /// Why an event can't be switched on or off.
    fn can_switch(&self, number: u32, on: bool) -> Result<(), SessionFault>
        ensures ok { IfOk result (λ _. flag_at self.now.table number ≡ Some (not on)) }
        ensures err { IfErr result (λ fault. RefusesSwitch self.now number on fault) }
    {
        if self.is_on(number)? == on {
            return Err(SessionFault::AlreadySo);
        }
        Ok(())
    }

    /// Sets the flag of an event. Where it was gone through, it and the ones after it are drawn anew. Gives the position that was reached.
    fn set_on<R: Threads + Sync>(&mut self, rt: &R, number: u32, on: bool) -> u32
        requires { flag_at self.old.table number ≡ Some (not on) }
        ensures low { number ≤ self.old.position → number ≤ result + 1 }
        ensures high { result ≤ self.old.position }
        ensures stays { self.old.position < number → result ≡ self.old.position }
        ensures switched { self.new ≡ with_flag_at self.old number on result }
        ensures wanted { result < self.old.position → Wanted }
    {
        let drive = self.frame.drive(Policy::Slices, &Free);
        level(&mut self.frame.owners, &self.frame.table, self.position);
        if number > self.position {
            self.frame.table.set_on(number, on);
            return self.position;
        }
        let switch = Switch::make(&mut self.frame.table, number, on, self.position);
        let table = &self.frame.table;
        self.position = go_again(rt, &mut self.frame.owners, table, &switch, &drive);
        self.position
    }

    /// Switches an event on or off. Where it was gone through, it and the ones after it are drawn anew, which may stop before the position.
    pub fn switch<R: Threads + Sync>(&mut self, rt: &R, number: u32, on: bool) -> Answer
        ensures switches { Switches self.old number on result self.new }
        ensures wanted { OnWant Wanted result }
    {
        if let Err(fault) = self.can_switch(number, on) {
            return Answer::Refused(fault);
        }
        let position = self.position();
        let at = self.set_on(rt, number, on);
        Answer::come(at, position)
    }

    /// Goes back over the last event, and gives the new position.
    pub fn back(&mut self) -> Result<u32, SessionFault>
        ensures { GoesBack self.old result self.new }
    {
        let position = self.position();
        if position == 0 {
            return Err(SessionFault::AtStart);
        }
        self.back_to(position - 1);
        Ok(position - 1)
    }

    /// How many events have been gone through.
    pub fn position(&self) -> u32
        ensures position { result ≡ self.now.position }
        ensures valid { IsState self.now }
    {
        self.position
    }

    /// The table, with its flags as they are now.
    pub fn table(&self) -> &EventTable
        ensures { result.now ≡ self.now.table }
    {
        &self.frame.table
    }

    /// Whether an event is switched on.
    pub fn is_on(&self, number: u32) -> Result<bool, SessionFault>
        ensures { ShowsFlag self.now number result }
    {
        if number < 1 || number > self.table().len() {
            return Err(SessionFault::NoSuchEvent);
        }
        Ok(self.table().is_on(number))
    }

    /// The state at the session's position, which is the state before the next event.
    pub fn state(&self) -> &Pipeline
        ensures { result.now ≡ state_at self.now.table self.now.position }
    {
        self.table().state_before(self.position() + 1)
    }

    /// The owner of the tile that holds a pixel, if there is such a pixel.
    fn owner_of(&self, x: u32, y: u32) -> Result<&Owner, SessionFault>
        ensures inside { IfOk result (λ _. (x < self.now.table.width) × (y < self.now.table.height)) }
        ensures holds { IfOk result (λ owner. Holds owner.now.place x y) }
        ensures near { IfOk result (λ owner. StandsNear self.now.table self.now.position owner.now) }
        ensures shows { IfOk result (λ owner. pixel_in owner.now.place (last_image owner.now.history) x y ≡ pixel_at self.now.table self.now.position x y) }
        ensures err { IfErr result (λ fault. ShowsPixel self.now x y (Err fault)) }
    {
        if x >= self.table().width() || y >= self.table().height() {
            return Err(SessionFault::NoSuchPixel);
        }
        Ok(self.frame.owner_of(x, y))
    }

    /// The colour of a pixel at the session's position.
    pub fn pixel(&self, x: u32, y: u32) -> Result<Colour, SessionFault>
        ensures { ShowsPixel self.now x y result }
    {
        Ok(self.owner_of(x, y)?.pixel(x, y))
    }

    /// The depth of a pixel at the session's position.
    pub fn depth(&self, x: u32, y: u32) -> Result<u16, SessionFault>
        ensures { ShowsDepth self.now x y result }
    {
        Ok(self.owner_of(x, y)?.depth(x, y))
    }

    /// What the switched-on events up to the session's position did to a pixel, in order.
    pub fn history(&self, alloc: Global, x: u32, y: u32) -> Result<Vec<Entry>, SessionFault>
        ensures shows { ShowsHistory self.now x y (result_map_both (λ entries. entries.items) (λ fault. fault) result) }
        ensures few { IfOk result (λ entries. length entries.items ≤ most_triangles * most_events) }
        ensures wanted { OnMemory Wanted result }
    {
        match history_near(
            alloc,
            &self.frame.table,
            self.owner_of(x, y)?,
            self.position,
            (x, y),
        ) {
            Ok(entries) => Ok(entries),
            Err(_) => Err(SessionFault::Memory),
        }
    }
}

impl Shows for Session {
    ghost state = { λ session. session };

    fn table(&self) -> &EventTable {
        &self.frame.table
    }

    fn row_from(&self, x: u32, y: u32) -> Piece {
        self.frame.row_from(x, y)
    }
}

#[cfg(test)]
mod tests;
