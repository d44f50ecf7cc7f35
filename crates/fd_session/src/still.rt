//! The image of a frame, drawn forward alone.
ghost use Rattle.std.specs.Prelude.{◌≡◌, ◌<◌, ◌≤◌, length, IfOk, IfErr, OnErr};
ghost use Rattle.fd_memory.specs.Wanting.{Wanted};

use crate::answer::{Answer, SessionFault};
use crate::drive::Policy;
use crate::frame::Frame;
use crate::moves::go_forward;
use crate::way::Way;
use fd_crew::Free;
use fd_device::Progress;
use fd_events::EventTable;
use fd_frame::Shows;
use fd_tile::Piece;
use std::alloc::{AllocError, Global};
use std::marker::Model;
use std::thread::Threads;

/// The image of a frame at a position, drawn forward alone. What events overwrite is kept no longer than a slice.
#[derive(Drop)]
pub struct Still {
    // all owners stand at one position, and none of them keeps anything
    frame: Frame,
}

impl Model for Still {
    ghost use Rattle.std.specs.Prelude.{◌≤◌, true};
    ghost use Rattle.fd_crew.specs.Lanes.{opening_position};
    ghost use Rattle.fd_session.specs.Held.{HoldsAll};
    ghost use Rattle.fd_frame.specs.State.{State};

    ghost Value = { State };

    ghost view = { λ s. record { table = s.frame.table; position = opening_position s.frame.owners.items } };

    ghost invariant = { λ s. HoldsAll true s.frame.table s.frame.grid s.frame.owners.items × (1 ≤ s.frame.workers) × (s.frame.workers ≤ 64) };
}

impl Still {
    ghost use Rattle.fd_frame.specs.State.{opening, at_position};
    ghost use Rattle.fd_session.specs.Machine.{Jumps, OnWant};

    /// The image at position 0, which is drawn by at most so many workers. On want of memory the table is handed back.
    pub fn start(
        alloc: Global,
        table: EventTable,
        workers: u32,
    ) -> Result<Still, (EventTable, AllocError)>
        requires { (1 ≤ workers) × (workers ≤ 64) }
        ensures ok { IfOk result (λ still. still ≡ opening table) }
        ensures err { IfErr result (λ e. e.0 ≡ table) }
        ensures wanted { OnErr result Wanted }
    {
        let frame = Frame::open(alloc, table, workers)?;
        Ok(Still { frame })
    }

    /// Draws on to a position, or to the one before the first event that is refused memory, and gives that position.
    fn draw<R: Threads + Sync, T: Progress>(&mut self, rt: &R, to: u32, teller: &mut T) -> u32
        requires ahead { self.old.position ≤ to }
        requires within { to ≤ length self.old.table.events }
        ensures on { self.old.position ≤ result }
        ensures within { result ≤ to }
        ensures drawn { self.new ≡ at_position self.old result }
        ensures wanted { result < to → Wanted }
        ensures told { T.kept teller.new ≡ T.kept teller.old }
    {
        let from = self.position();
        let drive = self.frame.drive(Policy::Still, &Free);
        let way = Way::of(&self.frame.table, from, to);
        go_forward(rt, &mut self.frame.owners, &way, &drive, teller).unwrap_or(from)
    }

    /// Draws on to a position, slice by slice. It stops where an event is refused memory that is drawn by the calling thread alone. The teller is told after
    /// each slice but the last.
    pub fn go<R: Threads + Sync, T: Progress>(&mut self, rt: &R, to: u32, teller: &mut T) -> Answer
        requires { self.old.position ≤ to }
        ensures jumps { Jumps self.old to result self.new }
        ensures wanted { OnWant Wanted result }
        ensures told { T.kept teller.new ≡ T.kept teller.old }
    {
        if to > self.table().len() {
            return Answer::Refused(SessionFault::NoSuchPosition);
        }
        let at = self.draw(rt, to, teller);
        Answer::come(at, to)
    }

    /// How many events have been gone through.
    pub fn position(&self) -> u32
        ensures { result ≡ self.now.position }
    {
        self.frame.opening_position()
    }

    /// The table of the frame.
    pub fn table(&self) -> &EventTable
        ensures { result.now ≡ self.now.table }
    {
        &self.frame.table
    }
}

impl Shows for Still {
    ghost state = { λ still. still };

    fn table(&self) -> &EventTable {
        &self.frame.table
    }

    fn row_from(&self, x: u32, y: u32) -> Piece {
        self.frame.row_from(x, y)
    }
}

#[cfg(test)]
mod tests;
