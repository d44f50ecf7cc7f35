//! Next events of an owner that are clears.
ghost use Rattle.std.specs.Prelude.{◌≡◌, ◌<◌, ◌≤◌, length, true, false, IfSome};
ghost use Rattle.fd_owner.specs.Clears.{IsRunOf};
ghost use Rattle.fd_owner.specs.Step.{ClearsPast, IsSame};

use crate::next::number_past;
use crate::run::Run;
use fd_blend::Colour;
use fd_events::{Effect, EventTable};
use fd_tile::Tile;
use fd_undo::UndoStack;
use std::alloc::Global;
use std::marker::Model;

/// Next events of which each is a clear or writes nothing: up to which position they are, and how many clears among them the tile keeps by itself.
#[derive(Clone, Copy)]
pub struct Clears {
    pub to: u32,
    pub count: u32,
}

/// A table, and the clears that were found in it last: where one tile asked for them, others that stand where it did go through the same ones.
#[derive(Drop)]
pub struct FoundClears<'a> {
    alloc: Global,
    table: &'a EventTable,
    run: Option<Run>,
}

impl<'a> Model for FoundClears<'a> {
    ghost use Rattle.std.specs.Prelude.{IfSome};
    ghost use Rattle.fd_events.specs.Table.{Table};
    ghost use Rattle.fd_owner.specs.Clears.{IsRunOf};

    ghost Value = { Table };

    ghost view = { λ f. f.table.now };

    ghost invariant = { λ f. IfSome f.run (IsRunOf f.table.now) };
}

impl<'a> FoundClears<'a> {
    /// A table in which none were found yet.
    pub fn none(alloc: Global, table: &'a EventTable) -> FoundClears<'a>
        ensures { result ≡ table.now }
    {
        FoundClears {
            alloc,
            table,
            run: None,
        }
    }

    /// The table.
    pub(crate) fn table(&self) -> &'a EventTable
        ensures { result.now ≡ self.now }
    {
        self.table
    }

    /// The position up to which clears go that begin at another, on tiles of this colour and this depth, up to `to` at most. Where there are none, or no memory
    /// to know of them, it is where they would begin.
    pub(crate) fn find(&mut self, from: u32, before: (Colour, u16), to: u32) -> u32
        requires order { from ≤ to }
        requires last { to ≤ length self.old.events }
        ensures same { self.new ≡ self.old }
        ensures least { from ≤ result }
        ensures most { result ≤ to }
    {
        if let Some(run) = &self.run {
            if run.begins(from, before) && run.to() <= to {
                return run.to();
            }
        }
        match Run::find(self.alloc, self.table, from, before, to) {
            Some(run) => {
                let end = run.to();
                self.run = Some(run);
                end
            }
            None => from,
        }
    }

    /// The clears that were found last, if they begin at this position, on tiles of this colour and this depth, and end at another.
    pub(crate) fn run(&self, from: u32, before: (Colour, u16), to: u32) -> Option<&Run>
        ensures run { IfSome result (λ run. IsRunOf self.now run.now) }
        ensures begins { IfSome result (λ run. (run.now.from ≡ from) × (run.now.before ≡ before)) }
        ensures ends { IfSome result (λ run. run.now.to ≡ to) }
    {
        match &self.run {
            Some(run) if run.begins(from, before) && run.to() == to => Some(run),
            Some(_) | None => None,
        }
    }
}

/// Whether the event after a position is a clear that is switched on.
pub(crate) fn is_clear(table: &EventTable, position: u32) -> bool
    requires { position < length table.now.events }
{
    let number = number_past(table, position);
    table.is_on(number) && matches!(table.event(number).effect(), Effect::Clear(_))
}

/// Draws the event after a position, where it is a clear that is switched on and the pixels of a tile are known to be alike, and keeps what it overwrites in a
/// frame more. It says whether it did: else, and where there is no memory for it, nothing changes.
pub(crate) fn clear_past(
    table: &EventTable,
    position: u32,
    tile: &mut Tile,
    undo: &mut UndoStack,
) -> bool
    requires { position < length table.now.events }
    ensures drawn { result ≡ true → ClearsPast table.now position tile.old undo.old tile.new undo.new }
    ensures same { result ≡ false → IsSame tile.old undo.old tile.new undo.new }
{
    let number = number_past(table, position);
    table.is_on(number) && fd_draw::clear_alike(table.event(number), tile, undo).unwrap_or(false)
}
