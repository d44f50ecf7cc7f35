//! The way of a move forward.
ghost use Rattle.std.specs.Prelude.{◌≡◌, true};

use crate::estimate::Area;
use fd_events::EventTable;

/// A move forward over events of a table, from the lowest position at which an owner stands to another one.
#[derive(Clone, Copy)]
pub(crate) struct Way<'a> {
    pub table: &'a EventTable,
    pub from: u32,
    pub to: u32,
    /// Whether the owners stand at one position. Those that forget do.
    pub together: bool,
    /// Where it draws.
    pub area: Area,
}

impl<'a> Way<'a> {
    /// By any tiles of the target, of owners that stand at one position.
    pub(crate) fn of(table: &'a EventTable, from: u32, to: u32) -> Way<'a>
        ensures table { result.table.now ≡ table.now }
        ensures from { result.from ≡ from }
        ensures to { result.to ≡ to }
        ensures together { result.together ≡ true }
    {
        Way {
            table,
            from,
            to,
            together: true,
            area: Area::of(table),
        }
    }
}
