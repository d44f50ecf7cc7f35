//! The frame under a session and under a still: an owner for each tile of a table's target.
ghost use Rattle.std.specs.Prelude.{◌≡◌, ℕ, ◌+◌, ◌<◌, ◌≤◌, Bool, length, map, All, IfOk, IfErr, OnErr};
ghost use Rattle.std.specs.List.{range_with_len};
ghost use Rattle.fd_tile.specs.Grid.{tile_count};
ghost use Rattle.fd_tile.specs.Place.{Holds};
ghost use Rattle.fd_events.specs.Image.{colour_at};
ghost use Rattle.fd_events.specs.Table.{Table};
ghost use Rattle.fd_crew.specs.Lanes.{opening_position};
ghost use Rattle.fd_session.specs.Held.{HoldsAll, ShowsAt, places_of, first_places};
ghost use Rattle.fd_session.specs.Near.{StandsNear};
ghost use Rattle.fd_memory.specs.Wanting.{Wanted};

use crate::drive::{Drive, Policy};
use fd_crew::Gate;
use fd_events::EventTable;
use fd_owner::Owner;
use fd_tile::{Grid, Piece, Tile};
use std::alloc::{AllocError, Global};

/// The owners of a target's tiles, and what takes them forward.
#[derive(Drop)]
pub(crate) struct Frame {
    pub table: EventTable,
    pub grid: Grid,
    /// One for each tile of the grid.
    pub owners: Vec<Owner>,
    /// The most that a slice starts.
    pub workers: u32,
    pub alloc: Global,
}

impl Frame {
    /// A frame with all owners at position 0. On want of memory the table is handed back.
    pub(crate) fn open(
        alloc: Global,
        table: EventTable,
        workers: u32,
    ) -> Result<Frame, (EventTable, AllocError)>
        ensures table { IfOk result (λ frame. frame.table ≡ table) }
        ensures workers { IfOk result (λ frame. frame.workers ≡ workers) }
        ensures opened { IfOk result (λ frame. (forgets : Bool) → HoldsAll forgets frame.table frame.grid frame.owners.items
            × (opening_position frame.owners.items ≡ 0)) }
        ensures err { IfErr result (λ e. e.0 ≡ table) }
        ensures wanted { OnErr result Wanted }
    {
        match owners_of(alloc, &table) {
            Ok((grid, owners)) => Ok(Frame {
                table,
                grid,
                owners,
                workers,
                alloc,
            }),
            Err(refused) => Err((table, refused)),
        }
    }

    /// The position at which the first owner stands.
    pub(crate) fn opening_position(&self) -> u32
        ensures { result ≡ opening_position self.now.owners.items }
    {
        match self.owners.first() {
            Some(owner) => owner.position(),
            None => 0,
        }
    }

    /// How a move forward is handed to the crew.
    pub(crate) fn drive<'a, G: Gate>(&self, policy: Policy, gate: &'a G) -> Drive<'a, G>
        ensures policy { result.policy ≡ policy }
        ensures workers { result.workers ≡ self.now.workers }
        ensures gate { result.gate.now ≡ gate.now }
    {
        Drive {
            policy,
            workers: self.workers,
            alloc: self.alloc,
            gate,
        }
    }

    /// The owner of the tile that holds a pixel.
    pub(crate) fn owner_of(&self, x: u32, y: u32) -> &Owner
        requires column { x < self.now.grid.width }
        requires row { y < self.now.grid.height }
        requires places { places_of self.now.owners.items ≡ first_places self.now.grid (tile_count self.now.grid) }
        ensures holds { Holds result.now.place x y }
        ensures within { result.now.place.left + result.now.place.width ≤ self.now.grid.width }
        ensures narrow { result.now.place.width ≤ 32 }
        ensures near { (table : Table) (k : ℕ) → All (StandsNear table k) self.now.owners.items → StandsNear table k result.now }
        ensures shows { (table : Table) (k : ℕ) → All (ShowsAt table k) self.now.owners.items → ShowsAt table k result.now }
    {
        &self.owners[self.grid.tile_of(x, y)]
    }

    /// The colours of row y where the owners stand, from column x to the right border of the tile there.
    pub(crate) fn row_from(&self, x: u32, y: u32) -> Piece
        requires column { x < self.now.grid.width }
        requires row { y < self.now.grid.height }
        requires places { places_of self.now.owners.items ≡ first_places self.now.grid (tile_count self.now.grid) }
        ensures some { 0 < length result.items }
        ensures inside { x + length result.items ≤ self.now.grid.width }
        ensures colours { (table : Table) (k : ℕ) → All (ShowsAt table k) self.now.owners.items
            → result.items ≡ map (λ column. colour_at table k column y) (range_with_len x (length result.items)) }
    {
        self.owner_of(x, y).row_from(x, y)
    }
}

/// The tiles of a table's target, and an owner of each at position 0. A tile takes its memory when an event first draws on it.
fn owners_of(alloc: Global, table: &EventTable) -> Result<(Grid, Vec<Owner>), AllocError>
    ensures opened { IfOk result (λ opened. (forgets : Bool) → HoldsAll forgets table.now opened.0 opened.1.items × (opening_position opened.1.items ≡ 0)) }
    ensures wanted { OnErr result Wanted }
{
    let grid = Grid::new(table.width(), table.height()).unwrap();
    let mut owners = fd_memory::room(alloc, grid.count())?;
    for number in 0..grid.count() {
        let tile = Tile::blank(alloc, grid.place(number));
        fd_memory::push(&mut owners, Owner::of(alloc, tile))?;
    }
    Ok((grid, owners))
}
