ghost use Rattle.std.specs.Prelude.{◌≡◌, ℕ, ◌+◌, ◌-◌, ◌<◌, ◌≤◌, ◌++◌, [], length, take, drop, map, None, slice_get};
ghost use Rattle.std.specs.Prelude.{IsOk, OnOk, OnErr, true, false};
ghost use Rattle.fd_tile.specs.Place.{Holds, IsTilePlace};
ghost use Rattle.fd_tile.specs.Tile.{FillsPlace, pixels_of, row_in, pixel_in};
ghost use Rattle.fd_draw.specs.Area.{box_of_place};
ghost use Rattle.fd_owner.specs.History.{position, last_image, pixels_kept, pixels_recorded};
ghost use Rattle.fd_owner.specs.Shown.{gone_forward, gone_on_to, gone_back, gone_back_to, refused, forgotten, IsInside};
ghost use Rattle.fd_owner.specs.Step.{spans_past, pixels_past};
ghost use Rattle.fd_owner.specs.Untouched.{AreUntouched};
ghost use Rattle.fd_memory.specs.Wanting.{Wanted};

use crate::clears::{Clears, FoundClears, clear_past, is_clear};
use crate::next::{Next, number_past, pass_idle};
use fd_blend::Colour;
use fd_cover::Bounds;
use fd_events::EventTable;
use fd_tile::{Piece, Place, Tile};
use fd_undo::UndoStack;
use std::alloc::{AllocError, Global};
use std::marker::Model;
use thiserror::Error;

/// There was no memory for what the next event overwrites.
#[derive(Debug, Drop, Error)]
#[error("no memory for a step")]
pub struct Refused;

/// A tile and what each event overwrote on it; how often a step was refused, and at which position last.
#[derive(Drop)]
pub struct Owner {
    tile: Tile,
    undo: UndoStack,
    refusals: u64,
    refused_at: Option<u32>,
}

impl Model for Owner {
    ghost use Rattle.fd_owner.specs.Owner.{history_of, IsOwner, OpensFresh};
    ghost use Rattle.fd_owner.specs.Shown.{Shown};

    ghost Value = { Shown };

    ghost view = { λ o. record { place = o.tile.place; history = history_of o.tile o.undo; refusals = o.refusals; refused_at = o.refused_at } };

    ghost invariant = { λ o. IsOwner o.tile o.undo × OpensFresh o.tile o.undo };
}

impl Owner {
    /// An owner at position 0. Its history opens with the tile as it is.
    pub fn of(alloc: Global, tile: Tile) -> Owner
        ensures { result ≡ record { place = tile.place; history = record { opening = pixels_of tile; frames = [] }; refusals = 0; refused_at = None } }
    {
        let _place = tile.place();
        let mut undo = UndoStack::new(alloc);
        undo.tell_opening(tile.is_fresh());
        Owner {
            tile,
            undo,
            refusals: 0,
            refused_at: None,
        }
    }

    /// How many events the tile has gone through.
    pub fn position(&self) -> u32
        ensures { result ≡ position self.now.history }
    {
        self.undo.frames() as u32
    }

    /// How often a step was refused. The count stays at its greatest number.
    pub fn refusals(&self) -> u64
        ensures { result ≡ self.now.refusals }
    {
        self.refusals
    }

    /// The position at which a step was refused last.
    pub fn refused_at(&self) -> Option<u32>
        ensures { result ≡ self.now.refused_at }
    {
        self.refused_at
    }

    /// Where the tile lies. The image that is shown has each of its pixels.
    pub fn place(&self) -> Place
        ensures value { result ≡ self.now.place }
        ensures filled { FillsPlace self.now.place (last_image self.now.history) }
    {
        self.tile.place()
    }

    /// The box of its tile.
    pub fn bounds(&self) -> Bounds
        ensures value { result ≡ box_of_place self.now.place }
        ensures placed { IsTilePlace self.now.place }
    {
        fd_draw::box_of(self.tile.place())
    }

    /// The colour of pixel (x, y) of the image that is shown.
    pub fn pixel(&self, x: u32, y: u32) -> Colour
        requires { Holds self.now.place x y }
        ensures { result ≡ (pixel_in self.now.place (last_image self.now.history) x y).0 }
    {
        self.tile.get(x, y)
    }

    /// The depth of pixel (x, y) of the image that is shown.
    pub fn depth(&self, x: u32, y: u32) -> u16
        requires { Holds self.now.place x y }
        ensures { result ≡ (pixel_in self.now.place (last_image self.now.history) x y).1 }
    {
        self.tile.depth(x, y)
    }

    /// The colours of row y of the image that is shown, from column x on, left to right.
    pub fn row_from(&self, x: u32, y: u32) -> Piece
        requires { Holds self.now.place x y }
        ensures value { result.items ≡ drop (x - self.now.place.left) (map (λ pixel. pixel.0) (row_in self.now.place (last_image self.now.history) y)) }
        ensures long { x + length result.items ≡ self.now.place.left + self.now.place.width }
    {
        let _place = self.tile.place();
        self.tile.row_from(x, y)
    }

    /// How many pixels all events overwrote.
    pub fn recorded(&self) -> u64
        ensures { result ≡ pixels_recorded self.now.history }
    {
        self.undo.recorded()
    }

    /// The colour and depth that pixel (x, y) had just before the event of this number (from 1) wrote it for the n-th time (from 0).
    pub fn kept(&self, event: u32, x: u32, y: u32, n: usize) -> Option<(Colour, u16)>
        requires first { 1 ≤ event }
        requires last { event ≤ position self.now.history }
        ensures { result ≡ slice_get (pixels_kept self.now.place self.now.history event x y) n }
    {
        self.undo.kept(event as usize - 1, x, y, n)
    }

    /// Adds to a list the first colours and depths, at most so many, that a pixel had just before the event of this number (from 1) wrote it.
    pub fn add_kept(
        &self,
        event: u32,
        pixel: (u32, u32),
        count: usize,
        kept: &mut Vec<(Colour, u16)>,
    ) -> Result<(), AllocError>
        requires first { 1 ≤ event }
        requires last { event ≤ position self.now.history }
        ensures kept { OnOk result (kept.new.items ≡ kept.old.items ++ take count (pixels_kept self.now.place self.now.history event pixel.0 pixel.1)) }
        ensures wanted { OnErr result Wanted }
    {
        self.undo.add_kept(event as usize - 1, pixel, count, kept)
    }

    /// Goes through the next event. A refusal changes nothing but what is told of refusals. An event that writes nothing on the tile isn't refused.
    pub fn forward(&mut self, table: &EventTable) -> Result<(), Refused>
        requires below { position self.old.history < length table.now.events }
        requires inside { IsInside self.old.place table.now }
        ensures ok { OnOk result (self.new ≡ gone_forward table.now self.old) }
        ensures refused { OnErr result (self.new ≡ refused self.old) }
        ensures free { spans_past table.now (position self.old.history) self.old.place ≡ 0
            → pixels_past table.now (position self.old.history) self.old.place ≡ 0 → IsOk result }
        ensures wanted { OnErr result Wanted }
    {
        let position = self.position();
        let number = number_past(table, position);
        let Some(next) = Next::of(table, position, self.tile.place()) else {
            self.pass_to(table, number);
            return Ok(());
        };
        match next.draw(&mut self.tile, &mut self.undo) {
            Ok(()) => Ok(()),
            Err(_) => Err(self.refuse()),
        }
    }

    /// Tells of a step that was refused.
    #[cold]
    fn refuse(&mut self) -> Refused
        ensures { self.new ≡ refused self.old }
    {
        self.refusals = self.refusals.saturating_add(1);
        self.refused_at = Some(self.position());
        Refused
    }

    /// Goes back over the last event: its frame is put back, and no event is read.
    pub fn back(&mut self)
        requires { 0 < position self.old.history }
        ensures { self.new ≡ gone_back self.old }
    {
        self.back_to(self.position() - 1);
    }

    /// Goes back to a position: frames are put back, and no event is read. Where nothing was drawn on the tile at position 0, and that is the position, no
    /// frame is.
    pub fn back_to(&mut self, to: u32)
        requires { to ≤ position self.old.history }
        ensures { self.new ≡ gone_back_to to self.old }
    {
        if to == 0 && self.undo.opens_fresh() {
            self.undo.clear();
            self.tile.renew();
            return;
        }
        self.undo.undo_to(to as usize, &mut self.tile);
    }

    /// The first position from the owner's own on, and `to` at most, whose next event may write on the tile, as far as boxes, flags and its state tell. It
    /// stands in its callers, as most tiles are asked for nothing else.
    #[inline(always)]
    pub fn next_near(&self, table: &EventTable, to: u32) -> u32
        requires on { position self.now.history ≤ to }
        requires last { to ≤ length table.now.events }
        requires inside { IsInside self.now.place table.now }
        ensures least { position self.now.history ≤ result }
        ensures most { result ≤ to }
        ensures far { AreUntouched table.now (position self.now.history) result self.now.place }
    {
        let (place, window) = (self.place(), self.bounds());
        let mut near = table.next_near(self.position(), to, window);
        let mut live = pass_idle(table, near, to, place);
        while near < live {
            near = table.next_near(live, to, window);
            live = pass_idle(table, near, to, place);
        }
        near
    }

    /// Goes at once through next events that write nothing on the tile, to this position. It takes no memory, and can't be refused.
    pub fn pass_to(&mut self, table: &EventTable, to: u32)
        requires on { position self.old.history ≤ to }
        requires last { to ≤ length table.now.events }
        requires far { AreUntouched table.now (position self.old.history) to self.old.place }
        ensures moved { self.new ≡ gone_on_to table.now to self.old }
        ensures at { position self.new.history ≡ to }
    {
        let (_place, _table) = (self.tile.place(), table);
        self.undo.pass_to(to as usize);
    }

    /// The next events, up to position `to` at most, that `clear_to` goes through: those up to the last clear before one that may write otherwise, as far as
    /// boxes and flags tell; none where the pixels of the tile aren't known to be alike. Where the tile isn't made they may be those that were found last.
    pub fn next_clears(&self, found: &mut FoundClears<'_>, to: u32) -> Clears
        requires on { position self.now.history ≤ to }
        requires last { to ≤ length found.old.events }
        ensures same { found.new ≡ found.old }
        ensures least { position self.now.history ≤ result.to }
        ensures most { result.to ≤ to }
    {
        let position = self.position();
        let none = Clears {
            to: position,
            count: 0,
        };
        let (Some(colour), Some(depth)) = (self.tile.flat_colour(), self.tile.flat_depth()) else {
            return none;
        };
        if position >= to || !is_clear(found.table(), position) {
            return none;
        }
        if !self.tile.is_made() && self.recorded() == 0 {
            let end = found.find(position, (colour, depth), to);
            if end > position {
                return Clears { to: end, count: 0 };
            }
        }
        self.own_clears(found.table(), to)
    }

    /// The same of the tile's own.
    fn own_clears(&self, table: &EventTable, to: u32) -> Clears
        requires on { position self.now.history ≤ to }
        requires last { to ≤ length table.now.events }
        ensures least { position self.now.history ≤ result.to }
        ensures most { result.to ≤ to }
    {
        let window = self.bounds();
        let mut near = self.position();
        let mut clears = Clears { to: near, count: 0 };
        while near < to && is_clear(table, near) {
            near += 1;
            clears = Clears {
                to: near,
                count: clears.count.saturating_add(1),
            };
            if near < to && !is_clear(table, near) {
                near = table.next_near(near, to, window);
            }
        }
        clears
    }

    /// Goes at once through these next events, as far as they are clears or write nothing, the pixels of the tile are known to be alike and there is memory
    /// for what they overwrite. It can't be refused: it ends before the first event that wants another step. What clears overwrite that were found last is
    /// kept once for all tiles that go through them.
    pub fn clear_to(&mut self, found: &FoundClears<'_>, clears: Clears)
        requires on { position self.old.history ≤ clears.to }
        requires last { clears.to ≤ length found.now.events }
        requires inside { IsInside self.old.place found.now }
        ensures moved { self.new ≡ gone_on_to found.now (position self.new.history) self.old }
        ensures least { position self.old.history ≤ position self.new.history }
        ensures most { position self.new.history ≤ clears.to }
    {
        if !self.take_found(found, clears.to) {
            self.clear_own(found.table(), clears);
        }
    }

    /// Goes through the clears that were found last, if they begin where it stands and end at this position. It says whether it did: else nothing changes.
    fn take_found(&mut self, found: &FoundClears<'_>, to: u32) -> bool
        requires inside { IsInside self.old.place found.now }
        ensures moved { result ≡ true → self.new ≡ gone_on_to found.now (position self.new.history) self.old }
        ensures least { result ≡ true → position self.old.history ≤ position self.new.history }
        ensures most { result ≡ true → position self.new.history ≤ to }
        ensures no { result ≡ false → self.new ≡ self.old }
    {
        let (position, _place) = (self.position(), self.tile.place());
        let (Some(colour), Some(depth)) = (self.tile.flat_colour(), self.tile.flat_depth()) else {
            return false;
        };
        if self.tile.is_made() {
            return false;
        }
        match found.run(position, (colour, depth), to) {
            Some(run) => run.take(&mut self.tile, &mut self.undo),
            None => false,
        }
    }

    /// Goes one by one through next events, as `clear_to` does.
    fn clear_own(&mut self, table: &EventTable, clears: Clears)
        requires on { position self.old.history ≤ clears.to }
        requires last { clears.to ≤ length table.now.events }
        requires inside { IsInside self.old.place table.now }
        ensures moved { self.new ≡ gone_on_to table.now (position self.new.history) self.old }
        ensures least { position self.old.history ≤ position self.new.history }
        ensures most { position self.new.history ≤ clears.to }
    {
        self.expect(clears.count);
        while self.position() < clears.to {
            if self.clear(table) {
                continue;
            }
            let near = self.next_near(table, clears.to);
            if near == self.position() {
                return;
            }
            self.pass_to(table, near);
        }
    }

    /// Makes room at once for so many clears, where there are several: one makes its own.
    fn expect(&mut self, clears: u32)
        ensures { self.new ≡ self.old }
    {
        if clears > 1 {
            self.undo.expect_alike(clears as usize);
        }
    }

    /// Goes through the next event, where it is a clear that is switched on and the pixels of the tile are known to be alike. It says whether it did: else, and
    /// where there is no memory for it, nothing changes.
    fn clear(&mut self, table: &EventTable) -> bool
        requires below { position self.old.history < length table.now.events }
        ensures yes { result ≡ true → self.new ≡ gone_forward table.now self.old }
        ensures no { result ≡ false → self.new ≡ self.old }
    {
        let position = self.position();
        let (_place, _number) = (self.tile.place(), number_past(table, position));
        clear_past(table, position, &mut self.tile, &mut self.undo)
    }

    /// Forgets what all events overwrote, and gives its memory back. The position and the image that is shown stay, and the way back shows that image alone.
    pub fn forget(&mut self)
        ensures { self.new ≡ forgotten self.old }
    {
        self.undo.forget();
    }
}

#[cfg(test)]
mod tests;
