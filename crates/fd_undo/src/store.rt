//! The frames of a stack that are stored.
ghost use Rattle.std.specs.Prelude.{◌≡◌, ℕ, ◌+◌, ◌-◌, ◌*◌, ◌^◌, ◌<◌, ◌≤◌, true, false, [], ◌∷◌, ◌++◌, List, length};
ghost use Rattle.std.specs.Prelude.{All, slice_get, slice_index_or, take, Some, None, IfOk, IsOk, IfSome, IfNone, OnOk, OnErr, replicate};
ghost use Rattle.std.specs.List.{zip};
ghost use Rattle.fd_snap.specs.Limits.{most_pixels};
ghost use Rattle.fd_tile.specs.Place.{Holds, IsTilePlace};
ghost use Rattle.fd_undo.specs.Frame.{kept_row, kept_place, kept_at, alike, restored, IsAlike, FitDepths, KeepsAll};
ghost use Rattle.fd_undo.specs.Alike.{kept_alike, based};
ghost use Rattle.fd_undo.specs.Store.{stored_of, HoldFrames};
ghost use Rattle.fd_undo.specs.SpanSlices.{AreSpanSlices, kept_in_slices};
ghost use Rattle.fd_undo.specs.Block.{KeptFrame, Filled, newest, others, keeping_row, found, first_number, Rise};
ghost use Rattle.fd_undo.specs.Stack.{no_store, stored_in, all_stored, HaveFrames};
ghost use Rattle.fd_undo.specs.Room.{IsWithin, left_in};
ghost use Rattle.fd_memory.specs.Wanting.{Wanted};

use crate::block::Block;
use crate::blocks::Blocks;
use crate::kept::{add_kept_in, kept_in};
use crate::restore::put_frame;
use crate::room::Room;
use crate::shared::{AlikeFrames, Base};
use crate::span_slices::SpanSlices;
use fd_blend::Colour;
use fd_memory::boxed;
use fd_tile::{Place, Tile};
use std::alloc::{AllocError, Global};
use std::marker::Model;
use std::mem;

/// The blocks of stored frames.
#[derive(Drop)]
pub(crate) struct Body {
    // the oldest frames, where they stand in a list that other stacks share
    base: Option<Base>,
    // the older ones of its own: each block has one
    full: Blocks,
    // the newest of them, and room for more
    last: Block,
}

/// Where frames are stored.
#[derive(Drop)]
pub(crate) enum Kept {
    /// There are none.
    Nothing,
    /// All of them stand in a list that other stacks share.
    Shared(Base),
    /// In blocks, which stand behind a pointer, so that a tile without frames of its own is small.
    Own(Box<Body>),
}

/// Stored frames, oldest first, and room for more.
#[derive(Drop)]
pub(crate) struct Store {
    kept: Kept,
}

impl Model for Store {
    ghost use Rattle.fd_undo.specs.Stack.{Stored};
    ghost use Rattle.fd_undo.specs.Store.{stored_of, HoldFrames};

    ghost Value = { Stored };

    ghost view = { λ s. stored_of s.kept };

    ghost invariant = { λ s. HoldFrames s.kept };
}

impl Store {
    /// No frames, and no room, which takes no memory.
    pub(crate) fn empty() -> Store
        ensures { result ≡ no_store }
    {
        Store {
            kept: Kept::Nothing,
        }
    }

    /// Whether one more frame of so many spans, colours and depths has room in the last block.
    pub(crate) fn takes(&self, more: Room) -> bool
        ensures { result ≡ true → (0 < self.now.last.frames_left) × (more.spans ≤ self.now.last.spans_left)
            × (more.colours ≤ self.now.last.colours_left) × (more.depths ≤ self.now.last.depths_left) }
    {
        match &self.kept {
            Kept::Own(body) => body.last.takes(more),
            Kept::Nothing | Kept::Shared(_) => false,
        }
    }

    /// How much the last block holds.
    pub(crate) fn held(&self) -> Room {
        match &self.kept {
            Kept::Own(body) => body.last.held(),
            Kept::Nothing | Kept::Shared(_) => Room::NONE,
        }
    }

    /// Makes room for one frame that needs so much in the last block, or in a new one where it has no room. A frame without spans and pixels needs none.
    pub(crate) fn make_room(&mut self, alloc: Global, needed: Room) -> Result<(), AllocError>
        requires one { needed.frames ≡ 1 }
        ensures same { all_stored self.new.full self.new.last ≡ all_stored self.old.full self.old.last }
        ensures frame { OnOk result (0 < needed.spans → 0 < self.new.last.frames_left) }
        ensures spans { OnOk result (needed.spans ≤ self.new.last.spans_left) }
        ensures colours { OnOk result (needed.colours ≤ self.new.last.colours_left) }
        ensures depths { OnOk result (needed.depths ≤ self.new.last.depths_left) }
        ensures free { needed.spans ≡ 0 → needed.colours ≡ 0 → needed.depths ≡ 0 → IsOk result }
        ensures wanted { OnErr result Wanted }
    {
        if needed.keeps_nothing() || self.takes(needed) {
            return Ok(());
        }
        let wanted = needed.after(self.held());
        self.open_another(alloc, needed, wanted)
    }

    /// Makes room for one frame that needs so much in another block, which has as much as is wanted where there is memory for it.
    pub(crate) fn open_another(
        &mut self,
        alloc: Global,
        needed: Room,
        wanted: Room,
    ) -> Result<(), AllocError>
        requires one { needed.frames ≡ 1 }
        requires within { IsWithin needed wanted }
        ensures same { all_stored self.new.full self.new.last ≡ all_stored self.old.full self.old.last }
        ensures frame { OnOk result (0 < self.new.last.frames_left) }
        ensures spans { OnOk result (needed.spans ≤ self.new.last.spans_left) }
        ensures colours { OnOk result (needed.colours ≤ self.new.last.colours_left) }
        ensures depths { OnOk result (needed.depths ≤ self.new.last.depths_left) }
        ensures wanted { OnErr result Wanted }
    {
        if let Kept::Own(body) = &mut self.kept {
            return body.open_another(alloc, needed, wanted);
        }
        let body = Body {
            base: None,
            full: Blocks::new(alloc),
            last: new_block(alloc, wanted, needed)?,
        };
        let mut body = boxed(alloc, body)?;
        if let Kept::Shared(base) = mem::replace(&mut self.kept, Kept::Nothing) {
            body.base = Some(base);
        }
        self.kept = Kept::Own(body);
        Ok(())
    }

    /// Begins a frame in the last block, which keeps nothing yet.
    pub(crate) fn begin(&mut self, number: usize)
        requires room { 0 < self.old.last.frames_left }
        requires small { number < 2 ^ 32 }
        ensures full { self.new.full ≡ self.old.full }
        ensures frames { self.new.last.frames ≡ self.old.last.frames ++ record { number = number; kept = [] } ∷ [] }
        ensures spans_left { self.new.last.spans_left ≡ self.old.last.spans_left }
        ensures colours_left { self.new.last.colours_left ≡ self.old.last.colours_left }
        ensures depths_left { self.new.last.depths_left ≡ self.old.last.depths_left }
    {
        if let Kept::Own(body) = &mut self.kept {
            body.last.begin(number);
        }
    }

    /// Keeps the colours and the depths of row y from column x on in the newest frame, where it may be known that all depths are this one.
    pub(crate) fn keep(
        &mut self,
        x: u32,
        y: u32,
        old: &[Colour],
        depths: &[u16],
        known: Option<u16>,
    )
        requires begun { 0 < length self.old.last.frames }
        requires span { 0 < self.old.last.spans_left }
        requires colours { length old.now ≤ self.old.last.colours_left }
        requires depths { length depths.now ≤ self.old.last.depths_left }
        requires equal { length depths.now ≡ length old.now }
        requires right { x + length old.now ≤ most_pixels }
        requires bottom { y ≤ most_pixels }
        requires known { IfSome known (λ depth. depths.now ≡ replicate (length depths.now) depth) }
        ensures full { self.new.full ≡ self.old.full }
        ensures frames { self.new.last.frames ≡ keeping_row self.old.last.frames (kept_row x y (zip old.now depths.now)) }
        ensures spans_left { self.old.last.spans_left ≤ self.new.last.spans_left + 1 }
        ensures colours_left { self.old.last.colours_left ≤ self.new.last.colours_left + length old.now }
        ensures depths_left { self.old.last.depths_left ≤ self.new.last.depths_left + length depths.now }
    {
        if let Kept::Own(body) = &mut self.kept {
            body.last.keep(x, y, old, depths, known);
        }
    }

    /// The same of a place, whose colours and depths stand row after row.
    pub(crate) fn keep_place(
        &mut self,
        place: Place,
        old: &[Colour],
        depths: &[u16],
        known: Option<u16>,
    )
        requires placed { IsTilePlace place }
        requires counted { length old.now ≡ place.height * place.width }
        requires equal { length depths.now ≡ length old.now }
        requires known { IfSome known (λ depth. depths.now ≡ replicate (length depths.now) depth) }
        requires begun { 0 < length self.old.last.frames }
        requires span { 0 < self.old.last.spans_left }
        requires colours { length old.now ≤ self.old.last.colours_left }
        requires depths { length depths.now ≤ self.old.last.depths_left }
        ensures full { self.new.full ≡ self.old.full }
        ensures frames { self.new.last.frames ≡ keeping_row self.old.last.frames (kept_place place old.now depths.now) }
        ensures spans_left { self.old.last.spans_left ≤ self.new.last.spans_left + 1 }
        ensures colours_left { self.old.last.colours_left ≤ self.new.last.colours_left + length old.now }
        ensures depths_left { self.old.last.depths_left ≤ self.new.last.depths_left + length depths.now }
    {
        if let Kept::Own(body) = &mut self.kept {
            body.last.keep_place(place, old, depths, known);
        }
    }

    /// Puts a frame of a whole place into the last block, which is of one colour and one depth.
    pub(crate) fn push_alike(&mut self, number: usize, place: Place, colour: Colour, depth: u16)
        requires placed { IsTilePlace place }
        requires frame { 0 < self.old.last.frames_left }
        requires span { 0 < self.old.last.spans_left }
        requires colours { 0 < self.old.last.colours_left }
        requires small { number < 2 ^ 32 }
        ensures full { self.new.full ≡ self.old.full }
        ensures frames { self.new.last.frames ≡ self.old.last.frames ++ record { number = number; kept = alike place (colour, depth) } ∷ [] }
    {
        if let Kept::Own(body) = &mut self.kept {
            body.last.begin(number);
            body.last.keep_alike(place, colour, depth);
        }
    }

    /// Whether no frame is stored, though there may be room.
    pub(crate) fn is_empty(&self) -> bool
        ensures { result ≡ true → all_stored self.now.full self.now.last ≡ [] }
    {
        match &self.kept {
            Kept::Nothing => true,
            Kept::Shared(_) => false,
            Kept::Own(body) => body.is_empty(),
        }
    }

    /// Stores the frames of a list that other stacks share, of this place, and no other ones. It says whether it did: not where there are none, or so many
    /// stacks share it that no other one can.
    #[tactic(auto, using(crate::proofs::SharedLemmas::base_steps))]
    pub(crate) fn share(&mut self, frames: &AlikeFrames, place: Place) -> bool
        requires placed { IsTilePlace place }
        requires small { length frames.now < 2 ^ 32 }
        requires none { all_stored self.old.full self.old.last ≡ [] }
        ensures yes { result ≡ true → all_stored self.new.full self.new.last ≡ kept_alike place frames.now }
        ensures no { result ≡ false → self.new ≡ self.old }
    {
        if frames.len() == 0 {
            return false;
        }
        let Some(base) = Base::of(frames, place) else {
            return false;
        };
        if let Kept::Own(body) = &mut self.kept {
            body.put_below(base);
        } else {
            self.kept = Kept::Shared(base);
        }
        true
    }

    /// Whether a frame from this number on is stored. Then the newest one of the last block is. Where no block has one, the memory of all blocks goes back.
    #[tactic(auto, using(crate::proofs::StackLemmas::stack_is_stored_steps))]
    pub(crate) fn is_stored(&mut self, from: usize) -> bool
        ensures same { all_stored self.new.full self.new.last ≡ all_stored self.old.full self.old.last }
        ensures yes { result ≡ true → (0 < length self.new.last.frames) × (from ≤ (newest self.new.last.frames).number) }
        ensures no { result ≡ false → (count : ℕ) → Rise 0 (all_stored self.new.full self.new.last) count
            → Rise 0 (all_stored self.new.full self.new.last) from }
    {
        self.settle();
        match &self.kept {
            Kept::Nothing => false,
            Kept::Shared(base) => base.newest_number() >= from,
            Kept::Own(body) => !body.last.is_empty() && body.last.newest_number() >= from,
        }
    }

    /// Where no block has a frame, the memory of all blocks goes back; else the last one has.
    fn settle(&mut self)
        ensures same { all_stored self.new.full self.new.last ≡ all_stored self.old.full self.old.last }
        ensures some { length self.new.last.frames ≡ 0 → all_stored self.new.full self.new.last ≡ [] }
    {
        if let Kept::Own(body) = &mut self.kept {
            body.refill();
            if !body.last.is_empty() {
                return;
            }
            let base = body.base.take();
            self.kept = shared_or_nothing(base);
        }
    }

    /// The number of the newest frame of the last block.
    pub(crate) fn newest_number(&self) -> usize
        requires { 0 < length self.now.last.frames }
        ensures value { result ≡ (newest self.now.last.frames).number }
        ensures small { result < 2 ^ 32 }
    {
        match &self.kept {
            Kept::Nothing => 0,
            Kept::Shared(base) => base.newest_number(),
            Kept::Own(body) => body.last.newest_number(),
        }
    }

    /// Writes what that frame keeps back, the last kept first. On a tile that isn't made it keeps nothing, or all of it, which was alike.
    pub(crate) fn put_newest(&self, tile: &mut Tile)
        requires some { 0 < length self.now.last.frames }
        requires alike { tile.old.made ≡ false → IsAlike tile.old.place (newest self.now.last.frames).kept }
        requires depths { FitDepths tile.old.deep (newest self.now.last.frames).kept }
        requires inside { All (λ k. Holds tile.old.place k.x k.y) (newest self.now.last.frames).kept }
        ensures { tile.new ≡ restored (newest self.now.last.frames).kept tile.old }
    {
        match &self.kept {
            Kept::Nothing => {}
            Kept::Shared(base) => base.put_newest(tile),
            Kept::Own(body) => put_frame(body.last.newest_slices(), tile),
        }
    }

    /// Drops it, unread, and says how many pixels it kept.
    pub(crate) fn drop_newest(&mut self) -> usize
        requires some { 0 < length self.old.last.frames }
        requires countable { length (newest self.old.last.frames).kept < 2 ^ 64 }
        ensures pixels { result ≡ length (newest self.old.last.frames).kept }
        ensures full { self.new.full ≡ self.old.full }
        ensures frames { self.new.last.frames ≡ others self.old.last.frames }
    {
        if let Kept::Own(body) = &mut self.kept {
            return body.last.drop_newest();
        }
        match mem::replace(&mut self.kept, Kept::Nothing) {
            Kept::Shared(base) => {
                let pixels = base.pixels();
                self.kept = shared_or_nothing(base.without_newest());
                pixels
            }
            Kept::Nothing | Kept::Own(_) => 0,
        }
    }

    /// Drops all frames, unread. Half of the memory of blocks is given back, or more; the rest is there for the next frames.
    pub(crate) fn drop_all(&mut self)
        ensures full { self.new.full ≡ [] }
        ensures last { self.new.last.frames ≡ [] }
    {
        if let Kept::Own(body) = &mut self.kept {
            body.drop_all();
            if body.last.room() > 0 {
                return;
            }
        }
        self.kept = Kept::Nothing;
    }

    /// The number of the oldest frame from this number on that is seen to keep a whole place.
    pub(crate) fn oldest_whole(&self, from: usize, place: Place) -> Option<usize>
        requires { (count : ℕ) × Rise 0 (all_stored self.now.full self.now.last) count }
        ensures { IfSome result (λ n. (from ≤ n) × KeepsAll place (found n (all_stored self.now.full self.now.last))) }
    {
        match &self.kept {
            Kept::Nothing => None,
            Kept::Shared(base) => base.first_whole(from, place),
            Kept::Own(body) => body.oldest_whole(from, place),
        }
    }

    /// The n-th colour and depth, from 0, that the frame of this number keeps of pixel (x, y).
    #[tactic(auto, using(crate::proofs::SharedLemmas::base_steps))]
    pub(crate) fn kept(&self, number: usize, x: u32, y: u32, n: usize) -> Option<(Colour, u16)>
        requires { (count : ℕ) × Rise 0 (all_stored self.now.full self.now.last) count }
        ensures { result ≡ slice_get (kept_at (found number (all_stored self.now.full self.now.last)) x y) n }
    {
        match &self.kept {
            Kept::Nothing => None,
            Kept::Shared(base) => base.kept(number, x, y, n),
            Kept::Own(body) => match body.base_of(number) {
                Some(base) => base.kept(number, x, y, n),
                None => kept_in(body.slices_of(number)?, x, y, n),
            },
        }
    }

    /// Adds the first colours and depths, at most so many, that the frame of this number keeps of a pixel.
    #[tactic(auto, using(crate::proofs::SharedLemmas::base_steps))]
    pub(crate) fn add_kept(
        &self,
        number: usize,
        pixel: (u32, u32),
        count: usize,
        kept: &mut Vec<(Colour, u16)>,
    ) -> Result<(), AllocError>
        requires { (count : ℕ) × Rise 0 (all_stored self.now.full self.now.last) count }
        ensures kept { OnOk result (kept.new.items ≡ kept.old.items
            ++ take count (kept_at (found number (all_stored self.now.full self.now.last)) pixel.0 pixel.1)) }
        ensures wanted { OnErr result Wanted }
    {
        match &self.kept {
            Kept::Nothing => Ok(()),
            Kept::Shared(base) => base.add_kept(number, pixel, count, kept),
            Kept::Own(body) => match body.base_of(number) {
                Some(base) => base.add_kept(number, pixel, count, kept),
                None => body.add_own(number, pixel, count, kept),
            },
        }
    }
}

/// Shared frames alone, if there are any.
fn shared_or_nothing(base: Option<Base>) -> Kept
    ensures frames { all_stored (stored_of result).full (stored_of result).last ≡ stored_in (based base) }
    ensures last { (stored_of result).last.frames ≡ stored_in (based base) }
    ensures full { (stored_of result).full ≡ [] }
    ensures held { HoldFrames result }
{
    match base {
        Some(base) => Kept::Shared(base),
        None => Kept::Nothing,
    }
}

impl Body {
    /// Whether it has no frame.
    fn is_empty(&self) -> bool
        ensures { result ≡ true → all_stored (based self.now.base ++ self.now.full.items) self.now.last ≡ [] }
    {
        self.base.is_none() && self.full.as_slice().is_empty() && self.last.is_empty()
    }

    /// Puts shared frames below its own, of which there are none.
    #[tactic(auto, using(crate::proofs::SharedLemmas::alone_below))]
    fn put_below(&mut self, base: Base)
        requires none { all_stored (based self.old.base ++ self.old.full.items) self.old.last ≡ [] }
        ensures have { HaveFrames self.old.full.items → HaveFrames self.new.full.items }
        ensures stored { all_stored (based self.new.base ++ self.new.full.items) self.new.last ≡ base }
    {
        self.base = Some(base);
    }

    /// The shared frames, where the frame of this number can only be one of them.
    fn base_of(&self, number: usize) -> Option<&Base>
        ensures base { IfSome result (λ base. (self.now.base ≡ Some base.now) × (0 < length base.now) × (number ≤ (newest base.now).number)) }
        ensures own { IfNone result (IfSome self.now.base (λ base. (0 < length base) × ((newest base).number < number))) }
    {
        match &self.base {
            Some(base) if number <= base.newest_number() => Some(base),
            Some(_) | None => None,
        }
    }

    /// What the frame of this number keeps, if it is one of its own.
    fn slices_of(&self, number: usize) -> Option<SpanSlices<'_>>
        requires have { HaveFrames self.now.full.items }
        requires rise { (count : ℕ) × Rise 0 (all_stored self.now.full.items self.now.last) count }
        ensures whole { IfSome result AreSpanSlices }
        ensures there { IfSome result (λ slices. kept_in_slices slices ≡ found number (all_stored self.now.full.items self.now.last)) }
        ensures absent { result ≡ None → found number (all_stored self.now.full.items self.now.last) ≡ [] }
    {
        block_of(self.full.as_slice(), &self.last, number).slices_of(number)
    }

    /// Adds the first colours and depths, at most so many, that the frame of this number keeps of a pixel, if it is one of its own.
    fn add_own(
        &self,
        number: usize,
        pixel: (u32, u32),
        count: usize,
        kept: &mut Vec<(Colour, u16)>,
    ) -> Result<(), AllocError>
        requires have { HaveFrames self.now.full.items }
        requires rise { (count : ℕ) × Rise 0 (all_stored self.now.full.items self.now.last) count }
        ensures kept { OnOk result (kept.new.items ≡ kept.old.items
            ++ take count (kept_at (found number (all_stored self.now.full.items self.now.last)) pixel.0 pixel.1)) }
        ensures wanted { OnErr result Wanted }
    {
        match self.slices_of(number) {
            Some(slices) => add_kept_in(slices, pixel, count, kept),
            None => Ok(()),
        }
    }

    /// The number of the oldest frame from this number on that is seen to keep a whole place.
    fn oldest_whole(&self, from: usize, place: Place) -> Option<usize>
        requires have { HaveFrames self.now.full.items }
        requires rise { (count : ℕ) × Rise 0 (all_stored (based self.now.base ++ self.now.full.items) self.now.last) count }
        ensures { IfSome result (λ n. (from ≤ n) × KeepsAll place (found n (all_stored (based self.now.base ++ self.now.full.items) self.now.last))) }
    {
        if let Some(base) = &self.base {
            let number = base.first_whole(from, place);
            if number.is_some() {
                return number;
            }
        }
        oldest_whole(self.full.as_slice(), &self.last, from, place)
    }

    /// Makes room for one frame that needs so much in another block, which has as much as is wanted where there is memory for it.
    fn open_another(&mut self, alloc: Global, needed: Room, wanted: Room) -> Result<(), AllocError>
        requires one { needed.frames ≡ 1 }
        requires within { IsWithin needed wanted }
        requires have { HaveFrames self.old.full.items }
        ensures base { self.new.base ≡ self.old.base }
        ensures have { HaveFrames self.new.full.items }
        ensures same { all_stored self.new.full.items self.new.last ≡ all_stored self.old.full.items self.old.last }
        ensures frame { OnOk result (0 < self.new.last.frames_left) }
        ensures spans { OnOk result (needed.spans ≤ self.new.last.spans_left) }
        ensures colours { OnOk result (needed.colours ≤ self.new.last.colours_left) }
        ensures depths { OnOk result (needed.depths ≤ self.new.last.depths_left) }
        ensures wanted { OnErr result Wanted }
    {
        if self.last.is_empty() {
            self.last = new_block(alloc, wanted, needed)?;
            return Ok(());
        }
        let another = match self.full.take_spare(needed) {
            Some(spare) => spare,
            None => new_block(alloc, wanted, needed)?,
        };
        self.full.make_room()?;
        self.full.push(mem::replace(&mut self.last, another));
        Ok(())
    }

    /// Where the last block has no frame its memory goes back, and the block before it takes its place.
    fn refill(&mut self)
        requires { HaveFrames self.old.full.items }
        ensures base { self.new.base ≡ self.old.base }
        ensures have { HaveFrames self.new.full.items }
        ensures same { all_stored self.new.full.items self.new.last ≡ all_stored self.old.full.items self.old.last }
        ensures some { length self.new.last.frames ≡ 0 → all_stored self.new.full.items self.new.last ≡ [] }
    {
        if self.last.is_empty() {
            if let Some(newest) = self.full.pop() {
                self.last = newest;
            }
        }
    }

    /// Drops all frames, unread, and gives half of the memory of blocks back, or more.
    fn drop_all(&mut self)
        ensures base { self.new.base ≡ None }
        ensures full { self.new.full.items ≡ [] }
        ensures last { self.new.last.frames ≡ [] }
    {
        self.base = None;
        self.full.drop_all(&mut self.last);
    }
}

/// A block with so much room, or with just as much as is needed where there is no memory for more.
fn new_block(alloc: Global, wanted: Room, needed: Room) -> Result<Block, AllocError>
    requires { IsWithin needed wanted }
    ensures frames { IfOk result (λ b. b.frames ≡ []) }
    ensures room { IfOk result (λ b. IsWithin needed (left_in b)) }
    ensures wanted { OnErr result Wanted }
{
    match Block::with_room(alloc, wanted) {
        Err(_) if wanted != needed => Block::with_room(alloc, needed),
        made => made,
    }
}

/// The number of the oldest stored frame from this number on that is seen to keep a whole place.
#[tactic(auto, using(crate::proofs::Backs::stack_oldest_whole_steps))]
fn oldest_whole(full: &[Block], last: &Block, from: usize, place: Place) -> Option<usize>
    requires have { HaveFrames full.now }
    requires rise { (count : ℕ) × Rise 0 (all_stored full.now last.now) count }
    ensures { IfSome result (λ n. (from ≤ n) × KeepsAll place (found n (all_stored full.now last.now))) }
{
    let after = blocks_up_to(full, from);
    for block in &full[after.saturating_sub(1)..] {
        let number = block.first_whole(from, place);
        if number.is_some() {
            return number;
        }
    }
    last.first_whole(from, place)
}

/// Whether a block has a frame whose number is this one or lower.
fn reaches(block: &Block, number: usize) -> bool
    ensures yes { result ≡ true → (0 < length block.now.frames) × (first_number block.now.frames ≤ number) }
    ensures no { result ≡ false → 0 < length block.now.frames → number < first_number block.now.frames }
{
    !block.is_empty() && block.first_number() <= number
}

/// How many of the full blocks begin with this number or a lower one.
fn blocks_up_to(full: &[Block], number: usize) -> usize
    requires have { HaveFrames full.now }
    requires rise { (last : List KeptFrame) × (count : ℕ) × Rise 0 (stored_in full.now ++ last) count }
    ensures within { result ≤ length full.now }
    ensures begun { (k : ℕ) → (d : Filled) → k < result → first_number (slice_index_or full.now k d).frames ≤ number }
    ensures later { (k : ℕ) → (d : Filled) → result ≤ k → k < length full.now → number < first_number (slice_index_or full.now k d).frames }
{
    full.partition_point(|block| block.first_number() <= number)
}

/// The block that has the frame of this number, if one has.
#[tactic(auto, using(crate::proofs::StackLemmas::stack_block_of_steps))]
fn block_of<'a>(full: &'a [Block], last: &'a Block, number: usize) -> &'a Block
    requires have { HaveFrames full.now }
    requires rise { (count : ℕ) × Rise 0 (all_stored full.now last.now) count }
    ensures rise { (count : ℕ) × Rise 0 result.now.frames count }
    ensures found { found number result.now.frames ≡ found number (all_stored full.now last.now) }
{
    if reaches(last, number) {
        return last;
    }
    let after = blocks_up_to(full, number);
    if after == 0 { last } else { &full[after - 1] }
}

#[cfg(test)]
mod tests;
