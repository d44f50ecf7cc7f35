ghost use Rattle.std.specs.Prelude.{◌≡◌, ◌≢◌, ℕ, ◌+◌, ◌-◌, ◌*◌, ◌^◌, ◌<◌, ◌≤◌, [], ◌∷◌, ◌++◌, length, drop, replicate, slice_index_or};
ghost use Rattle.std.specs.Prelude.{None, IfOk, OnErr, IfSome, true, false};
ghost use Rattle.std.specs.List.{zip};
ghost use Rattle.fd_snap.specs.Limits.{most_pixels};
ghost use Rattle.fd_tile.specs.Place.{IsTilePlace};
ghost use Rattle.fd_undo.specs.Frame.{kept_row, kept_place, alike, KeepsAll};
ghost use Rattle.fd_undo.specs.SpanSlices.{AreSpanSlices, IsCut, kept_in_slices};
ghost use Rattle.fd_undo.specs.Block.{KeptFrame, Filled, no_frame, newest, others, keeping_row, found, first_number, Rise};
ghost use Rattle.fd_undo.specs.Block.{NumbersRise, AreInOrder, no_mark, last_mark, next};
ghost use Rattle.fd_memory.specs.Wanting.{Wanted};

use crate::room::Room;
use crate::span::Span;
use crate::span_lists::SpanLists;
use crate::span_slices::{Cut, SpanSlices};
use crate::whole::have_all_rows;
use fd_blend::Colour;
use fd_memory::small_room;
use fd_tile::Place;
use smallvec::SmallVec;
use std::alloc::{AllocError, Global};
use std::marker::Model;

/// So many marks stand in the block itself, and more in memory of their own.
const MARKS_INSIDE: usize = 4;

/// Where the frame of a number begins in its block: its first span, its first colour and its first depth.
#[derive(Clone, Copy, Default)]
pub(crate) struct Mark {
    number: u32,
    span: u32,
    colour: u32,
    depth: u32,
}

impl Mark {
    ghost use Rattle.fd_undo.specs.SpanSlices.{cut_of};

    /// Where its frame begins.
    fn cut(self) -> Cut
        ensures { result ≡ cut_of self }
    {
        Cut {
            span: self.span as usize,
            colour: self.colour as usize,
            depth: self.depth as usize,
        }
    }
}

/// Frames that follow one another, in lists that were made with room and never grow.
#[derive(Drop)]
pub(crate) struct Block {
    marks: SmallVec<Mark, MARKS_INSIDE>,
    lists: SpanLists,
}

impl Model for Block {
    ghost use Rattle.std.specs.Prelude.{◌-◌, length};
    ghost use Rattle.fd_undo.specs.Rows.{rows_of};
    ghost use Rattle.fd_undo.specs.Block.{Filled, marked, marks_left, AreInOrder};

    ghost Value = { Filled };

    ghost view = { λ b. record {
      frames = marked b.marks.items (rows_of b.lists) (length b.lists.spans);
      frames_left = marks_left b.lists (b.marks.capacity - length b.marks.items);
      spans_left = b.lists.spans_left;
      colours_left = b.lists.colours_left;
      depths_left = b.lists.depths_left;
    } };

    ghost invariant = { λ b. AreInOrder b.marks.items b.lists.spans (length b.lists.spans) };
}

impl Block {
    /// A block without frames, which has room for so many frames, spans and values.
    pub(crate) fn with_room(alloc: Global, room: Room) -> Result<Block, AllocError>
        ensures frames { IfOk result (λ b. b.frames ≡ []) }
        ensures room { IfOk result (λ b. (room.frames ≤ b.frames_left) × (room.spans ≤ b.spans_left)
            × (room.colours ≤ b.colours_left) × (room.depths ≤ b.depths_left)) }
        ensures wanted { OnErr result Wanted }
    {
        Ok(Block {
            marks: small_room(alloc, room.frames)?,
            lists: SpanLists::with_room(alloc, room)?,
        })
    }

    /// A block without frames and without room for pixels, which takes no memory.
    pub(crate) fn empty(alloc: Global) -> Block
        ensures { result.frames ≡ [] }
    {
        Block {
            marks: SmallVec::new(alloc),
            lists: SpanLists::empty(alloc),
        }
    }

    /// Whether it has no frame.
    #[tactic(auto, using(crate::proofs::BlockLemmas::mark_steps))]
    pub(crate) fn is_empty(&self) -> bool
        ensures yes { result ≡ true → self.now.frames ≡ [] }
        ensures no { result ≡ false → 0 < length self.now.frames }
    {
        self.marks.is_empty()
    }

    /// Whether one more frame of so many spans, colours and depths has room.
    pub(crate) fn takes(&self, more: Room) -> bool
        ensures { result ≡ true → (0 < self.now.frames_left) × (more.spans ≤ self.now.spans_left)
            × (more.colours ≤ self.now.colours_left) × (more.depths ≤ self.now.depths_left) }
    {
        self.marks.len() < self.marks.capacity()
            && is_countable(&self.lists)
            && self.lists.takes(more)
    }

    /// How many frames, spans, colours and depths it holds.
    pub(crate) fn held(&self) -> Room {
        let end = self.lists.end();
        Room {
            frames: self.marks.len(),
            spans: end.span,
            colours: end.colour,
            depths: end.depth,
        }
    }

    /// For how many colours it has room, those that it holds among them.
    pub(crate) fn room(&self) -> usize {
        self.lists.room()
    }

    /// The number of the newest frame.
    #[tactic(auto, using(crate::proofs::BlockLemmas::mark_steps))]
    pub(crate) fn newest_number(&self) -> usize
        requires { 0 < length self.now.frames }
        ensures value { result ≡ (newest self.now.frames).number }
        ensures small { result < 2 ^ 32 }
    {
        newest_mark(self.marks.as_slice()).number as usize
    }

    /// The number of the oldest frame, or 0.
    pub(crate) fn first_number(&self) -> usize
        ensures { result ≡ first_number self.now.frames }
    {
        match self.marks.as_slice() {
            [] => 0,
            [mark, ..] => mark.number as usize,
        }
    }

    /// Begins a frame, which keeps nothing yet.
    #[tactic(auto, using(crate::proofs::BlockLemmas::block_begin_steps))]
    pub(crate) fn begin(&mut self, number: usize)
        requires room { 0 < self.old.frames_left }
        requires small { number < 2 ^ 32 }
        ensures frames { self.new.frames ≡ self.old.frames ++ record { number = number; kept = [] } ∷ [] }
        ensures spans_left { self.new.spans_left ≡ self.old.spans_left }
        ensures colours_left { self.new.colours_left ≡ self.old.colours_left }
        ensures depths_left { self.new.depths_left ≡ self.old.depths_left }
    {
        let end = self.lists.end();
        let mark = Mark {
            number: number as u32,
            span: end.span as u32,
            colour: end.colour as u32,
            depth: end.depth as u32,
        };
        self.marks.push_reserved(mark);
    }

    /// Keeps the colours and the depths of row y from column x on in the newest frame, where it may be known that all depths are this one.
    #[tactic(auto, using(crate::proofs::BlockLemmas::block_keep_steps))]
    pub(crate) fn keep(
        &mut self,
        x: u32,
        y: u32,
        old: &[Colour],
        depths: &[u16],
        known: Option<u16>,
    )
        requires begun { 0 < length self.old.frames }
        requires span { 0 < self.old.spans_left }
        requires colours { length old.now ≤ self.old.colours_left }
        requires depths { length depths.now ≤ self.old.depths_left }
        requires equal { length depths.now ≡ length old.now }
        requires right { x + length old.now ≤ most_pixels }
        requires bottom { y ≤ most_pixels }
        requires known { IfSome known (λ depth. depths.now ≡ replicate (length depths.now) depth) }
        ensures frames { self.new.frames ≡ keeping_row self.old.frames (kept_row x y (zip old.now depths.now)) }
        ensures spans_left { self.old.spans_left ≤ self.new.spans_left + 1 }
        ensures colours_left { self.old.colours_left ≤ self.new.colours_left + length old.now }
        ensures depths_left { self.old.depths_left ≤ self.new.depths_left + length depths.now }
    {
        let first = newest_mark(self.marks.as_slice()).span as usize;
        let row = Span::of(x, y, old, depths, known);
        self.lists.keep(first, row, old, depths);
    }

    /// The same of a place, whose colours and depths stand row after row.
    #[tactic(auto, using(crate::proofs::BlockLemmas::block_keep_steps))]
    pub(crate) fn keep_place(
        &mut self,
        place: Place,
        old: &[Colour],
        depths: &[u16],
        known: Option<u16>,
    )
        requires placed { IsTilePlace place }
        requires counted { length old.now ≡ place.height * place.width }
        requires equal { length depths.now ≡ length old.now }
        requires known { IfSome known (λ depth. depths.now ≡ replicate (length depths.now) depth) }
        requires begun { 0 < length self.old.frames }
        requires span { 0 < self.old.spans_left }
        requires colours { length old.now ≤ self.old.colours_left }
        requires depths { length depths.now ≤ self.old.depths_left }
        ensures frames { self.new.frames ≡ keeping_row self.old.frames (kept_place place old.now depths.now) }
        ensures spans_left { self.old.spans_left ≤ self.new.spans_left + 1 }
        ensures colours_left { self.old.colours_left ≤ self.new.colours_left + length old.now }
        ensures depths_left { self.old.depths_left ≤ self.new.depths_left + length depths.now }
    {
        self.lists.keep_place(place, old, depths, known);
    }

    /// Keeps a whole place in the newest frame, which is of one colour and one depth.
    #[tactic(auto, using(crate::proofs::BlockLemmas::block_keep_steps))]
    pub(crate) fn keep_alike(&mut self, place: Place, colour: Colour, depth: u16)
        requires placed { IsTilePlace place }
        requires begun { 0 < length self.old.frames }
        requires span { 0 < self.old.spans_left }
        requires colours { 0 < self.old.colours_left }
        ensures { self.new.frames ≡ keeping_row self.old.frames (alike place (colour, depth)) }
    {
        self.lists.keep_alike(place, colour, depth);
    }

    /// Drops the newest frame, unread, and says how many pixels it kept.
    #[tactic(auto, using(crate::proofs::BlockLemmas::block_drop_newest_steps))]
    pub(crate) fn drop_newest(&mut self) -> usize
        requires some { 0 < length self.old.frames }
        requires countable { length (newest self.old.frames).kept < 2 ^ 64 }
        ensures pixels { result ≡ length (newest self.old.frames).kept }
        ensures frames { self.new.frames ≡ others self.old.frames }
    {
        let mark = take_last(&mut self.marks);
        self.lists.drop_from(mark.cut())
    }

    /// Drops all frames, unread. Their room stays.
    pub(crate) fn drop_all(&mut self)
        ensures { self.new.frames ≡ [] }
    {
        self.marks.truncate(0);
        self.lists.drop_all();
    }

    /// The number of the oldest frame from this number on that is seen to keep a whole place.
    #[tactic(auto, using(crate::proofs::KeptAt::block_first_whole_steps))]
    pub(crate) fn first_whole(&self, from: usize, place: Place) -> Option<usize>
        requires rise { (count : ℕ) × Rise 0 self.now.frames count }
        ensures { IfSome result (λ n. (from ≤ n) × KeepsAll place (found n self.now.frames)) }
    {
        let marks = self.marks.as_slice();
        let first = marks.partition_point(|mark| (mark.number as usize) < from);
        for at in first..marks.len() {
            let number = mark_at(marks, at).number as usize;
            if number >= from && have_all_rows(self.slices_at(at).spans, place) {
                return Some(number);
            }
        }
        None
    }

    /// What the frame of this number keeps.
    #[tactic(auto, using(crate::proofs::BlockLemmas::block_slices_of_steps))]
    pub(crate) fn slices_of(&self, number: usize) -> Option<SpanSlices<'_>>
        requires { (count : ℕ) × Rise 0 self.now.frames count }
        ensures whole { IfSome result AreSpanSlices }
        ensures there { IfSome result (λ slices. kept_in_slices slices ≡ found number self.now.frames) }
        ensures absent { result ≡ None → found number self.now.frames ≡ [] }
    {
        let place = place_of(self.marks.as_slice(), number)?;
        Some(self.slices_at(place))
    }

    /// The same of the newest frame.
    #[tactic(auto, using(crate::proofs::BlockLemmas::mark_steps))]
    pub(crate) fn newest_slices(&self) -> SpanSlices<'_>
        requires { 0 < length self.now.frames }
        ensures whole { AreSpanSlices result }
        ensures there { kept_in_slices result ≡ (newest self.now.frames).kept }
    {
        self.slices_at(self.marks.len() - 1)
    }

    /// The same of the frame at a place.
    #[tactic(auto, using(crate::proofs::BlockLemmas::mark_steps))]
    fn slices_at(&self, place: usize) -> SpanSlices<'_>
        requires { place < length self.now.frames }
        ensures whole { AreSpanSlices result }
        ensures there { kept_in_slices result ≡ (slice_index_or self.now.frames place no_frame).kept }
    {
        let marks = self.marks.as_slice();
        let end = end_of(marks, place, &self.lists);
        self.lists.slices(mark_at(marks, place).cut(), end)
    }
}

/// Whether each place behind what is listed can be said by a mark.
fn is_countable(lists: &SpanLists) -> bool
    ensures { result ≡ true → (length lists.now.spans < 2 ^ 32) × (length lists.now.colours < 2 ^ 32) × (length lists.now.depths < 2 ^ 32) }
{
    let (end, most) = (lists.end(), u32::MAX as usize);
    end.span <= most && end.colour <= most && end.depth <= most
}

/// Takes the last mark off.
#[tactic(auto, using(crate::proofs::BlockLemmas::take_last_steps))]
fn take_last(marks: &mut SmallVec<Mark, MARKS_INSIDE>) -> Mark
    requires { 0 < length marks.old.items }
    ensures last { result ≡ last_mark marks.old.items }
    ensures rest { marks.new.items ≡ others marks.old.items }
{
    marks.pop().unwrap()
}

/// The mark at a place.
fn mark_at(marks: &[Mark], place: usize) -> Mark
    requires { place < length marks.now }
    ensures { result ≡ slice_index_or marks.now place no_mark }
{
    marks[place]
}

/// The last mark.
fn newest_mark(marks: &[Mark]) -> Mark
    requires { 0 < length marks.now }
    ensures { result ≡ last_mark marks.now }
{
    mark_at(marks, marks.len() - 1)
}

/// Where the mark of this number is, if there is one.
fn place_of(marks: &[Mark], number: usize) -> Option<usize>
    requires { NumbersRise marks.now }
    ensures there { IfSome result (λ place. (place < length marks.now) × ((slice_index_or marks.now place no_mark).number ≡ number)) }
    ensures absent { result ≡ None → (place : ℕ) → place < length marks.now → (slice_index_or marks.now place no_mark).number ≢ number }
{
    marks
        .binary_search_by_key(&number, |mark| mark.number as usize)
        .ok()
}

/// Where the frame of a mark ends: where the next one begins, or at the end.
#[tactic(auto, using(crate::proofs::BlockLemmas::end_of_steps))]
fn end_of(marks: &[Mark], place: usize, lists: &SpanLists) -> Cut
    requires within { place < length marks.now }
    requires order { AreInOrder marks.now lists.now.spans (length lists.now.spans) }
    ensures span { result.span ≡ next (drop (place + 1) marks.now) (length lists.now.spans) }
    ensures cut { IsCut result lists.now.spans }
{
    if place + 1 < marks.len() {
        mark_at(marks, place + 1).cut()
    } else {
        lists.end()
    }
}
