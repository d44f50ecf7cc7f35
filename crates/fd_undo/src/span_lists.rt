ghost use Rattle.std.specs.Prelude.{◌≡◌, ℕ, ◌+◌, ◌-◌, ◌*◌, ◌^◌, ◌<◌, ◌≤◌, [], ◌∷◌, ◌++◌, length, take, drop, IfOk, OnErr, IfSome, slice_index_or, true};
ghost use Rattle.std.specs.Prelude.{replicate, vec_capacity};
ghost use Rattle.std.specs.List.{zip};
ghost use Rattle.fd_undo.specs.Span.{IsRowOf};
ghost use Rattle.fd_blend.specs.Channel.{fresh};
ghost use Rattle.fd_snap.specs.Limits.{most_pixels};
ghost use Rattle.fd_tile.specs.Place.{IsTilePlace};
ghost use Rattle.fd_undo.specs.Frame.{kept_row, kept_place, alike};
ghost use Rattle.fd_undo.specs.Rows.{colour_count, depth_count, pixel_count, rows_of, joined, no_span, listed_colours, listed_depths, span_pixels};
ghost use Rattle.fd_undo.specs.Rows.{KeepsMore, GrowsBy};
ghost use Rattle.fd_undo.specs.SpanSlices.{AreSpanSlices, IsCut, rows_in_slices};
ghost use Rattle.fd_memory.specs.Wanting.{Wanted};

use crate::room::{Room, SPANS_INSIDE};
use crate::span::{Span, last_of};
use crate::span_slices::{Cut, SpanSlices, part};
use fd_blend::Colour;
use fd_memory::small_room;
use fd_tile::Place;
use smallvec::SmallVec;
use std::alloc::{AllocError, Global};
use std::marker::Model;

/// Spans that follow one another: the colours and the depths of each stand behind those of the spans before it.
#[derive(Drop)]
pub(crate) struct SpanLists {
    spans: SmallVec<Span, SPANS_INSIDE>,
    // one for a span whose pixels are all alike
    colours: Vec<Colour>,
    // of the spans whose pixels are not all equally deep
    depths: Vec<u16>,
}

impl Model for SpanLists {
    ghost use Rattle.std.specs.Prelude.{◌-◌, length, vec_capacity};
    ghost use Rattle.fd_undo.specs.Rows.{Held, IsHeld};

    ghost Value = { Held };

    ghost view = { λ l. record {
      spans = l.spans.items;
      colours = l.colours.items;
      depths = l.depths.items;
      spans_left = l.spans.capacity - length l.spans.items;
      colours_left = vec_capacity l.colours - length l.colours.items;
      depths_left = vec_capacity l.depths - length l.depths.items;
    } };

    ghost invariant = { λ l. IsHeld l.spans.items l.colours.items l.depths.items };
}

impl SpanLists {
    /// No spans, and room for so many spans, colours and depths.
    pub(crate) fn with_room(alloc: Global, room: Room) -> Result<SpanLists, AllocError>
        ensures spans { IfOk result (λ l. (l.spans ≡ []) × (l.colours ≡ []) × (l.depths ≡ [])) }
        ensures room { IfOk result (λ l. (room.spans ≤ l.spans_left) × (room.colours ≤ l.colours_left) × (room.depths ≤ l.depths_left)) }
        ensures wanted { OnErr result Wanted }
    {
        Ok(SpanLists {
            spans: small_room(alloc, room.spans)?,
            colours: fd_memory::room(alloc, room.colours)?,
            depths: fd_memory::room(alloc, room.depths)?,
        })
    }

    /// No spans, and no room for pixels, which takes no memory.
    pub(crate) fn empty(alloc: Global) -> SpanLists
        ensures { (result.spans ≡ []) × (result.colours ≡ []) × (result.depths ≡ []) }
    {
        SpanLists {
            spans: SmallVec::new(alloc),
            colours: Vec::new(alloc),
            depths: Vec::new(alloc),
        }
    }

    /// Whether so many more spans, colours and depths have room.
    pub(crate) fn takes(&self, more: Room) -> bool
        ensures { result ≡ true → (more.spans ≤ self.now.spans_left) × (more.colours ≤ self.now.colours_left) × (more.depths ≤ self.now.depths_left) }
    {
        more.spans <= self.spans.capacity() - self.spans.len()
            && more.colours <= self.colours.capacity() - self.colours.len()
            && more.depths <= self.depths.capacity() - self.depths.len()
    }

    /// Keeps the colours and the depths of a row, whose span this is. The spans from `first` on are of the same frame: where the row lies right below those of
    /// the last one, and is listed as they are, that has one row more.
    pub(crate) fn keep(&mut self, first: usize, row: Span, old: &[Colour], depths: &[u16])
        requires first { first ≤ length self.old.spans }
        requires row { IsRowOf old.now depths.now row }
        requires span { 0 < self.old.spans_left }
        requires colours { length old.now ≤ self.old.colours_left }
        requires depths { length depths.now ≤ self.old.depths_left }
        ensures more { KeepsMore first self.old self.new (kept_row row.x row.y (zip old.now depths.now)) }
        ensures spans_left { self.old.spans_left ≤ self.new.spans_left + 1 }
        ensures colours_left { self.old.colours_left ≤ self.new.colours_left + length old.now }
        ensures depths_left { self.old.depths_left ≤ self.new.depths_left + length depths.now }
    {
        let deep = row.listed_depths();
        if let Some(grown) = self.grown(first, &row, old) {
            replace_last(&mut self.spans, grown);
            add(&mut self.colours, &old[..row.more_colours()]);
            add(&mut self.depths, &depths[..deep]);
            return;
        }
        self.push(row, old, depths);
    }

    /// Keeps the colours and the depths of a place, which stand row after row, as one span, where it may be known that all depths are this one.
    pub(crate) fn keep_place(
        &mut self,
        place: Place,
        old: &[Colour],
        depths: &[u16],
        known: Option<u16>,
    )
        requires placed { IsTilePlace place }
        requires counted { length old.now ≡ place.height * place.width }
        requires equal { length depths.now ≡ length old.now }
        requires known { IfSome known (λ depth. depths.now ≡ replicate (length depths.now) depth) }
        requires span { 0 < self.old.spans_left }
        requires colours { length old.now ≤ self.old.colours_left }
        requires depths { length depths.now ≤ self.old.depths_left }
        ensures more { (first : ℕ) → first ≤ length self.old.spans → KeepsMore first self.old self.new (kept_place place old.now depths.now) }
        ensures spans_left { self.old.spans_left ≤ self.new.spans_left + 1 }
        ensures colours_left { self.old.colours_left ≤ self.new.colours_left + length old.now }
        ensures depths_left { self.old.depths_left ≤ self.new.depths_left + length depths.now }
    {
        self.push(Span::of_place(place, old, depths, known), old, depths);
    }

    /// Adds a span whose values stand first in these lists. It stands in its callers, as each row of a small triangle comes through it.
    #[inline(always)]
    fn push(&mut self, span: Span, old: &[Colour], depths: &[u16])
        requires coloured { listed_colours span ≤ length old.now }
        requires deep { listed_depths span ≤ length depths.now }
        requires span { 0 < self.old.spans_left }
        requires colours { listed_colours span ≤ self.old.colours_left }
        requires depths { listed_depths span ≤ self.old.depths_left }
        ensures more { (first : ℕ) → first ≤ length self.old.spans → KeepsMore first self.old self.new
            (span_pixels span (take (listed_colours span) old.now) (take (listed_depths span) depths.now)) }
        ensures spans_left { self.old.spans_left ≤ self.new.spans_left + 1 }
        ensures colours_left { self.old.colours_left ≤ self.new.colours_left + listed_colours span }
        ensures depths_left { self.old.depths_left ≤ self.new.depths_left + listed_depths span }
    {
        self.spans.push_reserved(span);
        add(&mut self.colours, &old[..span.listed_colours()]);
        add(&mut self.depths, &depths[..span.listed_depths()]);
    }

    /// The last span with one row more, if it is one of those from `first` on, and the row of this span, which has these colours, lies right below its own
    /// ones and is listed as they are.
    fn grown(&self, first: usize, row: &Span, old: &[Colour]) -> Option<Span>
        requires { row.now.one_colour ≡ true → 0 < length old.now }
        ensures { IfSome result (λ grown. GrowsBy first self.now row.now (slice_index_or old.now 0 fresh) grown) }
    {
        if self.spans.len() <= first {
            return None;
        }
        let grown = last_of(self.spans.as_slice()).with_row(row)?;
        if !row.one_colour() || self.colours[self.colours.len() - 1].is_same(old[0]) {
            Some(grown)
        } else {
            None
        }
    }

    /// Keeps a whole place, which is of one colour and one depth.
    pub(crate) fn keep_alike(&mut self, place: Place, colour: Colour, depth: u16)
        requires placed { IsTilePlace place }
        requires span { 0 < self.old.spans_left }
        requires colours { 0 < self.old.colours_left }
        ensures { (first : ℕ) → first ≤ length self.old.spans → KeepsMore first self.old self.new (alike place (colour, depth)) }
    {
        self.push(Span::whole(place, true, Some(depth)), &[colour], &[]);
    }

    /// The place behind all spans.
    pub(crate) fn end(&self) -> Cut
        ensures value { result ≡ record { span = length self.now.spans; colour = length self.now.colours; depth = length self.now.depths } }
        ensures cut { IsCut result self.now.spans }
    {
        Cut {
            span: self.spans.len(),
            colour: self.colours.len(),
            depth: self.depths.len(),
        }
    }

    /// For how many colours there is room, those that are listed among them.
    pub(crate) fn room(&self) -> usize {
        self.colours.capacity()
    }

    /// Drops all spans, unread. Their room stays.
    pub(crate) fn drop_all(&mut self)
        ensures { (self.new.spans ≡ []) × (self.new.colours ≡ []) × (self.new.depths ≡ []) }
    {
        self.spans.truncate(0);
        self.colours.truncate(0);
        self.depths.truncate(0);
    }

    /// Drops the spans behind a place, unread, and says how many pixels they had.
    #[tactic(auto, using(crate::proofs::RowLemmas::lists_drop_from_steps))]
    pub(crate) fn drop_from(&mut self, first: Cut) -> usize
        requires first { IsCut first self.old.spans }
        requires countable { length (joined (drop first.span (rows_of self.old))) < 2 ^ 64 }
        ensures pixels { result ≡ length (joined (drop first.span (rows_of self.old))) }
        ensures rows { rows_of self.new ≡ take first.span (rows_of self.old) }
        ensures spans { self.new.spans ≡ take first.span self.old.spans }
    {
        let pixels = pixels_in(&self.spans.as_slice()[first.span..]);
        self.spans.truncate(first.span);
        self.colours.truncate(first.colour);
        self.depths.truncate(first.depth);
        pixels
    }

    /// The spans from one place up to another.
    #[tactic(auto, using(crate::proofs::RowLemmas::lists_slices_steps))]
    pub(crate) fn slices(&self, first: Cut, end: Cut) -> SpanSlices<'_>
        requires ordered { first.span ≤ end.span }
        requires first { IsCut first self.now.spans }
        requires end { IsCut end self.now.spans }
        ensures whole { AreSpanSlices result }
        ensures rows { rows_in_slices result ≡ take (end.span - first.span) (drop first.span (rows_of self.now)) }
    {
        SpanSlices {
            spans: part(self.spans.as_slice(), first.span, end.span),
            colours: part(&self.colours, first.colour, end.colour),
            depths: part(&self.depths, first.depth, end.depth),
        }
    }
}

/// Adds values to a list that has room for them.
fn add<T: Copy>(values: &mut Vec<T>, more: &[T])
    requires { length values.old.items + length more.now ≤ vec_capacity values.old }
    ensures items { values.new.items ≡ values.old.items ++ more.now }
    ensures capacity { vec_capacity values.old ≤ vec_capacity values.new }
{
    // mostly there are none, where one colour or one depth is that of all
    if !more.is_empty() {
        values.extend_from_slice(more).unwrap();
    }
}

/// How many pixels some spans have.
fn pixels_in(spans: &[Span]) -> usize
    requires { pixel_count spans.now < 2 ^ 64 }
    ensures { result ≡ pixel_count spans.now }
{
    let mut pixels = 0;
    for span in spans {
        pixels += span.pixels();
    }
    pixels
}

/// Puts another span in the place of the last one.
fn replace_last(spans: &mut SmallVec<Span, SPANS_INSIDE>, span: Span)
    requires { 0 < length spans.old.items }
    ensures items { spans.new.items ≡ take (length spans.old.items - 1) spans.old.items ++ span ∷ [] }
    ensures capacity { spans.new.capacity ≡ spans.old.capacity }
{
    let last = spans.len() - 1;
    spans.as_mut_slice()[last] = span;
}
