//! Frames that many stacks share.
ghost use Rattle.std.specs.Prelude.{◌≡◌, ◌≢◌, ℕ, ◌+◌, ◌-◌, ◌*◌, ◌^◌, ◌<◌, ◌≤◌, [], ◌∷◌, ◌++◌, length, take, drop, All, slice_get, slice_index_or};
ghost use Rattle.std.specs.Prelude.{None, IfSome, IfOk, IfNone, OnOk, OnErr, false};
ghost use Rattle.fd_blend.specs.Channel.{fresh};
ghost use Rattle.fd_tile.specs.Place.{Holds, IsTilePlace};
ghost use Rattle.fd_undo.specs.Frame.{alike, kept_at, restored, IsAlike, FitDepths, KeepsAll};
ghost use Rattle.fd_undo.specs.Block.{newest, others, found, Rise};
ghost use Rattle.fd_undo.specs.Alike.{kept_alike, place_of_span, no_alike, AlikeRise};
ghost use Rattle.fd_undo.specs.SpanSlices.{AreSpanSlices, kept_in_slices};
ghost use Rattle.fd_memory.specs.Wanting.{Wanted};

use crate::kept::{add_kept_in, kept_in};
use crate::restore::put_frame;
use crate::span::Span;
use crate::span_slices::SpanSlices;
use fd_blend::Colour;
use fd_memory::shared;
use fd_tile::{Place, Tile};
use std::alloc::{AllocError, Global};
use std::marker::Model;
use std::sync::Arc;

/// The frame of this number, which keeps this colour and this depth at each pixel of a place, whatever place that is.
#[derive(Clone, Copy)]
pub struct AlikeFrame {
    pub number: u32,
    pub colour: Colour,
    pub depth: u16,
}

/// Such frames, oldest first, in one list for all stacks that share it.
#[derive(Drop)]
pub struct AlikeFrames {
    list: Arc<Vec<AlikeFrame>>,
}

impl Model for AlikeFrames {
    ghost use Rattle.std.specs.Prelude.{List};
    ghost use Rattle.fd_undo.specs.declared.shared.AlikeFrame.{AlikeFrame};

    ghost Value = { List AlikeFrame };

    ghost view = { λ f. f.list.value.items };
}

impl AlikeFrames {
    /// These frames, to be shared.
    pub fn of(alloc: Global, frames: Vec<AlikeFrame>) -> Result<AlikeFrames, AllocError>
        ensures frames { IfOk result (λ alike. alike ≡ frames.items) }
        ensures wanted { OnErr result Wanted }
    {
        Ok(AlikeFrames {
            list: shared(alloc, frames)?,
        })
    }

    /// How many there are.
    pub fn len(&self) -> usize
        ensures { result ≡ length self.now }
    {
        self.list.len()
    }

    fn as_slice(&self) -> &[AlikeFrame]
        ensures { result.now ≡ self.now }
    {
        self.list.as_slice()
    }
}

/// The oldest frames of a stack, which keep all of one place: the first ones of a list that it shares.
#[derive(Drop)]
pub(crate) struct Base {
    frames: AlikeFrames,
    count: u32,
    // the place, in eight bytes
    span: Span,
}

impl Model for Base {
    ghost use Rattle.std.specs.Prelude.{◌<◌, ◌≤◌, List, length, take};
    ghost use Rattle.fd_tile.specs.Place.{IsTilePlace};
    ghost use Rattle.fd_undo.specs.Block.{KeptFrame};
    ghost use Rattle.fd_undo.specs.Alike.{kept_alike, place_of_span};

    ghost Value = { List KeptFrame };

    ghost view = { λ b. kept_alike (place_of_span b.span) (take b.count b.frames) };

    ghost invariant = { λ b. IsTilePlace (place_of_span b.span) × (0 < b.count) × (b.count ≤ length b.frames) };
}

impl Base {
    /// All frames of a list, of one place. None where so many stacks share it that no other one can.
    pub(crate) fn of(frames: &AlikeFrames, place: Place) -> Option<Base>
        requires placed { IsTilePlace place }
        requires some { 0 < length frames.now }
        requires small { length frames.now < 2 ^ 32 }
        ensures { IfSome result (λ base. base ≡ kept_alike place frames.now) }
    {
        let list = Arc::try_clone(&frames.list).ok()?;
        Some(Base {
            count: frames.len() as u32,
            frames: AlikeFrames { list },
            span: Span::whole(place, true, None),
        })
    }

    /// The number of the newest one.
    #[tactic(auto, using(crate::proofs::SharedLemmas::shared_steps))]
    pub(crate) fn newest_number(&self) -> usize
        ensures value { result ≡ (newest self.now).number }
        ensures some { 0 < length self.now }
        ensures small { result < 2 ^ 32 }
    {
        self.frames.as_slice()[self.count as usize - 1].number as usize
    }

    /// How many pixels each of them keeps.
    pub(crate) fn pixels(&self) -> usize
        ensures { result ≡ length (newest self.now).kept }
    {
        self.span.pixels()
    }

    /// All but the newest one, if there are any.
    #[tactic(auto, using(crate::proofs::SharedLemmas::shared_steps))]
    pub(crate) fn without_newest(self) -> Option<Base>
        ensures some { IfSome result (λ base. base ≡ others self) }
        ensures none { IfNone result (others self ≡ []) }
    {
        let count = self.count - 1;
        if count == 0 {
            return None;
        }
        Some(Base { count, ..self })
    }

    /// The number of the oldest one from this number on, where the place is this one.
    pub(crate) fn first_whole(&self, from: usize, place: Place) -> Option<usize>
        requires rise { (count : ℕ) × Rise 0 self.now count }
        ensures { IfSome result (λ n. (from ≤ n) × KeepsAll place (found n self.now)) }
    {
        if place_of_span(&self.span) != place {
            return None;
        }
        let frames = self.frames.as_slice();
        let first = frames.partition_point(|frame| (frame.number as usize) < from);
        if first >= self.count as usize {
            return None;
        }
        let number = frames[first].number as usize;
        if number >= from { Some(number) } else { None }
    }

    /// Writes what the newest one keeps back. On a tile that isn't made it is all of it.
    #[tactic(auto, using(crate::proofs::SharedLemmas::shared_steps))]
    pub(crate) fn put_newest(&self, tile: &mut Tile)
        requires alike { tile.old.made ≡ false → IsAlike tile.old.place (newest self.now).kept }
        requires depths { FitDepths tile.old.deep (newest self.now).kept }
        requires inside { All (λ k. Holds tile.old.place k.x k.y) (newest self.now).kept }
        ensures { tile.new ≡ restored (newest self.now).kept tile.old }
    {
        let frame = self.frames.as_slice()[self.count as usize - 1];
        let alone = Alone::of(place_of_span(&self.span), frame);
        put_frame(alone.slices(), tile);
    }

    /// The n-th colour and depth, from 0, that the one of this number keeps of pixel (x, y).
    pub(crate) fn kept(&self, number: usize, x: u32, y: u32, n: usize) -> Option<(Colour, u16)>
        requires rise { (count : ℕ) × Rise 0 self.now count }
        ensures { result ≡ slice_get (kept_at (found number self.now) x y) n }
    {
        kept_in(self.alone(number)?.slices(), x, y, n)
    }

    /// Adds the first colours and depths, at most so many, that the one of this number keeps of a pixel.
    pub(crate) fn add_kept(
        &self,
        number: usize,
        pixel: (u32, u32),
        count: usize,
        kept: &mut Vec<(Colour, u16)>,
    ) -> Result<(), AllocError>
        requires rise { (count : ℕ) × Rise 0 self.now count }
        ensures kept { OnOk result (kept.new.items ≡ kept.old.items ++ take count (kept_at (found number self.now) pixel.0 pixel.1)) }
        ensures wanted { OnErr result Wanted }
    {
        match self.alone(number) {
            Some(alone) => add_kept_in(alone.slices(), pixel, count, kept),
            None => Ok(()),
        }
    }

    /// The one of this number by itself.
    #[tactic(auto, using(crate::proofs::SharedLemmas::shared_steps))]
    fn alone(&self, number: usize) -> Option<Alone>
        requires rise { (count : ℕ) × Rise 0 self.now count }
        ensures there { IfSome result (λ alone. alone ≡ found number self.now) }
        ensures absent { IfNone result (found number self.now ≡ []) }
    {
        let frames = &self.frames.as_slice()[..self.count as usize];
        let at = at_number(frames, number)?;
        Some(Alone::of(place_of_span(&self.span), frames[at]))
    }
}

/// A frame that keeps all of a place, which was alike, by itself.
#[derive(Drop)]
struct Alone {
    spans: [Span; 1],
    colours: [Colour; 1],
}

impl Model for Alone {
    ghost use Rattle.std.specs.Prelude.{◌≡◌, [], List};
    ghost use Rattle.fd_undo.specs.Frame.{KeptPixel};
    ghost use Rattle.fd_undo.specs.Rows.{rows_in, joined, IsHeld};

    ghost Value = { List KeptPixel };

    ghost view = { λ a. joined (rows_in a.spans a.colours []) };

    ghost invariant = { λ a. IsHeld a.spans a.colours [] };
}

impl Alone {
    #[tactic(auto, using(crate::proofs::SharedLemmas::alone_steps))]
    fn of(place: Place, frame: AlikeFrame) -> Alone
        requires { IsTilePlace place }
        ensures { result ≡ alike place (frame.colour, frame.depth) }
    {
        Alone {
            spans: [Span::whole(place, true, Some(frame.depth))],
            colours: [frame.colour],
        }
    }

    fn slices(&self) -> SpanSlices<'_>
        ensures whole { AreSpanSlices result }
        ensures kept { kept_in_slices result ≡ self.now }
    {
        SpanSlices {
            spans: &self.spans,
            colours: &self.colours,
            depths: &[],
        }
    }
}

/// The place of a span.
fn place_of_span(span: &Span) -> Place
    ensures { result ≡ place_of_span span.now }
{
    Place {
        left: span.x(),
        top: span.y(),
        width: span.len() as u32,
        height: span.rows(),
    }
}

/// Where the frame of this number is, if there is one.
fn at_number(frames: &[AlikeFrame], number: usize) -> Option<usize>
    requires { AlikeRise frames.now }
    ensures there { IfSome result (λ at. (at < length frames.now) × ((slice_index_or frames.now at (no_alike fresh)).number ≡ number)) }
    ensures absent { result ≡ None → (at : ℕ) → at < length frames.now → (slice_index_or frames.now at (no_alike fresh)).number ≢ number }
{
    frames
        .binary_search_by_key(&number, |frame| frame.number as usize)
        .ok()
}
