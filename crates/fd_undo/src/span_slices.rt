ghost use Rattle.std.specs.Prelude.{◌≡◌, ◌-◌, ◌<◌, ◌≤◌, ◌++◌, length, take, drop};
ghost use Rattle.fd_undo.specs.Rows.{listed_colours, listed_depths, span_pixels};
ghost use Rattle.fd_undo.specs.SpanSlices.{AreSpanSlices, kept_in_slices};

use crate::span::{Span, last_of};
use fd_blend::Colour;

/// Spans that follow one another, and the lists with their values.
#[derive(Clone, Copy)]
pub(crate) struct SpanSlices<'a> {
    pub(crate) spans: &'a [Span],
    pub(crate) colours: &'a [Colour],
    pub(crate) depths: &'a [u16],
}

/// A place between two spans: how many spans, colours and depths stand before it.
#[derive(Clone, Copy)]
pub(crate) struct Cut {
    pub(crate) span: usize,
    pub(crate) colour: usize,
    pub(crate) depth: usize,
}

impl<'a> SpanSlices<'a> {
    /// All but the last span, and that with its own values.
    #[tactic(auto, using(crate::proofs::RowLemmas::slices_split_last_steps))]
    pub(crate) fn split_last(self) -> (SpanSlices<'a>, Span, SpanSlices<'a>)
        requires whole { AreSpanSlices self }
        requires some { 0 < length self.spans.now }
        ensures whole { AreSpanSlices result.0 }
        ensures fewer { length result.0.spans.now < length self.entry.spans.now }
        ensures coloured { length result.2.colours.now ≡ listed_colours result.1 }
        ensures deep { length result.2.depths.now ≡ listed_depths result.1 }
        ensures kept { kept_in_slices self.entry ≡ kept_in_slices result.0 ++ span_pixels result.1 result.2.colours.now result.2.depths.now }
    {
        let span = last_of(self.spans);
        let spans = self.spans.split_at(self.spans.len() - 1);
        let colours = self
            .colours
            .split_at(self.colours.len() - span.listed_colours());
        let depths = self
            .depths
            .split_at(self.depths.len() - span.listed_depths());
        let rest = SpanSlices {
            spans: spans.0,
            colours: colours.0,
            depths: depths.0,
        };
        let last = SpanSlices {
            spans: spans.1,
            colours: colours.1,
            depths: depths.1,
        };
        (rest, span, last)
    }
}

/// The items from one place of a list up to another.
pub(crate) fn part<T>(items: &[T], first: usize, end: usize) -> &[T]
    requires ordered { first ≤ end }
    requires within { end ≤ length items.now }
    ensures { result.now ≡ take (end - first) (drop first items.now) }
{
    &items[first..end]
}
