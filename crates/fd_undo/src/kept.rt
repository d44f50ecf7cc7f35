ghost use Rattle.std.specs.Prelude.{◌≡◌, ◌+◌, ◌-◌, ◌≤◌, ◌++◌, length, take, drop, slice_get, slice_index_or, OnErr, OnOk, true};
ghost use Rattle.fd_tile.specs.Tile.{fresh_pixel};
ghost use Rattle.fd_undo.specs.Frame.{kept_at};
ghost use Rattle.fd_undo.specs.Rows.{span_holds, listed_colours, listed_depths, pixels_of_row};
ghost use Rattle.fd_undo.specs.SpanSlices.{AreSpanSlices, kept_in_slices};
ghost use Rattle.fd_memory.specs.Wanting.{Wanted};

use crate::span::Span;
use crate::span_slices::SpanSlices;
use fd_blend::Colour;
use std::alloc::AllocError;

/// The n-th colour and depth, from 0, that some spans keep of pixel (x, y).
pub(crate) fn kept_in(slices: SpanSlices<'_>, x: u32, y: u32, n: usize) -> Option<(Colour, u16)>
    requires { AreSpanSlices slices }
    ensures { result ≡ slice_get (kept_at (kept_in_slices slices.entry) x y) n }
{
    let (mut first_colour, mut first_depth) = (0, 0);
    let mut left = n;
    for span in slices.spans {
        if span.holds(x, y) {
            if left == 0 {
                return Some(pixel_of(span, slices, first_colour, first_depth, (x, y)));
            }
            left -= 1;
        }
        first_colour += span.listed_colours();
        first_depth += span.listed_depths();
    }
    None
}

/// Adds the first colours and depths, at most so many, that some spans keep of a pixel.
pub(crate) fn add_kept_in(
    slices: SpanSlices<'_>,
    pixel: (u32, u32),
    count: usize,
    kept: &mut Vec<(Colour, u16)>,
) -> Result<(), AllocError>
    requires { AreSpanSlices slices }
    ensures kept { OnOk result (kept.new.items ≡ kept.old.items ++ take count (kept_at (kept_in_slices slices.entry) pixel.0 pixel.1)) }
    ensures wanted { OnErr result Wanted }
{
    let (mut first_colour, mut first_depth) = (0, 0);
    let mut left = count;
    for span in slices.spans {
        if left == 0 {
            return Ok(());
        }
        if span.holds(pixel.0, pixel.1) {
            let before = pixel_of(span, slices, first_colour, first_depth, pixel);
            fd_memory::push(kept, before)?;
            left -= 1;
        }
        first_colour += span.listed_colours();
        first_depth += span.listed_depths();
    }
    Ok(())
}

/// The colour and the depth that one of some spans keeps of one of its pixels. Its own colours in the list stand from `colour` on, and its depths from `depth`
/// on.
#[tactic(auto, using(crate::proofs::RowLemmas::kept_pixel_of_steps))]
fn pixel_of(
    span: &Span,
    slices: SpanSlices<'_>,
    colour: usize,
    depth: usize,
    pixel: (u32, u32),
) -> (Colour, u16)
    requires held { span_holds span.now pixel.0 pixel.1 ≡ true }
    requires colours { colour + listed_colours span.now ≤ length slices.colours.now }
    requires depths { depth + listed_depths span.now ≤ length slices.depths.now }
    ensures { result ≡ slice_index_or
        (pixels_of_row span.now (drop colour slices.entry.colours.now) (drop depth slices.entry.depths.now) (pixel.1 - span.now.y))
        (pixel.0 - span.now.x) fresh_pixel }
{
    let (row, column) = (pixel.1 - span.y(), (pixel.0 - span.x()) as usize);
    let first_colour = colour + span.colours_above(row);
    let first_depth = depth + span.depths_above(row);
    (
        span.colour(slices.colours, first_colour, column),
        span.depth(slices.depths, first_depth, column),
    )
}
