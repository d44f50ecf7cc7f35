ghost use Rattle.std.specs.Prelude.{◌≡◌, ◌+◌, ◌-◌, ◌<◌, ◌≤◌, length, All, IsSomeAnd, true, false};
ghost use borrow.Rule.Slice.PartMut.{put_mid};
ghost use Rattle.fd_tile.specs.Place.{Holds};
ghost use Rattle.fd_tile.specs.Tile.{row_of, with_row_left, IsFlat, IsTileImage};
ghost use Rattle.fd_undo.specs.Frame.{restored, IsAlike, FitDepths};
ghost use Rattle.fd_undo.specs.Rows.{row_colours, listed_colours, colours_in, row_depths, listed_depths, depths_in, row_of_span, span_pixels};
ghost use Rattle.fd_undo.specs.SpanSlices.{AreSpanSlices, kept_in_slices};
ghost use Rattle.fd_undo.specs.Whole.{AreWholeRows, HoldsSpan, IsAsDeep};

use crate::kept::kept_in;
use crate::span::Span;
use crate::span_slices::SpanSlices;
use crate::whole::have_all_rows;
use fd_blend::Colour;
use fd_tile::{Tile, fill};

/// Writes what some spans keep back, the last kept first. On a tile that isn't made they keep nothing, or all of it, which was alike.
pub(crate) fn put_frame(slices: SpanSlices<'_>, tile: &mut Tile)
    requires whole { AreSpanSlices slices }
    requires alike { tile.old.made ≡ false → IsAlike tile.old.place (kept_in_slices slices) }
    requires depths { FitDepths tile.old.deep (kept_in_slices slices) }
    requires inside { All (λ k. Holds tile.old.place k.x k.y) (kept_in_slices slices) }
    ensures { tile.new ≡ restored (kept_in_slices slices.entry) tile.old }
{
    if tile.is_made() {
        level(slices, tile);
        put_spans(slices, tile);
    } else {
        put_alike(slices, tile);
    }
}

/// The same of spans that keep nothing of the tile, or all of it, which was alike.
#[tactic(auto, using(crate::proofs::Pixelwise::restored_as_read))]
fn put_alike(slices: SpanSlices<'_>, tile: &mut Tile)
    requires whole { AreSpanSlices slices }
    requires alike { IsAlike tile.old.place (kept_in_slices slices) }
    requires depths { FitDepths tile.old.deep (kept_in_slices slices) }
    ensures { tile.new ≡ restored (kept_in_slices slices.entry) tile.old }
{
    let place = tile.place();
    if let Some((colour, depth)) = kept_in(slices, place.left, place.top, 0) {
        tile.fill_colours(colour);
        tile.fill_depths(depth);
    }
}

/// Where some spans have all rows of a deep tile all its pixels are made as deep as the first of them: those that are so deep then need their colours alone,
/// and the tile knows of its depth.
fn level(slices: SpanSlices<'_>, tile: &mut Tile)
    requires whole { AreSpanSlices slices }
    requires inside { All (λ k. Holds tile.old.place k.x k.y) (kept_in_slices slices) }
    ensures place { tile.new.place ≡ tile.old.place }
    ensures made { tile.new.made ≡ tile.old.made }
    ensures deep { tile.new.deep ≡ tile.old.deep }
    ensures same { restored (kept_in_slices slices.entry) tile.new ≡ restored (kept_in_slices slices.entry) tile.old }
{
    let spans = slices.spans;
    let place = tile.place();
    if let [first, ..] = spans {
        if let Some(deep) = first.same_depth() {
            if tile.is_deep() && have_all_rows(spans, place) {
                tile.fill_depths(deep);
            }
        }
    }
}

/// Writes what some spans keep back on a tile that is made.
#[tactic(auto, using(crate::proofs::Restored::put_spans_steps))]
fn put_spans(slices: SpanSlices<'_>, tile: &mut Tile)
    requires made { tile.old.made ≡ true }
    requires whole { AreSpanSlices slices }
    requires depths { FitDepths tile.old.deep (kept_in_slices slices) }
    requires inside { All (λ k. Holds tile.old.place k.x k.y) (kept_in_slices slices) }
    ensures { tile.new ≡ restored (kept_in_slices slices.entry) tile.old }
{
    let mut left = slices;
    while !left.spans.is_empty() {
        let (rest, span, last) = left.split_last();
        put_back(tile, &span, last.colours, last.depths);
        left = rest;
    }
}

/// Writes the colours and depths of a span back.
#[tactic(auto, using(crate::proofs::Restored::put_back_steps))]
fn put_back(tile: &mut Tile, span: &Span, colours: &[Colour], depths: &[u16])
    requires made { tile.old.made ≡ true }
    requires counted { length colours.now ≡ listed_colours span.now }
    requires depths_counted { length depths.now ≡ listed_depths span.now }
    requires lies { 1 ≤ span.now.rows → 0 < span.now.len → HoldsSpan tile.old.place span.now }
    requires depths { FitDepths tile.old.deep (span_pixels span.now colours.now depths.now) }
    ensures { tile.new ≡ restored (span_pixels span.now colours.now depths.now) tile.old }
{
    if span.len() == 0 {
        return;
    }
    if are_whole_rows(tile, span) {
        tile.put_rows(span.y(), span.rows(), colours);
        return;
    }
    let mut row = span.rows();
    while row > 0 {
        row -= 1;
        let listed = &colours[span.colours_above(row)..];
        let deep = &depths[span.depths_above(row)..];
        put_row(tile, span, span.y() + row, listed, deep);
    }
}

/// Whether a span has whole rows of the tile, each pixel with a colour in the list, which are as deep as all pixels of the tile.
fn are_whole_rows(tile: &Tile, span: &Span) -> bool
    ensures whole { result ≡ true → AreWholeRows tile.now span.now }
    ensures filled { IsTileImage tile.now }
{
    let width = tile.place().width as usize;
    !span.one_colour() && span.len() == width && is_flat(tile, span)
}

/// Writes row y of a span back, where it has pixels and its own values stand first in the lists. Where all pixels of the tile are as deep as its own, no depth
/// is looked at.
#[tactic(auto, using(crate::proofs::Restored::row_flat))]
fn put_row(tile: &mut Tile, span: &Span, y: u32, colours: &[Colour], depths: &[u16])
    requires made { tile.old.made ≡ true }
    requires depths { FitDepths tile.old.deep (row_of_span span.now y colours.now depths.now) }
    requires counted { row_colours span.now ≤ length colours.now }
    requires depths_counted { row_depths span.now ≤ length depths.now }
    requires first { Holds tile.old.place span.now.x y }
    requires within { span.now.x + span.now.len ≤ tile.old.place.left + tile.old.place.width }
    ensures { tile.new ≡ restored (row_of_span span.now y colours.now depths.now) tile.old }
{
    if is_flat(tile, span) {
        put_colours(tile, span, y, colours);
    } else {
        put_both(tile, span, y, colours, depths);
    }
}

/// Whether all pixels of the tile are as deep as a span's, as those of a tile are that isn't deep.
fn is_flat(tile: &Tile, span: &Span) -> bool
    ensures as_deep { result ≡ true → IsAsDeep tile.now span.now }
    ensures deep { result ≡ false → tile.now.deep ≡ true }
{
    if !tile.is_deep() {
        return true;
    }
    match (span.same_depth(), tile.flat_depth()) {
        (Some(depth), Some(flat)) => depth == flat,
        _ => false,
    }
}

/// Writes the colours of row y of a span back.
fn put_colours(tile: &mut Tile, span: &Span, y: u32, listed: &[Colour])
    requires made { tile.old.made ≡ true }
    requires counted { row_colours span.now ≤ length listed.now }
    requires first { Holds tile.old.place span.now.x y }
    requires within { span.now.x + span.now.len ≤ tile.old.place.left + tile.old.place.width }
    ensures written { tile.new ≡ with_row_left tile.old y
        (put_mid (span.now.x - tile.old.place.left) span.now.len (row_of tile.old y) (colours_in span.now listed.now)) }
    ensures filled { IsTileImage tile.old }
{
    let start = (span.x() - tile.place().left) as usize;
    let row = tile.row_mut(y);
    write_colours(&mut row[start..start + span.len()], span, listed);
}

/// Writes the colours and depths of row y of a span back, where it has pixels.
#[tactic(auto, using(crate::proofs::Restored::row_restored, crate::proofs::Restored::row_parts, crate::proofs::Restored::span_values))]
fn put_both(tile: &mut Tile, span: &Span, y: u32, colours: &[Colour], depths: &[u16])
    requires made { tile.old.made ≡ true }
    requires deep { tile.old.deep ≡ true }
    requires counted { row_colours span.now ≤ length colours.now }
    requires depths_counted { row_depths span.now ≤ length depths.now }
    requires first { Holds tile.old.place span.now.x y }
    requires within { span.now.x + span.now.len ≤ tile.old.place.left + tile.old.place.width }
    ensures { tile.new ≡ restored (row_of_span span.now y colours.now depths.now) tile.old }
{
    let len = span.len();
    let start = (span.x() - tile.place().left) as usize;
    put_colours(tile, span, y, colours);
    let row = tile.depth_row_mut(y);
    write_depths(&mut row[start..start + len], span, depths);
}

/// Writes the colours of a span over others: one for all, or those listed.
fn write_colours(row: &mut [Colour], span: &Span, listed: &[Colour])
    requires counted { length row.old ≡ span.now.len }
    requires listed_counted { row_colours span.now ≤ length listed.now }
    ensures { row.new ≡ colours_in span.now listed.now }
{
    if span.one_colour() {
        fill(row, listed[0]);
    } else {
        row.copy_from_slice(&listed[..span.len()]);
    }
}

/// Writes the depths of a span over others: all the same, or those listed.
fn write_depths(row: &mut [u16], span: &Span, depths: &[u16])
    requires counted { length row.old ≡ span.now.len }
    requires depths_counted { row_depths span.now ≤ length depths.now }
    ensures { row.new ≡ depths_in span.now depths.now }
{
    match span.same_depth() {
        Some(depth) => fill(row, depth),
        None => row.copy_from_slice(&depths[..span.len()]),
    }
}
