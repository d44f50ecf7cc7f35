ghost use Rattle.std.specs.Prelude.{◌≡◌, ℕ, ◌+◌, ◌<◌, ◌≤◌, false, ◌&&◌, IfSome, IfNone, option_map};
ghost use Rattle.fd_cover.specs.Bounds.{is_within};
ghost use Rattle.fd_cover.specs.Covers.{covers};
ghost use Rattle.fd_snap.specs.Limits.{most_pixels};
ghost use Rattle.fd_tile.specs.declared.place.TheConstants.{TILE_SIDE};
ghost use Rattle.fd_draw.specs.Area.{IsPartOfBox, IsSmall, is_drawn_in};
ghost use Rattle.fd_draw.specs.Found.{IsFound, span_from};
ghost use Rattle.fd_draw.specs.Run.{ends_of};
ghost use Rattle.fd_draw.specs.Span.{IsRowSpan};

use crate::demand::{Demand, NOTHING};
use crate::run::Run;
use crate::write::WIDEST;
use fd_cover::{Bounds, Raster, Scanlines, Tri};

/// Neighbouring pixels of a row, by columns counted from a box's left: the first, and one past the last. There are none where these are
/// the same.
#[derive(Clone, Copy)]
pub(crate) struct RowSpan {
    first: u8,
    past: u8,
}

/// Of a row in which nothing is covered.
const NO_PIXEL: RowSpan = RowSpan { first: 0, past: 0 };

/// The pixels that a triangle covers in a box of a tile, row by row from the box's top, and how many they are.
#[derive(Clone, Copy)]
pub(crate) struct Found {
    pub area: Bounds,
    pub demand: Demand,
    rows: [RowSpan; WIDEST],
}

impl Default for Found {
    ghost is_default = { λ f. Unit {0} };

    /// Nothing, in an empty box.
    fn default() -> Found {
        Found {
            area: Bounds::empty(),
            demand: NOTHING,
            rows: [NO_PIXEL; WIDEST],
        }
    }
}

impl RowSpan {
    /// A span by its columns, which are then counted from this one.
    fn of(span: Option<(u32, u32)>, left: u32) -> RowSpan
        requires { IfSome span (λ s. (left ≤ s.0) × (s.0 < s.1) × (s.1 ≤ left + TILE_SIDE)) }
        ensures { span_from left result ≡ span }
    {
        match span {
            Some((first, past)) => RowSpan {
                first: (first - left) as u8,
                past: (past - left) as u8,
            },
            None => NO_PIXEL,
        }
    }
}

impl Found {
    /// What the triangle of these scanlines, the first of which is the box's, covers in a box.
    fn of(mut edges: Scanlines, area: Bounds) -> Found
        requires small { IsSmall area }
        requires some { area.top < area.bottom }
        requires top { edges.1 ≡ area.top }
        ensures found { IsFound edges.0 result }
        ensures area { result.area ≡ area }
    {
        let mut demand = NOTHING;
        let mut rows = [NO_PIXEL; WIDEST];
        for y in area.top..area.bottom {
            let span = covered_span(&edges, area.left, area.right);
            rows[(y - area.top) as usize] = RowSpan::of(span, area.left);
            if let Some((left, right)) = span {
                demand.spans += 1;
                demand.pixels += (right - left) as usize;
            }
            edges.down();
        }
        Found { area, demand, rows }
    }

    /// What the triangle covers in row y of the box.
    pub(crate) fn span(&self, triangle: &Tri, y: u32) -> Option<Run>
        requires found { IsFound triangle.now self.now }
        requires from_top { self.now.area.top ≤ y }
        requires to_bottom { y < self.now.area.bottom }
        ensures span { IsRowSpan (λ x. covers triangle.now x y) self.now.area.left self.now.area.right (option_map ends_of result) }
        ensures row { IfSome result (λ run. run.y ≡ y) }
    {
        let row = self.rows[(y - self.area.top) as usize];
        if row.first < row.past {
            let left = self.area.left;
            Some(Run {
                left: left + u32::from(row.first),
                right: left + u32::from(row.past),
                y,
            })
        } else {
            None
        }
    }
}

/// What a triangle covers in the box in which it is drawn wherever it covers a pixel, where `window` has the pixels that the scissor
/// leaves. None where it is culled, or its own box misses them, or they lie beyond one of its edges.
pub(crate) fn find(triangle: &Tri, raster: &Raster, window: Bounds) -> Option<Found>
    requires { IsSmall window }
    ensures found { IfSome result (λ found. IsFound triangle.now found) }
    ensures part { IfSome result (λ found. IsPartOfBox found.area window) }
    ensures drawn { IfSome result
        (λ found. (x y : ℕ) → is_drawn_in window raster.now triangle.now x y ≡ (is_within found.area x y && covers triangle.now x y)) }
    ensures none { IfNone result ((x y : ℕ) → is_drawn_in window raster.now triangle.now x y ≡ false) }
{
    let area = drawn_area(triangle, raster, window)?;
    let edges = Scanlines::of(triangle, area.top);
    if edges.misses(area.left, area.right, area.bottom - 1 - area.top) {
        return None;
    }
    Some(Found::of(edges, area))
}

/// The box in which a triangle is drawn wherever it covers a pixel, where `window` has the pixels that the scissor leaves. None
/// where it is culled, or its own box misses them.
fn drawn_area(triangle: &Tri, raster: &Raster, window: Bounds) -> Option<Bounds>
    ensures part { IfSome result (λ area. IsPartOfBox area window) }
    ensures drawn { IfSome result (λ area. (x y : ℕ) → is_drawn_in window raster.now triangle.now x y ≡ (is_within area x y && covers triangle.now x y)) }
    ensures none { IfNone result ((x y : ℕ) → is_drawn_in window raster.now triangle.now x y ≡ false) }
{
    let area = window.meet(Bounds::of(triangle));
    if area.is_empty() || raster.culls(triangle) {
        None
    } else {
        Some(area)
    }
}

/// The columns from `left` up to `right` that a triangle covers in the row at which its scanlines stand, as the first and one past the last.
fn covered_span(lines: &Scanlines, left: u32, right: u32) -> Option<(u32, u32)>
    requires row { lines.now.1 < most_pixels }
    requires order { left ≤ right }
    requires columns { right ≤ most_pixels }
    ensures { IsRowSpan (λ x. covers lines.now.0 x lines.now.1) left right result }
{
    lines.span(left, right)
}
