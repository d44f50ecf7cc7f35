ghost use Rattle.std.specs.Prelude.{◌≡◌, ℕ, ◌<◌, ◌≤◌, ◌+◌, IsTrue, IfSome, IfNone};
ghost use Rattle.fd_cover.specs.Span.{IsSpan, IsUncovered};
ghost use Rattle.fd_snap.specs.Limits.{most_pixels};

use crate::edge::Edge;
use crate::point::Point;
use crate::triangle::Tri;
use std::marker::Model;

/// The covered pixels of a triangle, one row after another downwards. Contracts see the triangle and the row at which it stands.
///
/// From a row to the next only three numbers change, one for each edge.
#[derive(Drop)]
pub struct Scanlines {
    triangle: Tri,
    y: u32,
    first: Edge,
    second: Edge,
    third: Edge,
}

impl Model for Scanlines {
    ghost use Rattle.std.specs.Prelude.{ℕ, ◌≤◌};
    ghost use Rattle.fd_cover.specs.declared.triangle.Tri.{Tri};

    ghost Value = { Tri × ℕ };

    ghost use Rattle.fd_cover.specs.Scanlines.{AreEdges, clockwise};
    ghost use Rattle.fd_snap.specs.Limits.{most_pixels};

    ghost view = { λ lines. (lines.triangle, lines.y) };

    ghost invariant = { λ lines. (lines.y ≤ most_pixels) × AreEdges (clockwise lines.triangle) lines.y lines.first lines.second lines.third };
}

impl Scanlines {
    /// The rows of a triangle from row y on.
    pub fn of(triangle: &Tri, y: u32) -> Scanlines
        requires row { y < most_pixels }
        ensures { result ≡ (triangle.now, y) }
    {
        let clockwise = triangle.clockwise();
        let a = Point::vertex(clockwise.a);
        let b = Point::vertex(clockwise.b);
        let c = Point::vertex(clockwise.c);
        Scanlines {
            triangle: *triangle,
            y,
            first: Edge::of(a, b, c, y),
            second: Edge::of(b, c, a, y),
            third: Edge::of(c, a, b, y),
        }
    }

    /// The covered pixels of the row in the columns from x0 to before x1, as the first column and one past the last; None if there are none.
    ///
    /// Each edge leaves an interval of the row. Where an edge cuts it, a division finds the place.
    pub fn span(&self, x0: u32, x1: u32) -> Option<(u32, u32)>
        requires row { self.now.1 < most_pixels }
        requires order { x0 ≤ x1 }
        requires columns { x1 ≤ most_pixels }
        ensures span { IfSome result (λ s. IsSpan self.now.0 self.now.1 x0 x1 s.0 s.1) }
        ensures none { IfNone result (IsUncovered self.now.0 self.now.1 x0 x1) }
    {
        let (left, right) = self.first.within(x0, x1);
        let (left, right) = self.second.within(left, right);
        let (left, right) = self.third.within(left, right);
        if left < right {
            Some((left, right))
        } else {
            None
        }
    }

    /// Whether the triangle covers none of the columns from x0 to before x1, at this row and at each of so many rows below, as far as it lies beyond
    /// one of its edges.
    pub fn misses(&self, x0: u32, x1: u32, below: u32) -> bool
        requires rows { self.now.1 + below < most_pixels }
        requires some { x0 < x1 }
        requires columns { x1 ≤ most_pixels }
        ensures { IsTrue result → (n : ℕ) → n ≤ below → IsUncovered self.now.0 (self.now.1 + n) x0 x1 }
    {
        self.first.leaves_out(x0, x1, below)
            || self.second.leaves_out(x0, x1, below)
            || self.third.leaves_out(x0, x1, below)
    }

    /// Goes on to the next row.
    pub fn down(&mut self)
        requires row { self.old.1 < most_pixels }
        ensures { self.new ≡ (self.old.0, self.old.1 + 1) }
    {
        self.first = self.first.below();
        self.second = self.second.below();
        self.third = self.third.below();
        self.y += 1;
    }
}

/// The covered pixels of row y in the columns from x0 to before x1, as the first column and one past the last; None if there are none.
pub fn row_span(triangle: &Tri, y: u32, x0: u32, x1: u32) -> Option<(u32, u32)>
    requires row { y < most_pixels }
    requires order { x0 ≤ x1 }
    requires columns { x1 ≤ most_pixels }
    ensures span { IfSome result (λ s. IsSpan triangle.now y x0 x1 s.0 s.1) }
    ensures none { IfNone result (IsUncovered triangle.now y x0 x1) }
{
    Scanlines::of(triangle, y).span(x0, x1)
}
