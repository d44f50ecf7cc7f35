ghost use Rattle.std.specs.Prelude.{◌≡◌, ℕ, ◌<◌, ◌≤◌, ◌^◌, ◌↔◌, ℤ, pos, ◌+ℤ◌, ◌-ℤ◌, ◌*ℤ◌, ◌≤ℤ◌, ◌<ℤ◌, IsTrue, unsigned_abs};
ghost use Rattle.fd_cover.specs.Scanlines.{IsEdge, margin};
ghost use Rattle.fd_snap.specs.Limits.{most_pixels};

use crate::coverage::is_top;
use crate::point::{Point, cross};

/// An edge of a clockwise triangle at a row: it admits the columns x with `step * x <= slack`, and the slack grows by `down` from a row to the next.
#[derive(Clone, Copy)]
pub(crate) struct Edge {
    step: i64,
    slack: i64,
    down: i64,
}

impl Edge {
    /// The edge from u to v at row y.
    ///
    /// A column is 256 units, so a centre's side falls by 256 times the edge's height from one to the next, at most 256 * 2^23.
    pub(crate) fn of(u: Point, v: Point, opposite: Point, y: u32) -> Edge
        requires row { y < most_pixels }
        ensures { IsEdge u v opposite y result }
    {
        Edge {
            step: 256 * u.down_to(v),
            slack: cross(u, v, Point::centre(0, y)) - margin(u, v, opposite),
            down: 256 * u.right_to(v),
        }
    }

    /// The edge at the next row.
    pub(crate) fn below(self) -> Edge
        requires slack { unsigned_abs self.slack ≤ 2 ^ 49 }
        requires down { unsigned_abs self.down ≤ 2 ^ 31 }
        ensures { result ≡ record { step = self.step; slack = self.slack +ℤ self.down; down = self.down } }
    {
        Edge {
            slack: self.slack + self.down,
            ..self
        }
    }

    /// How far the product at a column is below the slack.
    fn room(self, x: u32) -> i64
        requires column { x ≤ most_pixels }
        requires step { unsigned_abs self.step ≤ 2 ^ 31 }
        requires slack { unsigned_abs self.slack ≤ 2 ^ 49 }
        ensures value { result ≡ self.slack -ℤ self.step *ℤ pos x }
        ensures bound { unsigned_abs result ≤ 2 ^ 50 }
    {
        self.slack - self.step * i64::from(x)
    }

    /// Whether the edge leaves out each of the columns from `start` to before `end`, at its row and at each of so many rows below it.
    pub(crate) fn leaves_out(self, start: u32, end: u32, below: u32) -> bool
        requires some { start < end }
        requires columns { end ≤ most_pixels }
        requires rows { below < most_pixels }
        requires step { unsigned_abs self.step ≤ 2 ^ 31 }
        requires slack { unsigned_abs self.slack ≤ 2 ^ 49 }
        requires down { unsigned_abs self.down ≤ 2 ^ 31 }
        ensures { IsTrue result → (x n : ℕ) → start ≤ x → x < end → n ≤ below → (self.slack +ℤ self.down *ℤ pos n) <ℤ (self.step *ℤ pos x) }
    {
        let column = least_at(self.step, start, end - 1);
        let row = greatest_at(self.down, 0, below);
        self.room(column) + self.down * i64::from(row) < 0
    }

    /// The columns from `start` to before `end` that the edge admits, as the first and one past the last.
    pub(crate) fn within(self, start: u32, end: u32) -> (u32, u32)
        requires order { start ≤ end }
        requires columns { end ≤ most_pixels }
        requires step { unsigned_abs self.step ≤ 2 ^ 31 }
        requires slack { unsigned_abs self.slack ≤ 2 ^ 49 }
        ensures first { start ≤ result.0 }
        ensures order { result.0 ≤ result.1 }
        ensures last { result.1 ≤ end }
        ensures columns { (x : ℕ) → start ≤ x → x < end → ((self.step *ℤ pos x) ≤ℤ self.slack) ↔ ((result.0 ≤ x) × (x < result.1)) }
    {
        let at_start = self.room(start);
        let past_end = self.room(end);
        if 0 <= at_start && 0 <= past_end + self.step {
            (start, end)
        } else if at_start < 0 && past_end + self.step < 0 {
            (start, start)
        } else {
            self.cut(start, end)
        }
    }

    /// The same by a division, which finds the last column or the first one.
    fn cut(self, start: u32, end: u32) -> (u32, u32)
        requires order { start ≤ end }
        ensures first { start ≤ result.0 }
        ensures order { result.0 ≤ result.1 }
        ensures last { result.1 ≤ end }
        ensures columns { (x : ℕ) → start ≤ x → x < end → ((self.step *ℤ pos x) ≤ℤ self.slack) ↔ ((result.0 ≤ x) × (x < result.1)) }
    {
        let step = self.step.unsigned_abs();
        let slack = self.slack.unsigned_abs();
        if 0 < self.step && 0 <= self.slack {
            let past = (slack / step + 1).clamp(u64::from(start), u64::from(end));
            (start, past as u32)
        } else if self.step < 0 && self.slack < 0 {
            let first = slack.div_ceil(step).clamp(u64::from(start), u64::from(end));
            (first as u32, end)
        } else if 0 <= self.slack {
            (start, end)
        } else {
            (start, start)
        }
    }
}

/// By how much a point's side of an edge of a clockwise triangle has to be above 0. A top or a left edge has its own points too.
fn margin(u: Point, v: Point, opposite: Point) -> i64
    ensures value { result ≡ margin u v opposite }
    ensures bound { unsigned_abs result ≤ 1 }
{
    if is_top(u, v, opposite) || v.y() < u.y() {
        0
    } else {
        1
    }
}

/// Of the numbers from `first` to `last`, the one whose product with a factor is the least.
fn least_at(factor: i64, first: u32, last: u32) -> u32
    requires { first ≤ last }
    ensures from { first ≤ result }
    ensures to { result ≤ last }
    ensures least { (n : ℕ) → first ≤ n → n ≤ last → (factor *ℤ pos result) ≤ℤ (factor *ℤ pos n) }
{
    if factor < 0 { last } else { first }
}

/// The one whose product is the greatest.
fn greatest_at(factor: i64, first: u32, last: u32) -> u32
    requires { first ≤ last }
    ensures from { first ≤ result }
    ensures to { result ≤ last }
    ensures greatest { (n : ℕ) → first ≤ n → n ≤ last → (factor *ℤ pos n) ≤ℤ (factor *ℤ pos result) }
{
    if factor < 0 { first } else { last }
}
