//! How a number between a triangle's vertices changes along a row of covered pixels.
//!
//! Such a number is a rounded mean: a numerator that changes by equal steps, divided by twice the double area. An accumulator is that quotient in fixed point:
//! a channel is its highest byte, and a depth its highest two. It moves by equal steps too, so that no pixel takes a division.
//!
//! A channel's accumulator has 56 bits of fraction and begins `LIFT` units above its quotient. A step is the difference of two quotients, and each quotient is
//! less than 3 units too low. So in 32 pixels an accumulator is above the exact one by less than 192 units, and never below it. An exact quotient whose next
//! whole number is not reached is below it by at least 2^56 units through twice the double area, which is at most 2^48: 256 units. So the whole part is exact,
//! and no remainder is kept. A depth has 48 bits of fraction, and is walked only where those are fine enough.
ghost use Rattle.std.specs.Prelude.{◌≤◌, ◌+◌, ◌*◌, ◌^◌, IfSome};
ghost use Rattle.fd_cover.specs.Gradient.{AreSides, IsGradient, IsStepBy};

use crate::change::{Change, descent};
use crate::point::Point;
use crate::reciprocal::Reciprocal;
use crate::triangle::Tri;

/// By how many units an accumulator begins above its quotient.
pub(crate) const LIFT: u64 = 96;

/// By how much the weights of a triangle's vertices grow, and by how much they shrink, from a covered pixel to its right neighbour. Each of them does one or
/// the other, and together they do neither.
#[derive(Clone, Copy)]
pub(crate) struct Gradient {
    rise: Change,
    fall: Change,
}

impl Gradient {
    /// None where the triangle is nowhere as wide as a pixel, and no row of it has two.
    pub(crate) fn of(triangle: &Tri) -> Option<Gradient>
        ensures { IfSome result (λ g. IsGradient triangle.now g.rise g.fall) }
    {
        let (down, up) = sides(triangle);
        let area = triangle.area();
        if area == 0 || area.unsigned_abs() < down.sum().max(up.sum()) {
            return None;
        }
        Some(if 0 < area {
            Gradient {
                rise: up,
                fall: down,
            }
        } else {
            Gradient {
                rise: down,
                fall: up,
            }
        })
    }

    /// How far a channel's accumulator moves from a pixel to its right neighbour, by the channel of each vertex.
    pub(crate) fn step(self, divisor: Reciprocal, a: u8, b: u8, c: u8) -> u64
        requires rise { 2 * (self.rise.a + self.rise.b + self.rise.c) ≤ divisor.divisor }
        requires fall { 2 * (self.fall.a + self.fall.b + self.fall.c) ≤ divisor.divisor }
        ensures { IsStepBy (2 ^ 56) self.rise self.fall a b c divisor.divisor result }
    {
        let (a, b, c) = (u16::from(a), u16::from(b), u16::from(c));
        let rise = divisor.quotient(self.rise.numerator(a, b, c));
        let fall = divisor.quotient(self.fall.numerator(a, b, c));
        rise.wrapping_sub(fall)
    }

    /// The same of depths.
    pub(crate) fn depth_step(self, divisor: Reciprocal, a: u16, b: u16, c: u16) -> u64
        requires divisor { divisor.divisor ≤ 2 ^ 46 }
        requires rise { 2 * (self.rise.a + self.rise.b + self.rise.c) ≤ divisor.divisor }
        requires fall { 2 * (self.fall.a + self.fall.b + self.fall.c) ≤ divisor.divisor }
        ensures { IsStepBy (2 ^ 48) self.rise self.fall a b c divisor.divisor result }
    {
        let rise = divisor.depth_quotient(self.rise.numerator(a, b, c));
        let fall = divisor.depth_quotient(self.fall.numerator(a, b, c));
        rise.wrapping_sub(fall)
    }
}

/// By how much the edge opposite to each vertex of a triangle goes down, and by how much it goes up, taken from the vertex that follows to the one after it.
fn sides(triangle: &Tri) -> (Change, Change)
    ensures { AreSides triangle.now result.0 result.1 }
{
    let a = Point::vertex(triangle.a);
    let b = Point::vertex(triangle.b);
    let c = Point::vertex(triangle.c);
    let down = Change {
        a: descent(b, c),
        b: descent(c, a),
        c: descent(a, b),
    };
    let up = Change {
        a: descent(c, b),
        b: descent(a, c),
        c: descent(b, a),
    };
    (down, up)
}
