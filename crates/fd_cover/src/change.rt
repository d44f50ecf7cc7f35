ghost use Rattle.std.specs.Prelude.{◌≡◌, ◌<◌, ◌≤◌, ◌+◌, ◌*◌, ◌^◌, ◌-ℤ◌};
ghost use Rattle.fd_cover.specs.Climb.{IsAbove};

use crate::point::Point;

/// By how much the weight of each vertex grows, or by how much it shrinks, from a covered pixel to its right neighbour.
#[derive(Clone, Copy)]
pub(crate) struct Change {
    pub(crate) a: u64,
    pub(crate) b: u64,
    pub(crate) c: u64,
    ghost small: { a + b + c ≤ 2 ^ 33 },
}

impl Change {
    /// By how much all weights change together.
    pub(crate) fn sum(self) -> u64
        ensures { result ≡ self.a + self.b + self.c }
    {
        self.a + self.b + self.c
    }

    /// By how much it changes what is divided by twice the area to round the weighted mean of three numbers.
    pub(crate) fn numerator(self, a: u16, b: u16, c: u16) -> u64
        ensures value { result ≡ 2 * (self.a * a + self.b * b + self.c * c) }
        ensures numbers { (a < 2 ^ 16) × ((b < 2 ^ 16) × (c < 2 ^ 16)) }
    {
        2 * (self.a * u64::from(a) + self.b * u64::from(b) + self.c * u64::from(c))
    }
}

/// 256 times how far a point is below another one, and 0 where it isn't: so many units are a pixel.
pub(crate) fn descent(from: Point, to: Point) -> u64
    ensures above { IsAbove (to.y -ℤ from.y) result }
    ensures bound { result ≤ 2 ^ 31 }
{
    256 * from.down_to(to).max(0) as u64
}
