ghost use Rattle.std.specs.Prelude.{◌≡◌, ◌≤◌, ◌^◌, unsigned_abs};
ghost use Rattle.fd_cover.specs.Cross.{cross};
ghost use Rattle.fd_cover.specs.Scanlines.{clockwise};

use crate::point::{Point, cross};
use fd_snap::Snapped;

/// A triangle by its snapped vertices, in their order, which decides how it faces.
#[derive(Clone, Copy, Debug, PartialEq, Eq)]
pub struct Tri {
    pub a: Snapped,
    pub b: Snapped,
    pub c: Snapped,
}

impl Tri {
    /// Twice the signed area, above 0 where the vertices are clockwise on the target.
    pub(crate) fn area(&self) -> i64
        ensures value { result ≡ cross self.now.a self.now.b self.now.c }
        ensures bound { unsigned_abs result ≤ 2 ^ 47 }
    {
        cross(
            Point::vertex(self.a),
            Point::vertex(self.b),
            Point::vertex(self.c),
        )
    }

    /// The same triangle with its vertices clockwise.
    #[tactic(auto, unfolding(crate::specs::Scanlines::clockwise))]
    pub(crate) fn clockwise(&self) -> Tri
        ensures { result ≡ clockwise self.now }
    {
        if self.area() < 0 {
            Tri {
                a: self.a,
                b: self.c,
                c: self.b,
            }
        } else {
            *self
        }
    }
}
