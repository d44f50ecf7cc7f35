ghost use Rattle.std.specs.Prelude.{◌≡◌, ◌≤◌, ◌<◌, ◌^◌, ◌-ℤ◌, unsigned_abs};
ghost use Rattle.fd_cover.specs.Cross.{cross, centre};
ghost use Rattle.fd_snap.specs.Limits.{most_pixels};

use fd_snap::Snapped;
use std::marker::Model;

/// A vertex or a pixel's centre, in 1/256 pixel. A centre is no further out than a vertex can be.
#[derive(Clone, Copy)]
pub(crate) struct Point {
    x: i32,
    y: i32,
}

impl Model for Point {
    ghost use Rattle.std.specs.Prelude.{◌≤◌, unsigned_abs};
    ghost use Rattle.fd_snap.specs.Point as geometry;
    ghost use Rattle.fd_snap.specs.Limits.{snapped_limit};

    ghost Value = { geometry.Point };

    ghost view = { λ p. record { x = p.x; y = p.y } };

    ghost invariant = { λ p. (unsigned_abs p.x ≤ snapped_limit) × (unsigned_abs p.y ≤ snapped_limit) };

    ghost inverse = { λ q. record { x = q.x; y = q.y } };
}

impl Point {
    /// A triangle's vertex.
    pub(crate) fn vertex(vertex: Snapped) -> Point
        ensures { result ≡ vertex }
    {
        Point {
            x: vertex.x(),
            y: vertex.y(),
        }
    }

    /// The centre of a pixel.
    pub(crate) fn centre(x: u32, y: u32) -> Point
        requires column { x < most_pixels }
        requires row { y < most_pixels }
        ensures { result ≡ centre x y }
    {
        Point {
            x: (256 * x + 128) as i32,
            y: (256 * y + 128) as i32,
        }
    }

    /// How far below the target's top.
    pub(crate) fn y(self) -> i32
        ensures { result ≡ self.y }
    {
        self.y
    }

    /// How far another point is to the right of this one.
    pub(crate) fn right_to(self, other: Point) -> i64
        ensures value { result ≡ other.x -ℤ self.x }
        ensures bound { unsigned_abs result ≤ 2 ^ 23 }
    {
        i64::from(other.x) - i64::from(self.x)
    }

    /// How far another point is below this one.
    pub(crate) fn down_to(self, other: Point) -> i64
        ensures value { result ≡ other.y -ℤ self.y }
        ensures bound { unsigned_abs result ≤ 2 ^ 23 }
    {
        i64::from(other.y) - i64::from(self.y)
    }
}

/// Twice the signed area of the triangle of three points, above 0 where it is clockwise on the target.
///
/// Differences of coordinates are at most 2^23, so a product is at most 2^46 and fits 64 bits.
pub(crate) fn cross(u: Point, v: Point, q: Point) -> i64
    ensures value { result ≡ cross u v q }
    ensures bound { unsigned_abs result ≤ 2 ^ 47 }
{
    u.right_to(v) * u.down_to(q) - u.down_to(v) * u.right_to(q)
}

/// Twice the area of the triangle of three points.
pub(crate) fn doubled_area(u: Point, v: Point, q: Point) -> u64
    ensures value { result ≡ unsigned_abs (cross u v q) }
    ensures bound { result ≤ 2 ^ 47 }
{
    cross(u, v, q).unsigned_abs()
}
