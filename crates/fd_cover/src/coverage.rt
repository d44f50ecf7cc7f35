ghost use Rattle.std.specs.Prelude.{◌≡◌, ◌<◌};
ghost use Rattle.fd_cover.specs.Covers.{covers, admits, same_sign, is_top, is_left};
ghost use Rattle.fd_snap.specs.Limits.{most_pixels};

use crate::point::{Point, cross};
use crate::triangle::Tri;

/// Whether the edge from u to v is horizontal and above the opposite vertex.
#[tactic(auto, unfolding(crate::specs::Covers::is_top))]
pub(crate) fn is_top(u: Point, v: Point, opposite: Point) -> bool
    ensures { result ≡ is_top u v opposite }
{
    u.y() == v.y() && v.y() < opposite.y()
}

/// Whether the edge from u to v is not horizontal and has the opposite vertex to its right.
#[tactic(auto, unfolding(crate::specs::Covers::is_left))]
pub(crate) fn is_left(u: Point, v: Point, opposite: Point) -> bool
    ensures { result ≡ is_left u v opposite }
{
    (u.y() < v.y() && cross(u, v, opposite) < 0) || (v.y() < u.y() && cross(v, u, opposite) < 0)
}

/// Whether a triangle covers a pixel: its centre is inside, or on a top or a left edge.
///
/// Direct3D 11.3 functional specification, section 3.4.2, triangle rasterization rules.
#[tactic(auto, unfolding(crate::specs::Covers::covers))]
pub fn covers(triangle: &Tri, x: u32, y: u32) -> bool
    requires column { x < most_pixels }
    requires row { y < most_pixels }
    ensures { result ≡ covers triangle.now x y }
{
    let a = Point::vertex(triangle.a);
    let b = Point::vertex(triangle.b);
    let c = Point::vertex(triangle.c);
    let point = Point::centre(x, y);
    cross(a, b, c) != 0
        && admits(a, b, c, point)
        && admits(b, c, a, point)
        && admits(c, a, b, point)
}

/// Whether two sides are both above 0 or both below.
fn same_sign(a: i64, b: i64) -> bool
    ensures { result ≡ same_sign a b }
{
    (0 < a && 0 < b) || (a < 0 && b < 0)
}

/// Whether a point lies on the inner side of the edge from u to v, or on the edge's line where the edge is top or left.
#[tactic(auto, unfolding(crate::specs::Covers::admits))]
fn admits(u: Point, v: Point, opposite: Point, point: Point) -> bool
    ensures { result ≡ admits u v opposite point }
{
    let side = cross(u, v, point);
    if side == 0 {
        is_top(u, v, opposite) || is_left(u, v, opposite)
    } else {
        same_sign(side, cross(u, v, opposite))
    }
}
