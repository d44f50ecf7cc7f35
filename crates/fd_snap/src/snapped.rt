ghost use Rattle.std.specs.Prelude.{◌≡◌, ◌≤◌, ◌↔◌, IsSome, IfSome, unsigned_abs};
ghost use Rattle.fd_snap.specs.Snap.{IsNearestEven, snapped, snapped_point};
ghost use Rattle.fd_snap.specs.Limits.{position_limit, snapped_limit};

use crate::position::{POSITION_LIMIT, Pos};
use std::cmp::Ordering;
use std::marker::Model;

/// The largest absolute value of a snapped coordinate, in 1/256 pixel: that of a position, snapped.
pub const SNAPPED_LIMIT: u32 = POSITION_LIMIT / 256;

/// A position on the subpixel grid, in whole 1/256 pixels.
#[derive(Clone, Copy, Debug, PartialEq, Eq)]
pub struct Snapped {
    x: i32,
    y: i32,
}

impl Model for Snapped {
    ghost use Rattle.std.specs.Prelude.{◌≤◌, unsigned_abs};
    ghost use Rattle.fd_snap.specs.Point.{Point};
    ghost use Rattle.fd_snap.specs.Limits.{position_limit, snapped_limit};

    ghost Value = { Point };

    ghost view = { λ p. record { x = p.x; y = p.y } };

    ghost invariant = { λ p. (unsigned_abs p.x ≤ snapped_limit) × (unsigned_abs p.y ≤ snapped_limit) };

    ghost inverse = { λ q. record { x = q.x; y = q.y } };
}

impl Snapped {
    /// The snapped position at these coordinates in 1/256 pixel; None exactly where one of them is past the limit.
    pub fn new(x: i32, y: i32) -> Option<Snapped>
        ensures valid { IsSome result ↔ (unsigned_abs x ≤ snapped_limit) × (unsigned_abs y ≤ snapped_limit) }
        ensures value { IfSome result (λ p. p ≡ record { x = x; y = y }) }
    {
        if x.unsigned_abs() <= SNAPPED_LIMIT && y.unsigned_abs() <= SNAPPED_LIMIT {
            Some(Snapped { x, y })
        } else {
            None
        }
    }

    /// How far right of the target's left side, in 1/256 pixel.
    pub fn x(self) -> i32
        ensures value { result ≡ self.x }
        ensures in_range { unsigned_abs result ≤ snapped_limit }
    {
        self.x
    }

    /// How far below the target's top, in 1/256 pixel.
    pub fn y(self) -> i32
        ensures value { result ≡ self.y }
        ensures in_range { unsigned_abs result ≤ snapped_limit }
    {
        self.y
    }
}

/// The point of the subpixel grid that is nearest to a position, ties to the even coordinate.
///
/// Direct3D 11.3 functional specification, sections 3.2.4.1 and 15.2, snapping of coordinates to 8 fractional bits.
pub fn snap(position: Pos) -> Snapped
    ensures value { result ≡ snapped_point position }
    ensures nearest_x { IsNearestEven position.x result.x }
    ensures nearest_y { IsNearestEven position.y result.y }
{
    position.snapped()
}

/// A point in 1/65536 pixel, snapped in both coordinates.
pub(crate) fn snap_point(x: i32, y: i32) -> Snapped
    requires across { unsigned_abs x ≤ position_limit }
    requires down { unsigned_abs y ≤ position_limit }
    ensures { result ≡ snapped_point (record { x = x; y = y }) }
{
    Snapped {
        x: snap_coordinate(x),
        y: snap_coordinate(y),
    }
}

/// One coordinate in units of 256, rounded to the nearest whole number, ties to the even one.
fn snap_coordinate(x: i32) -> i32
    requires { unsigned_abs x ≤ position_limit }
    ensures value { result ≡ snapped x }
    ensures in_range { unsigned_abs result ≤ snapped_limit }
{
    let whole = x.div_euclid(256);
    match x.rem_euclid(256).cmp(&128) {
        Ordering::Less => whole,
        Ordering::Equal => whole + whole.rem_euclid(2),
        Ordering::Greater => whole + 1,
    }
}
