ghost use Rattle.std.specs.Prelude.{◌≡◌, ◌≤◌, ◌↔◌, IsSome, IfSome, unsigned_abs};
ghost use Rattle.fd_snap.specs.Limits.{position_limit};
ghost use Rattle.fd_snap.specs.Snap.{snapped_point};

use crate::snapped::{Snapped, snap_point};
use std::marker::Model;

/// The largest absolute value of a position's coordinate, in 1/65536 pixel. Every other range follows from it.
pub const POSITION_LIMIT: u32 = 1 << 30;

/// A vertex position as a capture gives it, in whole 1/65536 pixels. It is snapped once, as it is looked at for each triangle and tile.
#[derive(Clone, Copy, Debug, PartialEq, Eq)]
pub struct Pos {
    x: i32,
    y: i32,
    snapped: Snapped,
}

impl Model for Pos {
    ghost use Rattle.std.specs.Prelude.{◌≡◌, ◌≤◌, unsigned_abs};
    ghost use Rattle.fd_snap.specs.Point.{Point};
    ghost use Rattle.fd_snap.specs.Limits.{position_limit};
    ghost use Rattle.fd_snap.specs.Snap.{snapped_point};

    ghost Value = { Point };

    ghost view = { λ p. record { x = p.x; y = p.y } };

    ghost invariant = { λ p. (unsigned_abs p.x ≤ position_limit) × (unsigned_abs p.y ≤ position_limit)
        × (p.snapped ≡ snapped_point (record { x = p.x; y = p.y })) };

    ghost inverse = { λ q. record { x = q.x; y = q.y; snapped = snapped_point q } };
}

impl Pos {
    /// The position at these coordinates in 1/65536 pixel; None exactly where one of them is past the limit.
    pub fn new(x: i32, y: i32) -> Option<Pos>
        ensures valid { IsSome result ↔ (unsigned_abs x ≤ position_limit) × (unsigned_abs y ≤ position_limit) }
        ensures value { IfSome result (λ p. p ≡ record { x = x; y = y }) }
    {
        if x.unsigned_abs() <= POSITION_LIMIT && y.unsigned_abs() <= POSITION_LIMIT {
            Some(Pos {
                x,
                y,
                snapped: snap_point(x, y),
            })
        } else {
            None
        }
    }

    /// How far right of the target's left side, in 1/65536 pixel.
    pub fn x(self) -> i32
        ensures value { result ≡ self.x }
        ensures in_range { unsigned_abs result ≤ position_limit }
    {
        self.x
    }

    /// How far below the target's top, in 1/65536 pixel.
    pub fn y(self) -> i32
        ensures value { result ≡ self.y }
        ensures in_range { unsigned_abs result ≤ position_limit }
    {
        self.y
    }

    /// The point of the subpixel grid that it is snapped to.
    pub(crate) fn snapped(self) -> Snapped
        ensures { result ≡ snapped_point self }
    {
        self.snapped
    }
}
