ghost use Rattle.std.specs.Prelude.{◌≡◌, ℕ, ◌<◌, ◌≤◌, ◌+◌, IsTrue, length, map};
ghost use Rattle.std.specs.List.{range_with_len};
ghost use Rattle.fd_cover.specs.Covers.{covers};
ghost use Rattle.fd_cover.specs.Depth.{depth_at};
ghost use Rattle.fd_cover.specs.Limits.{most_in_row};
ghost use Rattle.fd_cover.specs.Slope.{IsDepthWalk, IsSlope};
ghost use Rattle.fd_snap.specs.Limits.{most_pixels};

use crate::depth::depth_at;
use crate::gradient::{Gradient, LIFT};
use crate::reciprocal::Reciprocal;
use crate::shading::Weights;
use crate::triangle::Tri;
use std::marker::Model;

/// The largest double area of a triangle whose depths are walked along a row: 192 times twice that is at most the 2^48 units of one depth.
const WALKED: u64 = (1 << 48) / 384;

/// How the depths of a triangle are walked along its rows: with twice its double area as the divisor, and by a step.
#[derive(Clone, Copy)]
pub(crate) struct DepthWalk {
    divisor: Reciprocal,
    step: u64,
}

/// How the depths of a triangle are found along a row: all are equal, or they are walked, or each is divided for itself.
#[derive(Clone, Copy)]
pub(crate) enum Slope {
    Level(u16),
    Walked(DepthWalk),
    Divided,
}

impl Slope {
    /// How the depths of a triangle may be found.
    fn of(triangle: &Tri, depths: &[u16; 3]) -> Slope
        ensures { IsSlope triangle.now depths.now result }
    {
        let [a, b, c] = *depths;
        if a == b && a == c {
            return Slope::Level(a);
        }
        let area = triangle.area().unsigned_abs();
        match Gradient::of(triangle) {
            Some(gradient) if area <= WALKED => {
                let divisor = Reciprocal::of(2 * area);
                let step = gradient.depth_step(divisor, a, b, c);
                Slope::Walked(DepthWalk { divisor, step })
            }
            _ => Slope::Divided,
        }
    }
}

/// The depths of a triangle at its covered pixels, row by row. Contracts see the triangle and the depths of its vertices.
///
/// All rows share one division.
#[derive(Drop)]
pub struct DepthRows {
    triangle: Tri,
    depths: [u16; 3],
    slope: Slope,
}

impl Model for DepthRows {
    ghost use Rattle.std.specs.Prelude.{ℕ, List};
    ghost use Rattle.fd_cover.specs.declared.triangle.Tri.{Tri};

    ghost Value = { Tri × List ℕ };

    ghost use Rattle.fd_cover.specs.Slope.{IsSlope};

    ghost view = { λ rows. (rows.triangle, rows.depths) };

    ghost invariant = { λ rows. IsSlope rows.triangle rows.depths rows.slope };
}

impl DepthRows {
    /// The depths of a triangle, from those of its vertices.
    pub fn of(triangle: &Tri, depths: &[u16; 3]) -> DepthRows
        ensures { result ≡ (triangle.now, depths.now) }
    {
        DepthRows {
            triangle: *triangle,
            depths: *depths,
            slope: Slope::of(triangle, depths),
        }
    }

    /// The depths at neighbouring covered pixels of row y from column x on. Each is what `depth_at` says.
    pub fn row(&self, x: u32, y: u32, out: &mut [u16])
        requires few { length out.old ≤ most_in_row }
        requires row { y < most_pixels }
        requires columns { x + length out.old ≤ most_pixels }
        requires covered { (column : ℕ) → x ≤ column → column < x + length out.old → IsTrue (covers self.now.0 column y) }
        ensures { out.new ≡ map (λ column. depth_at self.now.0 self.now.1 column y) (range_with_len x (length out.old)) }
    {
        if out.is_empty() {
            return;
        }
        match self.slope {
            Slope::Level(depth) => out.fill(depth),
            Slope::Walked(walk) => walk_depths(&self.triangle, &self.depths, walk, x, y, out),
            Slope::Divided => divide_depths(&self.triangle, &self.depths, x, y, out),
        }
    }
}

/// The depths of a triangle at neighbouring covered pixels of row y from column x on, from the depths of its vertices. Each is what `depth_at` says.
pub fn depth_row(triangle: &Tri, depths: &[u16; 3], x: u32, y: u32, out: &mut [u16])
    requires few { length out.old ≤ most_in_row }
    requires row { y < most_pixels }
    requires columns { x + length out.old ≤ most_pixels }
    requires covered { (column : ℕ) → x ≤ column → column < x + length out.old → IsTrue (covers triangle.now column y) }
    ensures { out.new ≡ map (λ column. depth_at triangle.now depths.now column y) (range_with_len x (length out.old)) }
{
    DepthRows::of(triangle, depths).row(x, y, out);
}

/// The depths of a triangle at neighbouring covered pixels, each by its own division.
fn divide_depths(triangle: &Tri, depths: &[u16; 3], x: u32, y: u32, out: &mut [u16])
    requires few { length out.old ≤ most_in_row }
    requires row { y < most_pixels }
    requires columns { x + length out.old ≤ most_pixels }
    requires covered { (column : ℕ) → x ≤ column → column < x + length out.old → IsTrue (covers triangle.now column y) }
    ensures { out.new ≡ map (λ column. depth_at triangle.now depths.now column y) (range_with_len x (length out.old)) }
{
    for i in 0..out.len() {
        out[i] = depth_at(triangle, depths, x + i as u32, y);
    }
}

/// The depths of a triangle at neighbouring covered pixels, from that of the first.
fn walk_depths(triangle: &Tri, depths: &[u16; 3], walk: DepthWalk, x: u32, y: u32, out: &mut [u16])
    requires some { 0 < length out.old }
    requires few { length out.old ≤ most_in_row }
    requires row { y < most_pixels }
    requires columns { x + length out.old ≤ most_pixels }
    requires covered { (column : ℕ) → x ≤ column → column < x + length out.old → IsTrue (covers triangle.now column y) }
    requires walk { IsDepthWalk triangle.now depths.now walk }
    ensures { out.new ≡ map (λ column. depth_at triangle.now depths.now column y) (range_with_len x (length out.old)) }
{
    let [a, b, c] = *depths;
    let first = Weights::at(triangle, x, y).depth_numerator(a, b, c);
    let mut accumulator = walk.divisor.depth_quotient(first) + LIFT;
    for i in 0..out.len() {
        out[i] = (accumulator >> 48) as u16;
        accumulator = accumulator.wrapping_add(walk.step);
    }
}
