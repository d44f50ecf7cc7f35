ghost use Rattle.std.specs.Prelude.{◌≡◌, ◌<◌, IsTrue};
ghost use Rattle.fd_cover.specs.Covers.{covers};
ghost use Rattle.fd_cover.specs.Depth.{depth_at, vertex_depth, holds_of, passes, stored_past};
ghost use Rattle.fd_cover.specs.Shade.{area_of, weighted_sum, IsNearestLarger};
ghost use Rattle.fd_snap.specs.Limits.{most_pixels};

use crate::shading::Weights;
use crate::triangle::Tri;

/// How a source depth is compared with the stored one: `source` Func `stored`.
#[derive(Clone, Copy, Debug, PartialEq, Eq)]
pub enum Func {
    Never,
    Less,
    Equal,
    LessEqual,
    Greater,
    NotEqual,
    GreaterEqual,
    Always,
}

/// The depth state: whether depths are tested, whether those that pass are stored, and how they are compared.
#[derive(Clone, Copy, Debug, PartialEq, Eq)]
pub struct Depth {
    pub enable: bool,
    pub write: bool,
    pub func: Func,
}

impl Func {
    /// Whether the comparison holds.
    fn holds(self, source: u16, stored: u16) -> bool
        ensures { result ≡ holds_of self source stored }
    {
        match self {
            Func::Never => false,
            Func::Less => source < stored,
            Func::Equal => source == stored,
            Func::LessEqual => source <= stored,
            Func::Greater => stored < source,
            Func::NotEqual => source != stored,
            Func::GreaterEqual => stored <= source,
            Func::Always => true,
        }
    }
}

impl Depth {
    /// Whether a source depth passes the test. With the test off it does.
    ///
    /// Direct3D 11.3 functional specification, section 17, depth comparison.
    pub fn passes(&self, source: u16, stored: u16) -> bool
        ensures { result ≡ passes self.now source stored }
    {
        !self.enable || self.func.holds(source, stored)
    }

    /// The depth that is stored past a source that passed: with the test off, or the write off, the one before.
    pub fn stored_past(&self, source: u16, stored: u16) -> u16
        ensures { result ≡ stored_past self.now source stored }
    {
        if self.enable && self.write {
            source
        } else {
            stored
        }
    }
}

/// The depth of a triangle at a covered pixel, from the depths of its vertices: their mean, each by the area of the pixel's centre with
/// the opposite edge, rounded to the nearest, the larger on a tie.
#[tactic(auto, unfolding(crate::specs::Depth::depth_at))]
pub fn depth_at(triangle: &Tri, depths: &[u16; 3], x: u32, y: u32) -> u16
    requires column { x < most_pixels }
    requires row { y < most_pixels }
    requires covered { IsTrue (covers triangle.now x y) }
    ensures value { result ≡ depth_at triangle.now depths.now x y }
    ensures nearest { IsNearestLarger (area_of triangle.now)
        (weighted_sum triangle.now x y (vertex_depth depths.now 0) (vertex_depth depths.now 1) (vertex_depth depths.now 2)) result }
{
    let [a, b, c] = *depths;
    Weights::at(triangle, x, y).mean_depth(a, b, c)
}
