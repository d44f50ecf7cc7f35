ghost use Rattle.std.specs.Prelude.{◌≡◌, ◌<◌, ℤ};
ghost use Rattle.fd_cover.specs.Verdict.{is_front, is_dropped, is_in_range, holds, verdict_at, is_culled, unless_discarded};
ghost use Rattle.fd_snap.specs.Limits.{most_pixels};

use crate::coverage::covers;
use crate::depth::{Depth, depth_at};
use crate::triangle::Tri;

/// Which triangles are dropped by the way they face: none, the front-facing or the back-facing ones.
#[derive(Clone, Copy, Debug, PartialEq, Eq)]
pub enum Cull {
    None,
    Front,
    Back,
}

/// The raster state. Clockwise triangles are front-facing, or with `front_ccw` counter-clockwise ones.
#[derive(Clone, Copy, Debug, PartialEq, Eq)]
pub struct Raster {
    pub cull: Cull,
    pub front_ccw: bool,
    pub scissor: bool,
}

/// A scissor rectangle in pixels. Right and bottom are exclusive; with left >= right or top >= bottom it holds no pixel.
#[derive(Clone, Copy, Debug, PartialEq, Eq)]
pub struct Rect {
    pub left: i32,
    pub top: i32,
    pub right: i32,
    pub bottom: i32,
}

/// What becomes of a triangle at a pixel: not covered, dropped by the way it faces, outside the scissor rectangle, without a
/// colour in the picture that it is drawn from, not let pass by the depth test, or drawn.
#[derive(Clone, Copy, Debug, PartialEq, Eq)]
pub enum Verdict {
    Missed,
    Culled,
    Scissored,
    Discarded,
    DepthFailed,
    Drawn,
}

impl Rect {
    /// Whether the rectangle holds a pixel.
    fn holds(&self, x: u32, y: u32) -> bool
        ensures { result ≡ holds self.now x y }
    {
        is_in_range(self.left, self.right, x) && is_in_range(self.top, self.bottom, y)
    }
}

impl Verdict {
    /// The same where a triangle may have no colour at the pixel: it is discarded before its depth is tested.
    pub fn unless_discarded(self, discarded: bool) -> Verdict
        ensures { result ≡ unless_discarded discarded self }
    {
        match self {
            Verdict::DepthFailed | Verdict::Drawn if discarded => Verdict::Discarded,
            _ => self,
        }
    }
}

impl Raster {
    /// Whether a triangle of this signed area is front-facing.
    fn is_front(&self, area: i64) -> bool
        ensures { result ≡ is_front self.now area }
    {
        if self.front_ccw { area < 0 } else { 0 < area }
    }

    /// Whether a triangle of this signed area is culled.
    fn drops(&self, area: i64) -> bool
        ensures { result ≡ is_dropped self.now area }
    {
        match self.cull {
            Cull::None => false,
            Cull::Front => self.is_front(area),
            Cull::Back => !self.is_front(area),
        }
    }

    /// Whether a triangle is culled, wherever it covers a pixel.
    pub fn culls(&self, triangle: &Tri) -> bool
        ensures { result ≡ is_culled self.now triangle.now }
    {
        self.drops(triangle.area())
    }
}

/// What becomes of a triangle at a pixel with a stored depth: the first verdict that applies, in their order.
///
/// Direct3D 11.3 functional specification, section 15, culling and scissor test, and section 17, depth comparison.
#[tactic(auto, unfolding(crate::specs::Verdict::verdict_at))]
pub fn verdict_at(
    triangle: &Tri,
    depths: &[u16; 3],
    raster: &Raster,
    rect: &Rect,
    depth: &Depth,
    stored: u16,
    x: u32,
    y: u32,
) -> Verdict
    requires column { x < most_pixels }
    requires row { y < most_pixels }
    ensures { result ≡ verdict_at triangle.now depths.now raster.now rect.now depth.now stored x y }
{
    if !covers(triangle, x, y) {
        Verdict::Missed
    } else if raster.culls(triangle) {
        Verdict::Culled
    } else if raster.scissor && !rect.holds(x, y) {
        Verdict::Scissored
    } else if !depth.passes(depth_at(triangle, depths, x, y), stored) {
        Verdict::DepthFailed
    } else {
        Verdict::Drawn
    }
}

/// Whether a pixel coordinate is at least `low` and below `high`.
fn is_in_range(low: i32, high: i32, coordinate: u32) -> bool
    ensures { result ≡ is_in_range low high coordinate }
{
    let coordinate = i64::from(coordinate);
    i64::from(low) <= coordinate && coordinate < i64::from(high)
}
