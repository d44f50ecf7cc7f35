ghost use Rattle.std.specs.Prelude.{◌≡◌, ◌≢◌, ◌<◌, IsTrue, Some, length, slice_get};
ghost use Rattle.fd_cover.specs.Covers.{covers};
ghost use Rattle.fd_snap.specs.Limits.{most_pixels};
ghost use Rattle.fd_events.specs.Draw.{triangles_of};
ghost use Rattle.fd_events.specs.Image.{depth_of, is_discarded, source_of, verdict_of};
ghost use Rattle.fd_history.specs.ListedTriangle.{whole_triangle};

use fd_blend::Colour;
use fd_cover::{Tri, Verdict, depth_at, shade, verdict_at};
use fd_events::{Draw, Pipeline};

/// A triangle of a draw: its snapped corners, their colours and depths. The draw says how its colour comes from theirs, or which picture it comes from.
#[derive(Drop)]
pub(crate) struct ListedTriangle<'a> {
    pub(crate) draw: &'a Draw,
    pub(crate) corners: Tri,
    pub(crate) colours: [Colour; 3],
    pub(crate) depths: [u16; 3],
}

impl<'a> ListedTriangle<'a> {
    /// The triangle of a number.
    pub(crate) fn of(draw: &'a Draw, triangle: u32) -> ListedTriangle<'a>
        requires { triangle < length (triangles_of draw.now) }
        ensures triangle { slice_get (triangles_of draw.now) triangle ≡ Some (whole_triangle result) }
        ensures draw { result.draw.now ≡ draw.now }
    {
        ListedTriangle {
            draw,
            corners: draw.tri(triangle),
            colours: draw.colours(triangle),
            depths: draw.depths(triangle),
        }
    }

    /// Whether it has no colour at a pixel, as its picture has none.
    fn is_discarded(&self, x: u32, y: u32) -> bool
        ensures { result ≡ is_discarded self.now.draw.now.picture x y }
    {
        match self.draw.picture() {
            Some(picture) => picture.texel(x, y).is_none(),
            None => false,
        }
    }

    /// What becomes of it at a pixel of this depth.
    #[tactic(auto, using(crate::proofs::Gathers::covered_unless_missed))]
    pub(crate) fn verdict(&self, state: &Pipeline, depth: u16, x: u32, y: u32) -> Verdict
        requires column { x < most_pixels }
        requires row { y < most_pixels }
        ensures value { result ≡ verdict_of (whole_triangle self.now) state.now x y depth }
        ensures covered { result ≢ Verdict.Missed → IsTrue (covers self.now.corners x y) }
    {
        let verdict = verdict_at(
            &self.corners,
            &self.depths,
            &state.raster,
            &state.scissor,
            &state.depth,
            depth,
            x,
            y,
        );
        verdict.unless_discarded(self.is_discarded(x, y))
    }

    /// Its colour at a pixel that it covers.
    pub(crate) fn source(&self, x: u32, y: u32) -> Colour
        requires column { x < most_pixels }
        requires row { y < most_pixels }
        requires covered { IsTrue (covers self.now.corners x y) }
        ensures { result ≡ source_of (whole_triangle self.now) self.now.draw.now.interp x y }
    {
        match self.draw.picture() {
            Some(picture) => picture.texel_or_none(x, y),
            None => shade(&self.corners, &self.colours, self.draw.interp(), x, y),
        }
    }

    /// Its depth at a pixel that it covers.
    pub(crate) fn depth(&self, x: u32, y: u32) -> u16
        requires column { x < most_pixels }
        requires row { y < most_pixels }
        requires covered { IsTrue (covers self.now.corners x y) }
        ensures { result ≡ depth_of (whole_triangle self.now) x y }
    {
        depth_at(&self.corners, &self.depths, x, y)
    }
}
