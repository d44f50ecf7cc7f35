ghost use Rattle.std.specs.Prelude.{◌≡◌, Bool, IsTrue, List, false};
ghost use Rattle.fd_cover.specs.Verdict.{is_culled};
ghost use Rattle.fd_cover.specs.declared.verdict.Cull.{Cull as Culling};
ghost use Rattle.fd_cover.specs.declared.verdict.Cull.TheVariants.{Front};
ghost use Rattle.fd_events.specs.Draw.{Triangle, triangles_of};
ghost use Rattle.fd_events.specs.Culled.{TellsCulled, says_culled};

use crate::list::TriangleList;
use fd_cover::{Cull, Raster, Tri};

/// Whether all triangles of a draw are culled: as front-facing ones that are clockwise, or with `front_ccw` counter-clockwise, and as back-facing ones.
#[derive(Clone, Copy, Debug)]
pub(crate) struct Culled {
    front: bool,
    front_ccw: bool,
    back: bool,
    back_ccw: bool,
}

impl Culled {
    /// Of no triangle, which every state that culls any culls.
    const ALL: Culled = Culled {
        front: true,
        front_ccw: true,
        back: true,
        back_ccw: true,
    };

    /// Where none was found.
    pub(crate) fn unknown() -> Culled
        ensures { (ts : List Triangle) → TellsCulled result ts }
    {
        Culled {
            front: false,
            front_ccw: false,
            back: false,
            back_ccw: false,
        }
    }

    /// Of these triangles.
    pub(crate) fn of(list: &TriangleList) -> Culled
        ensures { TellsCulled result (triangles_of list.now) }
    {
        let mut culled = Culled::ALL;
        for triangle in 0..list.len() {
            culled = culled.with(&list.tri(triangle));
            if culled.is_none() {
                return culled;
            }
        }
        culled
    }

    /// Of one triangle more.
    fn with(self, triangle: &Tri) -> Culled
        ensures { (cull : Culling) (front_ccw : Bool) → IsTrue (says_culled result cull front_ccw)
            → IsTrue (says_culled self cull front_ccw) × IsTrue (is_culled (record { cull = cull; front_ccw = front_ccw; scissor = false }) triangle.now) }
    {
        let front = is_front(triangle, false);
        let front_ccw = is_front(triangle, true);
        Culled {
            front: self.front && front,
            front_ccw: self.front_ccw && front_ccw,
            back: self.back && !front,
            back_ccw: self.back_ccw && !front_ccw,
        }
    }

    /// Whether no raster state culls all.
    fn is_none(self) -> bool
        ensures { IsTrue result → (cull : Culling) (front_ccw : Bool) → IsTrue (says_culled self cull front_ccw) → ⊥ }
    {
        !(self.front | self.front_ccw | self.back | self.back_ccw)
    }

    /// In a raster state.
    pub(crate) fn by(self, raster: &Raster) -> bool
        ensures { result ≡ says_culled self raster.now.cull raster.now.front_ccw }
    {
        match (raster.cull, raster.front_ccw) {
            (Cull::None, _) => false,
            (Cull::Front, false) => self.front,
            (Cull::Front, true) => self.front_ccw,
            (Cull::Back, false) => self.back,
            (Cull::Back, true) => self.back_ccw,
        }
    }
}

/// Whether a triangle is front-facing, as clockwise ones are, or with `front_ccw` counter-clockwise ones.
fn is_front(triangle: &Tri, front_ccw: bool) -> bool
    ensures { result ≡ is_culled (record { cull = Front; front_ccw = front_ccw; scissor = false }) triangle.now }
{
    let raster = Raster {
        cull: Cull::Front,
        front_ccw,
        scissor: false,
    };
    raster.culls(triangle)
}
