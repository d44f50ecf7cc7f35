ghost use Rattle.std.specs.Prelude.{◌≡◌, ◌<◌, ◌≤◌, ◌+◌, ◌*◌, ◌^◌, IsTrue};
ghost use Rattle.fd_cover.specs.Covers.{covers};
ghost use Rattle.fd_cover.specs.Shade.{area_of, weight_a, weight_b, weight_c, IsNearestLarger, IsNearestMean, rounded_quotient, colour_of, shaded};
ghost use Rattle.fd_snap.specs.Limits.{most_pixels};

use crate::point::{Point, doubled_area};
use crate::triangle::Tri;
use fd_blend::Colour;

/// How a triangle's colour comes from those of its vertices: the first one's, or between the three.
#[derive(Clone, Copy, Debug, PartialEq, Eq)]
pub enum Interp {
    Flat,
    Linear,
}

/// For each vertex, twice the area of a pixel's centre with the edge opposite to it.
#[derive(Clone, Copy)]
pub(crate) struct Weights {
    a: u64,
    b: u64,
    c: u64,
    ghost small: { a + b + c ≤ 2 ^ 47 },
    ghost some: { 0 < a + b + c },
}

impl Weights {
    /// The weights at a covered pixel.
    pub(crate) fn at(triangle: &Tri, x: u32, y: u32) -> Weights
        requires column { x < most_pixels }
        requires row { y < most_pixels }
        requires covered { IsTrue (covers triangle.now x y) }
        ensures a { result.a ≡ weight_a triangle.now x y }
        ensures b { result.b ≡ weight_b triangle.now x y }
        ensures c { result.c ≡ weight_c triangle.now x y }
        ensures area { result.a + result.b + result.c ≡ area_of triangle.now }
    {
        Weights::in_area(triangle, triangle.area().unsigned_abs(), x, y)
    }

    /// The same, where this is twice the area of the triangle.
    pub(crate) fn in_area(triangle: &Tri, area: u64, x: u32, y: u32) -> Weights
        requires area { area ≡ area_of triangle.now }
        requires small { area ≤ 2 ^ 47 }
        requires column { x < most_pixels }
        requires row { y < most_pixels }
        requires covered { IsTrue (covers triangle.now x y) }
        ensures a { result.a ≡ weight_a triangle.now x y }
        ensures b { result.b ≡ weight_b triangle.now x y }
        ensures c { result.c ≡ weight_c triangle.now x y }
        ensures area { result.a + result.b + result.c ≡ area_of triangle.now }
    {
        let a = Point::vertex(triangle.a);
        let b = Point::vertex(triangle.b);
        let c = Point::vertex(triangle.c);
        let point = Point::centre(x, y);
        let by_a = doubled_area(b, c, point);
        let by_b = doubled_area(c, a, point);
        Weights {
            a: by_a,
            b: by_b,
            c: area - by_a - by_b,
        }
    }

    /// The weighted mean of three numbers of 16 bits, rounded to the nearest, up at a half.
    ///
    /// The weights add up to 2^47 at most, so twice the sum of their products and once their sum stay below 2^47 times 2^17 and fit 64 bits.
    pub(crate) fn mean_depth(self, a: u16, b: u16, c: u16) -> u16
        ensures value { result ≡ rounded_quotient (self.a + self.b + self.c) (self.a * a + self.b * b + self.c * c) }
        ensures nearest { IsNearestLarger (self.a + self.b + self.c) (self.a * a + self.b * b + self.c * c) result }
    {
        let area = self.a + self.b + self.c;
        let total = self.a * u64::from(a) + self.b * u64::from(b) + self.c * u64::from(c);
        ((2 * total + area) / (2 * area)) as u16
    }

    /// The weighted mean of three channels, rounded to the nearest byte, up at a half.
    fn mean(self, a: u8, b: u8, c: u8) -> u8
        ensures value { result ≡ rounded_quotient (self.a + self.b + self.c) (self.a * a + self.b * b + self.c * c) }
        ensures nearest { IsNearestLarger (self.a + self.b + self.c) (self.a * a + self.b * b + self.c * c) result }
    {
        let area = self.a + self.b + self.c;
        let total = self.a * u64::from(a) + self.b * u64::from(b) + self.c * u64::from(c);
        ((2 * total + area) / (2 * area)) as u8
    }

    /// What is divided by twice the area to round the weighted mean of three depths.
    pub(crate) fn depth_numerator(self, a: u16, b: u16, c: u16) -> u64
        ensures value { result ≡ 2 * (self.a * a + self.b * b + self.c * c) + (self.a + self.b + self.c) }
        ensures bound { result ≤ 131071 * (self.a + self.b + self.c) }
        ensures depths { (a < 2 ^ 16) × ((b < 2 ^ 16) × (c < 2 ^ 16)) }
    {
        let area = self.a + self.b + self.c;
        let total = self.a * u64::from(a) + self.b * u64::from(b) + self.c * u64::from(c);
        2 * total + area
    }

    /// What is divided by twice the area to round the weighted mean of three channels.
    pub(crate) fn numerator(self, a: u8, b: u8, c: u8) -> u64
        ensures value { result ≡ 2 * (self.a * a + self.b * b + self.c * c) + (self.a + self.b + self.c) }
        ensures bound { result ≤ 511 * (self.a + self.b + self.c) }
        ensures bytes { (a < 256) × ((b < 256) × (c < 256)) }
    {
        let area = self.a + self.b + self.c;
        let total = self.a * u64::from(a) + self.b * u64::from(b) + self.c * u64::from(c);
        2 * total + area
    }
}

/// The source colour of a triangle at a covered pixel, from the colours of its vertices.
///
/// Linear: each channel is the mean of the vertices' channels, each by the area of the pixel's centre with the opposite edge,
/// rounded to the nearest byte, the larger on a tie.
#[tactic(auto, unfolding(crate::specs::Shade::shaded))]
pub fn shade(triangle: &Tri, colours: &[Colour; 3], interp: Interp, x: u32, y: u32) -> Colour
    requires column { x < most_pixels }
    requires row { y < most_pixels }
    requires covered { IsTrue (covers triangle.now x y) }
    ensures value { result ≡ shaded triangle.now interp (colour_of colours.now 0) (colour_of colours.now 1) (colour_of colours.now 2) x y }
    ensures linear { interp ≡ Interp.Linear → IsNearestMean triangle.now (colour_of colours.now 0) (colour_of colours.now 1)
        (colour_of colours.now 2) x y result }
{
    let [a, b, c] = *colours;
    match interp {
        Interp::Flat => a,
        Interp::Linear => {
            let weights = Weights::at(triangle, x, y);
            Colour {
                r: weights.mean(a.r, b.r, c.r),
                g: weights.mean(a.g, b.g, c.g),
                b: weights.mean(a.b, b.b, c.b),
                a: weights.mean(a.a, b.a, c.a),
            }
        }
    }
}
