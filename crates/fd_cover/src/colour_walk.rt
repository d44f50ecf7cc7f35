ghost use Rattle.std.specs.Prelude.{◌≡◌, ℕ, ◌<◌, ◌≤◌, ◌+◌, IsTrue, IfSome, length, map};
ghost use Rattle.std.specs.List.{range_with_len};
ghost use Rattle.fd_cover.specs.Covers.{covers};
ghost use Rattle.fd_cover.specs.Limits.{most_in_row};
ghost use Rattle.fd_cover.specs.Shade.{colour_of, shaded};
ghost use Rattle.fd_cover.specs.ColourWalk.{IsColourWalk};
ghost use Rattle.fd_snap.specs.Limits.{most_pixels};

use crate::gradient::{Gradient, LIFT};
use crate::reciprocal::Reciprocal;
use crate::shading::{Interp, Weights, shade};
use crate::triangle::Tri;
use crate::vectors::{colours_of, moved};
use fd_blend::Colour;
use std::simd::prelude::*;

/// How the colours of a linear triangle are walked along its rows: with twice its double area as the divisor, and by a step for each channel. All rows share
/// one division.
#[derive(Clone, Copy)]
pub struct ColourWalk {
    divisor: Reciprocal,
    steps: [u64; 4],
}

impl ColourWalk {
    /// That of a triangle, from the colours of its vertices. None where it is nowhere as wide as a pixel.
    pub fn of(triangle: &Tri, colours: &[Colour; 3]) -> Option<ColourWalk>
        ensures { IfSome result (λ walk. IsColourWalk triangle.now colours.now walk) }
    {
        let [a, b, c] = *colours;
        let gradient = Gradient::of(triangle)?;
        let divisor = Reciprocal::of(2 * triangle.area().unsigned_abs());
        let steps = [
            gradient.step(divisor, a.r, b.r, c.r),
            gradient.step(divisor, a.g, b.g, c.g),
            gradient.step(divisor, a.b, b.b, c.b),
            gradient.step(divisor, a.a, b.a, c.a),
        ];
        Some(ColourWalk { divisor, steps })
    }

    /// The colours of its triangle at neighbouring covered pixels of row y from column x on, from that of the first. Each is what `shade` says.
    pub fn row(&self, triangle: &Tri, colours: &[Colour; 3], x: u32, y: u32, out: &mut [Colour])
        requires walk { IsColourWalk triangle.now colours.now self.now }
        requires few { length out.old ≤ most_in_row }
        requires row { y < most_pixels }
        requires columns { x + length out.old ≤ most_pixels }
        requires covered { (column : ℕ) → x ≤ column → column < x + length out.old → IsTrue (covers triangle.now column y) }
        ensures { out.new ≡ map (λ column. shaded triangle.now Interp.Linear (colour_of colours.now 0) (colour_of colours.now 1)
            (colour_of colours.now 2) column y) (range_with_len x (length out.old)) }
    {
        if out.is_empty() {
            return;
        }
        let [a, b, c] = *colours;
        let first = Weights::in_area(triangle, self.divisor.half(), x, y);
        let red = self.divisor.quotient(first.numerator(a.r, b.r, c.r));
        let green = self.divisor.quotient(first.numerator(a.g, b.g, c.g));
        let blue = self.divisor.quotient(first.numerator(a.b, b.b, c.b));
        let alpha = self.divisor.quotient(first.numerator(a.a, b.a, c.a));
        let mut accumulators = u64x4::from_array([
            red + LIFT,
            green + LIFT,
            blue + LIFT,
            alpha + LIFT,
        ]);
        let steps = u64x4::from_array(self.steps);
        let pairs = out.len() / 2;
        for pair in 0..pairs {
            let i = 2 * pair;
            let next = moved(accumulators, steps);
            let (first, second) = colours_of(accumulators, next);
            out[i] = first;
            out[i + 1] = second;
            accumulators = moved(next, steps);
        }
        if 2 * pairs < out.len() {
            out[2 * pairs] = colours_of(accumulators, accumulators).0;
        }
    }
}

/// The source colours of a triangle at neighbouring covered pixels of row y from column x on, from the colours of its vertices.
///
/// Each is what `shade` says.
pub fn shade_row(
    triangle: &Tri,
    colours: &[Colour; 3],
    interp: Interp,
    x: u32,
    y: u32,
    out: &mut [Colour],
)
    requires few { length out.old ≤ most_in_row }
    requires row { y < most_pixels }
    requires columns { x + length out.old ≤ most_pixels }
    requires covered { (column : ℕ) → x ≤ column → column < x + length out.old → IsTrue (covers triangle.now column y) }
    ensures { out.new ≡ map (λ column. shaded triangle.now interp (colour_of colours.now 0) (colour_of colours.now 1) (colour_of colours.now 2) column y)
        (range_with_len x (length out.old)) }
{
    match interp {
        Interp::Flat => out.fill(colours[0]),
        Interp::Linear => match ColourWalk::of(triangle, colours) {
            Some(walk) => walk.row(triangle, colours, x, y, out),
            None => divide_colours(triangle, colours, x, y, out),
        },
    }
}

/// The source colours of a linear triangle at neighbouring covered pixels, each by its own division.
fn divide_colours(triangle: &Tri, colours: &[Colour; 3], x: u32, y: u32, out: &mut [Colour])
    requires few { length out.old ≤ most_in_row }
    requires row { y < most_pixels }
    requires columns { x + length out.old ≤ most_pixels }
    requires covered { (column : ℕ) → x ≤ column → column < x + length out.old → IsTrue (covers triangle.now column y) }
    ensures { out.new ≡ map (λ column. shaded triangle.now Interp.Linear (colour_of colours.now 0) (colour_of colours.now 1)
        (colour_of colours.now 2) column y) (range_with_len x (length out.old)) }
{
    for i in 0..out.len() {
        out[i] = shade(triangle, colours, Interp::Linear, x + i as u32, y);
    }
}
