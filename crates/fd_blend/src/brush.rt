//! One source over many destinations: what is the same for all of them is worked out once.
ghost use Rattle.std.specs.Prelude.{◌≡◌, IfSome};
ghost use Rattle.fd_blend.specs.Blend.{blend};
ghost use Rattle.fd_blend.specs.Blending.{Blending};
ghost use Rattle.fd_blend.specs.Brush.{IsSettled};
ghost use Rattle.fd_blend.specs.Resolved.{IsOf, IsInElements};
ghost use Rattle.fd_blend.specs.Row.{drawn_row};

use crate::channel::Colour;
use crate::resolved::Equation;
use crate::settled::Settled;
use crate::state::BlendState;
use std::marker::Model;

/// A source that is drawn over destinations, in a blend state and with a blend factor. Contracts see the three.
#[derive(Drop)]
pub struct Brush {
    state: BlendState,
    equation: Equation,
    source: Colour,
    settled: Option<Settled>,
}

impl Model for Brush {
    ghost use Rattle.std.specs.Prelude.{IfSome};
    ghost use Rattle.fd_blend.specs.Brush.{Stroke, IsSettled};
    ghost use Rattle.fd_blend.specs.Resolved.{IsOf, IsInElements};

    ghost Value = { Stroke };

    ghost view = { λ b. record { state = b.state; factor = b.equation.factor; source = b.source } };

    ghost invariant = { λ b. IsOf b.state b.equation.rgb b.equation.alpha b.equation.mask
        × (IsInElements b.equation.rgb b.equation.alpha b.equation.mask b.equation.factor b.equation.positions b.equation.flips b.equation.written
        × IfSome b.settled (λ s. IsSettled b.equation.rgb b.equation.alpha b.equation.factor b.source s.sources s.factors)) };
}

impl Brush {
    /// A brush of this source.
    pub fn of(state: &BlendState, factor: Colour, source: Colour) -> Brush
        ensures { result ≡ record { state = state.now; factor = factor; source = source } }
    {
        let equation = Equation::of(state, factor);
        Brush {
            state: *state,
            equation,
            source,
            settled: equation.settled(source),
        }
    }

    /// Draws the source over each of a row of destinations.
    pub fn draw(&self, dst: &mut [Colour])
        ensures { dst.new ≡ drawn_row self.now.state self.now.factor self.now.source dst.old }
    {
        if self.state.replaces() {
            dst.fill(self.source);
            return;
        }
        match (self.equation.adding(), self.settled) {
            (Some(equation), Some(settled)) => {
                draw_pairs(equation, Some(settled), self.source, dst)
            }
            (_, settled) => draw_pairs(self.equation, settled, self.source, dst),
        }
    }
}

/// A source over two destinations.
fn pair(
    equation: Equation,
    settled: Option<Settled>,
    source: Colour,
    d: Colour,
    e: Colour,
) -> (Colour, Colour)
    requires elements { IsInElements equation.rgb equation.alpha equation.mask equation.factor equation.positions equation.flips equation.written }
    requires settled { IfSome settled (λ s. IsSettled equation.rgb equation.alpha equation.factor source s.sources s.factors) }
    ensures first { (state : Blending) → IsOf state equation.rgb equation.alpha equation.mask → result.0 ≡ blend state equation.factor source d }
    ensures second { (state : Blending) → IsOf state equation.rgb equation.alpha equation.mask → result.1 ≡ blend state equation.factor source e }
{
    match settled {
        Some(settled) => equation.over(settled, d, e),
        None => equation.pair(source, source, d, e),
    }
}

/// Draws a source over a row of destinations, two at a time. What is the same for all is handed over by value, so that no destination can lie in it;
/// and it stands in its caller, where what is known of the equation makes the loop shorter.
#[inline(always)]
fn draw_pairs(equation: Equation, settled: Option<Settled>, source: Colour, dst: &mut [Colour])
    requires elements { IsInElements equation.rgb equation.alpha equation.mask equation.factor equation.positions equation.flips equation.written }
    requires settled { IfSome settled (λ s. IsSettled equation.rgb equation.alpha equation.factor source s.sources s.factors) }
    ensures { (state : Blending) → IsOf state equation.rgb equation.alpha equation.mask → dst.new ≡ drawn_row state equation.factor source dst.old }
{
    let pairs = dst.len() / 2;
    for at in 0..pairs {
        let i = 2 * at;
        let (first, second) = pair(equation, settled, source, dst[i], dst[i + 1]);
        dst[i] = first;
        dst[i + 1] = second;
    }
    if 2 * pairs < dst.len() {
        let last = 2 * pairs;
        dst[last] = pair(equation, settled, source, dst[last], dst[last]).0;
    }
}
