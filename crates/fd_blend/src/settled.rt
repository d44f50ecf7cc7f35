//! What a source's equation is before any destination is known.
ghost use Rattle.std.specs.Prelude.{◌≡◌, ◌<◌, ◌≤◌, IfSome};
ghost use Rattle.fd_blend.specs.Brush.{weighted_source, destination_factor, IsSettled};

use crate::channel::{Channel, Colour};
use crate::equation::Part;
use std::simd::prelude::*;

/// A destination that is not looked at.
const UNSEEN: Colour = Colour {
    r: 0,
    g: 0,
    b: 0,
    a: 0,
};

/// The weighted channels of a source and the factors of destinations, in elements for two pixels.
#[derive(Clone, Copy)]
pub(crate) struct Settled {
    pub(crate) sources: u16x8,
    pub(crate) factors: u16x8,
}

impl Settled {
    /// Those of two parts that add, unless one of their factors looks at destinations.
    pub(crate) fn of(rgb: Part, alpha: Part, factor: Colour, source: Colour) -> Option<Settled>
        ensures { IfSome result (λ s. IsSettled rgb alpha factor source s.sources s.factors) }
    {
        if !rgb.adds_unseen() || !alpha.adds_unseen() {
            return None;
        }
        let r = weighted_source(rgb, Channel::Red, factor, source);
        let g = weighted_source(rgb, Channel::Green, factor, source);
        let b = weighted_source(rgb, Channel::Blue, factor, source);
        let a = weighted_source(alpha, Channel::Alpha, factor, source);
        let sources = u16x8::from_array([r, g, b, a, r, g, b, a]);
        let r = destination_factor(rgb, Channel::Red, factor, source);
        let g = destination_factor(rgb, Channel::Green, factor, source);
        let b = destination_factor(rgb, Channel::Blue, factor, source);
        let a = destination_factor(alpha, Channel::Alpha, factor, source);
        let factors = u16x8::from_array([r, g, b, a, r, g, b, a]);
        Some(Settled { sources, factors })
    }
}

/// The source's channel times its factor, over a destination that it does not look at.
fn weighted_source(part: Part, channel: Channel, factor: Colour, source: Colour) -> u16
    ensures value { result ≡ weighted_source part channel factor source }
    ensures bound { result ≤ 65025 }
{
    let value = part.src.value(channel, factor, source, UNSEEN);
    u16::from(channel.of(source)) * u16::from(value)
}

/// The destination's factor, where it does not come from the destination.
fn destination_factor(part: Part, channel: Channel, factor: Colour, source: Colour) -> u16
    ensures value { result ≡ destination_factor part channel factor source }
    ensures bound { result < 256 }
{
    u16::from(part.dst.value(channel, factor, source, UNSEEN))
}
