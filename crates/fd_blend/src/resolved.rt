//! The blend equation of a state as elements take it, resolved once for a row.
ghost use Rattle.std.specs.Prelude.{◌≡◌, ℕ, ◌+◌, ◌<◌, ◌≤◌, length, [], ◌∷◌, IsTrue, ◌||◌, nat_lt, nat_le, slice_index, if◌then◌else◌};
ghost use Rattle.fd_blend.specs.Mask.{writes};
ghost use Rattle.fd_blend.specs.Resolved.{channel_place, factor_position, flip_of, weighted_part, positions_of, flips_of, written_of};

use crate::channel::{Channel, Colour};
use crate::equation::{BlendOp, Factor, Part};
use crate::mask::Mask;
use crate::packing::{bytes_of, colours_of, pair_bytes};
use crate::settled::Settled;
use crate::state::BlendState;
use crate::vectors::{added, blended};
use std::simd::prelude::*;

/// The part that leaves the source.
const COPY: Part = Part {
    src: Factor::One,
    dst: Factor::Zero,
    op: BlendOp::Add,
};

impl Channel {
    /// The channel's place in a colour.
    fn place(self) -> u8
        ensures { result ≡ channel_place self }
    {
        match self {
            Channel::Red => 0,
            Channel::Green => 1,
            Channel::Blue => 2,
            Channel::Alpha => 3,
        }
    }
}

impl Factor {
    /// Where the factor's channel of the first of two pixels stands, of which the sources' bytes come first and the destinations' next;
    /// 128 where it is none of them. The second pixel's is four further.
    fn position(self, channel: Channel) -> u8
        ensures value { result ≡ factor_position self channel }
        ensures bound { result ≤ 128 }
    {
        match self {
            Factor::SrcColor | Factor::InvSrcColor => channel.place(),
            Factor::SrcAlpha | Factor::InvSrcAlpha => 3,
            Factor::DestColor | Factor::InvDestColor => 8 + channel.place(),
            Factor::DestAlpha | Factor::InvDestAlpha => 11,
            Factor::Zero | Factor::One | Factor::BlendFactor | Factor::InvBlendFactor => 128,
        }
    }

    /// The bits by which the factor's value differs from the byte at its position.
    fn flip(self, channel: Channel, factor: Colour) -> u8
        ensures { result ≡ flip_of self channel factor }
    {
        match self {
            Factor::Zero
            | Factor::SrcColor
            | Factor::SrcAlpha
            | Factor::DestAlpha
            | Factor::DestColor => 0,
            Factor::One
            | Factor::InvSrcColor
            | Factor::InvSrcAlpha
            | Factor::InvDestAlpha
            | Factor::InvDestColor => 255,
            Factor::BlendFactor => channel.of(factor),
            Factor::InvBlendFactor => 255 - channel.of(factor),
        }
    }
}

impl Part {
    /// The part with factors that make products of all operations: a part that takes no factors has ones, and without blending the source is left.
    fn weighted(self, enable: bool) -> Part
        ensures { result ≡ weighted_part enable self }
    {
        if !enable {
            return COPY;
        }
        match self.op {
            BlendOp::Add | BlendOp::Subtract | BlendOp::RevSubtract => self,
            BlendOp::Min | BlendOp::Max => Part {
                src: Factor::One,
                dst: Factor::One,
                op: self.op,
            },
        }
    }
}

/// The blend equation of a state and a blend factor, for two neighbouring pixels at once.
#[derive(Clone, Copy)]
pub(crate) struct Equation {
    rgb: Part,
    alpha: Part,
    mask: Mask,
    factor: Colour,
    positions: u8x16,
    flips: u8x16,
    written: u8x8,
}

impl Equation {
    ghost use Rattle.std.specs.Prelude.{◌≡◌, IfSome};
    ghost use Rattle.fd_blend.specs.declared.channel.Colour.{Colour};
    ghost use Rattle.fd_blend.specs.Blend.{blend};
    ghost use Rattle.fd_blend.specs.Blending.{Blending};
    ghost use Rattle.fd_blend.specs.Brush.{AreWeights, IsSettled};
    ghost use Rattle.fd_blend.specs.Resolved.{IsOf, IsInElements};

    /// The equation of a state and a blend factor.
    pub(crate) fn of(state: &BlendState, factor: Colour) -> Equation
        ensures state { IsOf state.now result.rgb result.alpha result.mask }
        ensures factor { result.factor ≡ factor }
        ensures elements { IsInElements result.rgb result.alpha result.mask result.factor result.positions result.flips result.written }
    {
        let rgb = state.rgb().weighted(state.enable());
        let alpha = state.alpha().weighted(state.enable());
        let mask = state.mask();
        Equation {
            rgb,
            alpha,
            mask,
            factor,
            positions: positions(rgb, alpha),
            flips: flips(rgb, alpha, factor),
            written: written(mask),
        }
    }

    /// Two sources over two destinations.
    pub(crate) fn pair(&self, s: Colour, t: Colour, d: Colour, e: Colour) -> (Colour, Colour)
        requires { IsInElements self.now.rgb self.now.alpha self.now.mask self.now.factor self.now.positions self.now.flips self.now.written }
        ensures first { (state : Blending) → IsOf state self.now.rgb self.now.alpha self.now.mask → result.0 ≡ blend state self.now.factor s d }
        ensures second { (state : Blending) → IsOf state self.now.rgb self.now.alpha self.now.mask → result.1 ≡ blend state self.now.factor t e }
    {
        let elements = blended(
            bytes_of(s, t, d, e),
            self.positions,
            self.flips,
            self.written,
            self.rgb.op,
            self.alpha.op,
        );
        colours_of(elements)
    }

    /// One source over one destination.
    pub(crate) fn one(&self, s: Colour, d: Colour) -> Colour
        requires { IsInElements self.now.rgb self.now.alpha self.now.mask self.now.factor self.now.positions self.now.flips self.now.written }
        ensures { (state : Blending) → IsOf state self.now.rgb self.now.alpha self.now.mask → result ≡ blend state self.now.factor s d }
    {
        self.pair(s, s, d, d).0
    }

    /// The same equation, where both of its parts add and all channels are written: that is then known wherever it is used.
    #[inline(always)]
    pub(crate) fn adding(&self) -> Option<Equation>
        ensures { IfSome result (λ equation. equation ≡ self.now) }
    {
        if self.written.to_array() != [1; 8] {
            return None;
        }
        match (self.rgb.op, self.alpha.op) {
            (BlendOp::Add, BlendOp::Add) => Some(Equation {
                rgb: Part {
                    op: BlendOp::Add,
                    ..self.rgb
                },
                alpha: Part {
                    op: BlendOp::Add,
                    ..self.alpha
                },
                written: u8x8::splat(1),
                ..*self
            }),
            _ => None,
        }
    }

    /// What is known of the equation for a source before any destination, unless it looks at destinations or does more than to add.
    pub(crate) fn settled(&self, source: Colour) -> Option<Settled>
        ensures { IfSome result (λ s. IsSettled self.now.rgb self.now.alpha self.now.factor source s.sources s.factors) }
    {
        Settled::of(self.rgb, self.alpha, self.factor, source)
    }

    /// The source that the elements were settled for over two destinations.
    pub(crate) fn over(&self, settled: Settled, d: Colour, e: Colour) -> (Colour, Colour)
        requires elements { IsInElements self.now.rgb self.now.alpha self.now.mask self.now.factor self.now.positions self.now.flips self.now.written }
        requires weights { AreWeights settled.sources settled.factors }
        ensures first { (state : Blending) (source : Colour) → IsOf state self.now.rgb self.now.alpha self.now.mask
            → IsSettled self.now.rgb self.now.alpha self.now.factor source settled.sources settled.factors → result.0 ≡ blend state self.now.factor source d }
        ensures second { (state : Blending) (source : Colour) → IsOf state self.now.rgb self.now.alpha self.now.mask
            → IsSettled self.now.rgb self.now.alpha self.now.factor source settled.sources settled.factors → result.1 ≡ blend state self.now.factor source e }
    {
        let bytes = pair_bytes(d, e);
        let elements = added(bytes, settled.sources, settled.factors, self.written);
        colours_of(elements)
    }
}

/// The positions of four factors of the second of two pixels, from those of the first: four further.
fn further(positions: Colour) -> Colour
    requires r { positions.r ≤ 128 }
    requires g { positions.g ≤ 128 }
    requires b { positions.b ≤ 128 }
    requires a { positions.a ≤ 128 }
    ensures { result ≡ record { r = positions.r + 4; g = positions.g + 4; b = positions.b + 4; a = positions.a + 4 } }
{
    Colour {
        r: positions.r + 4,
        g: positions.g + 4,
        b: positions.b + 4,
        a: positions.a + 4,
    }
}

/// The positions of the factors of two pixels: the sources', then the destinations'. Each four go as one word, as a colour does.
fn positions(rgb: Part, alpha: Part) -> u8x16
    ensures { result ≡ positions_of rgb alpha }
{
    let src = Colour {
        r: rgb.src.position(Channel::Red),
        g: rgb.src.position(Channel::Green),
        b: rgb.src.position(Channel::Blue),
        a: alpha.src.position(Channel::Alpha),
    };
    let dst = Colour {
        r: rgb.dst.position(Channel::Red),
        g: rgb.dst.position(Channel::Green),
        b: rgb.dst.position(Channel::Blue),
        a: alpha.dst.position(Channel::Alpha),
    };
    bytes_of(src, further(src), dst, further(dst))
}

/// The flips of the factors of two pixels: the sources', then the destinations'.
fn flips(rgb: Part, alpha: Part, factor: Colour) -> u8x16
    ensures { result ≡ flips_of rgb alpha factor }
{
    let src = Colour {
        r: rgb.src.flip(Channel::Red, factor),
        g: rgb.src.flip(Channel::Green, factor),
        b: rgb.src.flip(Channel::Blue, factor),
        a: alpha.src.flip(Channel::Alpha, factor),
    };
    let dst = Colour {
        r: rgb.dst.flip(Channel::Red, factor),
        g: rgb.dst.flip(Channel::Green, factor),
        b: rgb.dst.flip(Channel::Blue, factor),
        a: alpha.dst.flip(Channel::Alpha, factor),
    };
    bytes_of(src, src, dst, dst)
}

/// For each channel of two pixels 1 where it is written, and else 0.
fn written(mask: Mask) -> u8x8
    ensures { result ≡ written_of mask }
{
    let r = u8::from(mask.writes(Channel::Red));
    let g = u8::from(mask.writes(Channel::Green));
    let b = u8::from(mask.writes(Channel::Blue));
    let a = u8::from(mask.writes(Channel::Alpha));
    u8x8::from_array([r, g, b, a, r, g, b, a])
}
