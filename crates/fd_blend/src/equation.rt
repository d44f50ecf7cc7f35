ghost use Rattle.std.specs.Prelude.{◌≡◌, ◌<◌, ◌≤◌, ◌^◌, pos, IsTrue};
ghost use Rattle.fd_blend.specs.Equation.{factor_value, combined, blended, is_colour_factor, looks_at_destination, adds_unseen};

use crate::channel::{Channel, Colour};
use crate::conversion::unorm;

/// What a channel is multiplied by, in units of 1/255. An `Inv` factor is 255 less the one that it names.
///
/// Direct3D 11.3 functional specification, section 17, blend factors.
#[derive(Clone, Copy, Debug, PartialEq, Eq)]
pub enum Factor {
    Zero,
    One,
    SrcColor,
    InvSrcColor,
    SrcAlpha,
    InvSrcAlpha,
    DestAlpha,
    InvDestAlpha,
    DestColor,
    InvDestColor,
    BlendFactor,
    InvBlendFactor,
}

impl Factor {
    /// Whether the factor is one of those that the alpha part may not name.
    pub(crate) fn is_colour(self) -> bool
        ensures { result ≡ is_colour_factor self }
    {
        matches!(
            self,
            Factor::SrcColor | Factor::InvSrcColor | Factor::DestColor | Factor::InvDestColor
        )
    }

    /// Whether the factor's value comes from the destination.
    fn looks_at_destination(self) -> bool
        ensures { result ≡ looks_at_destination self }
    {
        matches!(
            self,
            Factor::DestAlpha | Factor::InvDestAlpha | Factor::DestColor | Factor::InvDestColor
        )
    }

    /// The factor's value at a channel, in units of 1/255.
    pub(crate) fn value(self, channel: Channel, factor: Colour, src: Colour, dst: Colour) -> u8
        ensures { result ≡ factor_value self channel factor src dst }
    {
        match self {
            Factor::Zero => 0,
            Factor::One => 255,
            Factor::SrcColor => channel.of(src),
            Factor::InvSrcColor => 255 - channel.of(src),
            Factor::SrcAlpha => src.a,
            Factor::InvSrcAlpha => 255 - src.a,
            Factor::DestAlpha => dst.a,
            Factor::InvDestAlpha => 255 - dst.a,
            Factor::DestColor => channel.of(dst),
            Factor::InvDestColor => 255 - channel.of(dst),
            Factor::BlendFactor => channel.of(factor),
            Factor::InvBlendFactor => 255 - channel.of(factor),
        }
    }
}

/// How a source and a destination, each times its factor, become the result. `Min` and `Max` take no factors.
///
/// Direct3D 11.3 functional specification, section 17, blend operations.
#[derive(Clone, Copy, Debug, PartialEq, Eq)]
pub enum BlendOp {
    /// source + destination
    Add,
    /// source - destination
    Subtract,
    /// destination - source
    RevSubtract,
    /// the smaller of the two
    Min,
    /// the larger of the two
    Max,
}

impl BlendOp {
    /// Combines a source and a destination channel, each with its factor.
    ///
    /// A product is at most 255 * 255, so 32 bits hold the sum and both differences.
    fn combine(self, src: u8, dst: u8, src_factor: u8, dst_factor: u8) -> u8
        ensures { result ≡ combined self src dst src_factor dst_factor }
    {
        let weighted_src = i32::from(src) * i32::from(src_factor);
        let weighted_dst = i32::from(dst) * i32::from(dst_factor);
        match self {
            BlendOp::Add => unorm(weighted_src + weighted_dst),
            BlendOp::Subtract => unorm(weighted_src - weighted_dst),
            BlendOp::RevSubtract => unorm(weighted_dst - weighted_src),
            BlendOp::Min => src.min(dst),
            BlendOp::Max => src.max(dst),
        }
    }
}

/// The blend equation of the three colour channels, or of the alpha channel.
#[derive(Clone, Copy, Debug, PartialEq, Eq)]
pub struct Part {
    pub src: Factor,
    pub dst: Factor,
    pub op: BlendOp,
}

impl Part {
    /// Whether the part adds, and neither factor looks at the destination.
    pub(crate) fn adds_unseen(self) -> bool
        ensures { result ≡ adds_unseen self }
    {
        self.op == BlendOp::Add
            && !self.src.looks_at_destination()
            && !self.dst.looks_at_destination()
    }

    /// One channel after the equation.
    pub(crate) fn blend(self, channel: Channel, factor: Colour, src: Colour, dst: Colour) -> u8
        ensures { result ≡ blended self channel factor src dst }
    {
        self.op.combine(
            channel.of(src),
            channel.of(dst),
            self.src.value(channel, factor, src, dst),
            self.dst.value(channel, factor, src, dst),
        )
    }
}
