ghost use Rattle.std.specs.Prelude.{◌≡◌, Bool, true, false, IsTrue, IsErr, IsOk, IfOk, IfErr, ◌↔◌, ◌||◌};
ghost use Rattle.fd_blend.specs.Equation.{has_colour_factor};
ghost use Rattle.fd_blend.specs.Blend.{blended_channel, blend, part_of, replaces};

use crate::channel::{Channel, Colour};
use crate::equation::Part;
use crate::mask::Mask;
use std::marker::Model;
use thiserror::Error;

/// Why a blend state was refused.
#[derive(Clone, Copy, Debug, PartialEq, Eq, Drop, Error)]
pub enum BlendFault {
    #[error("a colour factor in the alpha part")]
    ColourFactorInAlpha,
}

/// How a source is blended into the target: whether at all, by which equations, and which channels are written.
#[derive(Clone, Copy, Debug, PartialEq, Eq)]
pub struct BlendState {
    enable: bool,
    rgb: Part,
    alpha: Part,
    mask: Mask,
}

impl Model for BlendState {
    ghost use Rattle.std.specs.Prelude.{◌≡◌, false};
    ghost use Rattle.fd_blend.specs.Equation.{has_colour_factor};
    ghost use Rattle.fd_blend.specs.Blending.{Blending};

    ghost Value = { Blending };

    ghost view = { λ b. record { enable = b.enable; rgb = b.rgb; alpha = b.alpha; mask = b.mask } };

    ghost invariant = { λ b. has_colour_factor b.alpha ≡ false };

    ghost inverse = { λ b. record { enable = b.enable; rgb = b.rgb; alpha = b.alpha; mask = b.mask } };
}

impl BlendState {
    /// The state with these parts. A colour factor in the alpha part is refused, whatever its operation and `enable`.
    pub fn new(enable: bool, rgb: Part, alpha: Part, mask: Mask) -> Result<BlendState, BlendFault>
        ensures refused { IsErr result ↔ IsTrue (has_colour_factor alpha) }
        ensures value { IfOk result (λ b. b ≡ record { enable = enable; rgb = rgb; alpha = alpha; mask = mask }) }
    {
        if alpha.src.is_colour() || alpha.dst.is_colour() {
            return Err(BlendFault::ColourFactorInAlpha);
        }
        Ok(BlendState {
            enable,
            rgb,
            alpha,
            mask,
        })
    }

    /// Whether sources are blended. Without blending the result is the source.
    pub fn enable(&self) -> bool
        ensures { result ≡ self.now.enable }
    {
        self.enable
    }

    /// The equation of red, green and blue.
    pub fn rgb(&self) -> Part
        ensures { result ≡ self.now.rgb }
    {
        self.rgb
    }

    /// The equation of alpha. It names no colour factor.
    pub fn alpha(&self) -> Part
        ensures value { result ≡ self.now.alpha }
        ensures no_colour { has_colour_factor result ≡ false }
    {
        self.alpha
    }

    /// The channels that are written, with blending or without.
    pub fn mask(&self) -> Mask
        ensures { result ≡ self.now.mask }
    {
        self.mask
    }

    /// Whether every source takes its destination's place whole.
    pub(crate) fn replaces(&self) -> bool
        ensures { result ≡ replaces self.now }
    {
        !self.enable
            && self.mask.writes(Channel::Red)
            && self.mask.writes(Channel::Green)
            && self.mask.writes(Channel::Blue)
            && self.mask.writes(Channel::Alpha)
    }

    /// The equation of a channel.
    fn part(&self, channel: Channel) -> Part
        ensures { result ≡ part_of self.now channel }
    {
        match channel {
            Channel::Red | Channel::Green | Channel::Blue => self.rgb,
            Channel::Alpha => self.alpha,
        }
    }

    /// One channel of the result.
    #[tactic(auto, unfolding(crate::specs::Blend::blended_channel))]
    fn channel(&self, channel: Channel, factor: Colour, src: Colour, dst: Colour) -> u8
        ensures { result ≡ blended_channel self.now channel factor src dst }
    {
        if !self.mask.writes(channel) {
            channel.of(dst)
        } else if self.enable {
            self.part(channel).blend(channel, factor, src, dst)
        } else {
            channel.of(src)
        }
    }
}

/// The colour that is left where a source is drawn over a destination, with a blend factor.
///
/// Direct3D 11.3 functional specification, section 17, output merger.
#[tactic(auto, unfolding(crate::specs::Blend::blend))]
pub fn blend(state: &BlendState, factor: Colour, src: Colour, dst: Colour) -> Colour
    ensures { result ≡ blend state.now factor src dst }
{
    Colour {
        r: state.channel(Channel::Red, factor, src, dst),
        g: state.channel(Channel::Green, factor, src, dst),
        b: state.channel(Channel::Blue, factor, src, dst),
        a: state.channel(Channel::Alpha, factor, src, dst),
    }
}
