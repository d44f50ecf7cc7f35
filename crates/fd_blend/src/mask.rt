ghost use Rattle.std.specs.Prelude.{⊤, ◌≡◌, ◌==◌, [], ◌∷◌, codes, ◌≤◌, ◌↔◌, IsSome, IfSome};
ghost use Rattle.fd_blend.specs.Mask.{bits_of, writes};

use crate::channel::Channel;
use bitflags::{Flag, Flags, bitflag_items};

/// The channels that are written: red 1, green 2, blue 4, alpha 8.
#[derive(Clone, Copy, Debug, PartialEq, Eq)]
pub struct Mask(u8);

bitflag_items! {
    impl Mask: u8 {
        const RED = 1;
        const GREEN = 2;
        const BLUE = 4;
        const ALPHA = 8;
    }
}

impl Flags for Mask {
    type Bits = u8;

    ghost exact = { ⊤ };

    ghost table = { (codes "RED", 1) ∷ (codes "GREEN", 2) ∷ (codes "BLUE", 4) ∷ (codes "ALPHA", 8) ∷ [] };

    ghost set_of = { λ m. m.0 };

    fn flags<'a>() -> &'a [Flag<Mask>] {
        Mask::FLAGS
    }

    fn bits(&self) -> u8 {
        self.0
    }

    fn from_bits_retain(bits: u8) -> Mask {
        Mask(bits)
    }
}

impl Mask {
    /// The mask with these bits; None exactly above 15.
    pub fn from_bits(bits: u8) -> Option<Mask>
        ensures valid { IsSome result ↔ (bits ≤ 15) }
        ensures value { IfSome result (λ m. bits_of m ≡ bits) }
    {
        <Mask as Flags>::from_bits(bits)
    }

    /// Whether a channel is written.
    pub(crate) fn writes(self, channel: Channel) -> bool
        ensures { result ≡ writes self channel }
    {
        match channel {
            Channel::Red => self.contains(Mask::RED),
            Channel::Green => self.contains(Mask::GREEN),
            Channel::Blue => self.contains(Mask::BLUE),
            Channel::Alpha => self.contains(Mask::ALPHA),
        }
    }
}
