ghost use Rattle.std.specs.Prelude.{◌≡◌};
ghost use Rattle.fd_blend.specs.Channel.{channel_of};

/// A pixel's colour: each channel is a byte n that stands for n / 255.
#[derive(Clone, Copy, Debug, Default, PartialEq, Eq)]
pub struct Colour {
    pub r: u8,
    pub g: u8,
    pub b: u8,
    pub a: u8,
}

/// One of the four channels of a colour.
#[derive(Clone, Copy)]
pub(crate) enum Channel {
    Red,
    Green,
    Blue,
    Alpha,
}

impl Channel {
    /// This channel's byte of a colour.
    pub(crate) fn of(self, colour: Colour) -> u8
        ensures { result ≡ channel_of self colour }
    {
        match self {
            Channel::Red => colour.r,
            Channel::Green => colour.g,
            Channel::Blue => colour.b,
            Channel::Alpha => colour.a,
        }
    }
}
