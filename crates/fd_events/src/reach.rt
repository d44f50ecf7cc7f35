ghost use Rattle.std.specs.Prelude.{◌≡◌, ◌≤◌};
ghost use Rattle.fd_snap.specs.Limits.{most_pixels};

use fd_cover::Bounds;

/// A box on a target, in 8 bytes.
#[derive(Clone, Copy, Debug)]
pub(crate) struct Reach {
    left: u16,
    top: u16,
    right: u16,
    bottom: u16,
}

impl Reach {
    ghost use Rattle.fd_cover.specs.Bounds.{is_empty};
    ghost use Rattle.fd_events.specs.Reach.{box_of, clipped_box};

    /// No pixel.
    pub(crate) fn nowhere() -> Reach
        ensures { box_of result ≡ record { left = 0; top = 0; right = 0; bottom = 0 } }
    {
        Reach {
            left: 0,
            top: 0,
            right: 0,
            bottom: 0,
        }
    }

    /// The whole of a target of this size.
    pub(crate) fn whole(width: u32, height: u32) -> Reach
        requires width { width ≤ most_pixels }
        requires height { height ≤ most_pixels }
        ensures { box_of result ≡ record { left = 0; top = 0; right = width; bottom = height } }
    {
        Reach {
            left: 0,
            top: 0,
            right: width as u16,
            bottom: height as u16,
        }
    }

    /// The part of a box that lies on a target of this size.
    pub(crate) fn clipped(bounds: Bounds, width: u32, height: u32) -> Reach
        requires width { width ≤ most_pixels }
        requires height { height ≤ most_pixels }
        ensures { box_of result ≡ clipped_box width height bounds }
    {
        Reach {
            left: bounds.left.min(width) as u16,
            top: bounds.top.min(height) as u16,
            right: bounds.right.min(width) as u16,
            bottom: bounds.bottom.min(height) as u16,
        }
    }

    /// Whether it has no pixel.
    pub(crate) fn is_empty(self) -> bool
        ensures { result ≡ is_empty (box_of self) }
    {
        self.bounds().is_empty()
    }

    /// The same box with sides of 32 bits.
    pub(crate) fn bounds(self) -> Bounds
        ensures { result ≡ box_of self }
    {
        Bounds {
            left: self.left as u32,
            top: self.top as u32,
            right: self.right as u32,
            bottom: self.bottom as u32,
        }
    }
}
