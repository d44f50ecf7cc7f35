ghost use Rattle.std.specs.Prelude.{◌≡◌, ℕ, ℤ, IsTrue, ◌&&◌, not, false};
ghost use Rattle.fd_cover.specs.Bounds.{is_within, is_empty, HoldsCovered, HoldsBoth, IsSmallest, corner_box, bounds_of, least, greatest, first_from, past};
ghost use Rattle.fd_cover.specs.Bounds.{joined_box, shared_box, pixels_of_box};

use crate::triangle::Tri;

/// A box of pixels: columns from `left` to before `right`, rows from `top` to before `bottom`.
#[derive(Clone, Copy, Debug, PartialEq, Eq)]
pub struct Bounds {
    pub left: u32,
    pub top: u32,
    pub right: u32,
    pub bottom: u32,
}

impl Bounds {
    /// No pixel.
    pub fn empty() -> Bounds
        ensures { result ≡ record { left = 0; top = 0; right = 0; bottom = 0 } }
    {
        Bounds {
            left: 0,
            top: 0,
            right: 0,
            bottom: 0,
        }
    }

    /// The pixels whose centres lie between a triangle's corners, in columns and in rows.
    #[tactic(auto, unfolding(crate::specs::Bounds::corner_box))]
    fn round(triangle: &Tri) -> Bounds
        ensures { result ≡ corner_box triangle.now }
    {
        let (a, b, c) = (triangle.a, triangle.b, triangle.c);
        Bounds {
            left: first_from(least(a.x(), b.x(), c.x())),
            top: first_from(least(a.y(), b.y(), c.y())),
            right: past(greatest(a.x(), b.x(), c.x())),
            bottom: past(greatest(a.y(), b.y(), c.y())),
        }
    }

    /// The same, or no pixel where the triangle has no area. The box holds every pixel that the triangle covers.
    pub fn of(triangle: &Tri) -> Bounds
        ensures value { result ≡ bounds_of triangle.now }
        ensures covered { HoldsCovered result triangle.now }
    {
        if triangle.area() == 0 {
            Bounds::empty()
        } else {
            Bounds::round(triangle)
        }
    }

    /// Whether the box holds a pixel.
    pub fn holds(&self, x: u32, y: u32) -> bool
        ensures { result ≡ is_within self.now x y }
    {
        self.left <= x && x < self.right && self.top <= y && y < self.bottom
    }

    /// Whether the box holds no pixel.
    pub fn is_empty(&self) -> bool
        ensures { result ≡ is_empty self.now }
    {
        self.right <= self.left || self.bottom <= self.top
    }

    /// The smallest box that holds both.
    #[tactic(auto, unfolding(crate::specs::Bounds::joined_box))]
    pub fn join(self, other: Bounds) -> Bounds
        ensures value { result ≡ joined_box self other }
        ensures both { HoldsBoth result self other }
        ensures smallest { IsSmallest result self other }
    {
        if self.is_empty() {
            other
        } else if other.is_empty() {
            self
        } else {
            Bounds {
                left: self.left.min(other.left),
                top: self.top.min(other.top),
                right: self.right.max(other.right),
                bottom: self.bottom.max(other.bottom),
            }
        }
    }

    /// The pixels that both hold.
    pub fn meet(self, other: Bounds) -> Bounds
        ensures value { result ≡ shared_box self other }
        ensures holds { (x y : ℕ) → is_within result x y ≡ (is_within self x y && is_within other x y) }
    {
        Bounds {
            left: self.left.max(other.left),
            top: self.top.max(other.top),
            right: self.right.min(other.right),
            bottom: self.bottom.min(other.bottom),
        }
    }

    /// Whether there is a pixel that both hold. Where one of the two holds none at all, it may be true too.
    pub fn meets(self, other: Bounds) -> bool
        ensures apart { IsTrue (not result) → (x y : ℕ) → IsTrue (is_within other x y) → is_within self x y ≡ false }
        ensures together { IsTrue result → is_empty self ≡ false → is_empty other ≡ false → is_empty (shared_box self other) ≡ false }
    {
        // no comparison waits for another, since none of them could be foretold
        (other.left < self.right)
            & (other.top < self.bottom)
            & (self.left < other.right)
            & (self.top < other.bottom)
    }

    /// How many pixels it holds.
    pub fn count(self) -> usize
        ensures { result ≡ pixels_of_box self }
    {
        self.bottom.saturating_sub(self.top) as usize
            * self.right.saturating_sub(self.left) as usize
    }
}

/// The least of three coordinates.
fn least(a: i32, b: i32, c: i32) -> i32
    ensures { result ≡ least a b c }
{
    a.min(b).min(c)
}

/// The greatest of three coordinates.
fn greatest(a: i32, b: i32, c: i32) -> i32
    ensures { result ≡ greatest a b c }
{
    a.max(b).max(c)
}

/// The first pixel whose centre is at a coordinate in 1/256 pixel or after it.
fn first_from(coordinate: i32) -> u32
    ensures { result ≡ first_from coordinate }
{
    (coordinate.max(0) as u32 + 127) / 256
}

/// One past the last pixel whose centre is at a coordinate in 1/256 pixel or before it.
fn past(coordinate: i32) -> u32
    ensures { result ≡ past coordinate }
{
    (coordinate.max(0) as u32 + 128) / 256
}
