ghost use Rattle.std.specs.Prelude.{◌≡◌, ◌+◌, ◌*◌, ◌/◌, ◌<◌, ◌≤◌, ◌^◌, ◌%◌, ◌==◌, ◌&&◌, ℕ, Some, IfSome, slice_index_or, unwrap_or, is_none, is_some, length, drop, map, true};
ghost use Rattle.std.specs.Prelude.{option_map};
ghost use Rattle.std.specs.List.{range_with_len};
ghost use Rattle.fd_cover.specs.Bounds.{is_within};

use fd_blend::Colour;
use fd_cover::Bounds;
use std::marker::Model;
use thiserror::Error;

/// The most columns and rows that a picture has.
pub const MAX_SIDE: u32 = 16_384;

/// What is drawn with where there is no texel: nothing.
const NO_COLOUR: Colour = Colour {
    r: 0,
    g: 0,
    b: 0,
    a: 0,
};

/// Why there is no picture. The faults are checked in this order.
#[derive(Clone, Copy, PartialEq, Eq, Debug, Error)]
pub enum PictureFault {
    /// Its first pixel lies on no target, or it has no size that a target may have.
    #[error("a picture of no place")]
    Place,
    /// There aren't four bytes for each texel.
    #[error("texels that don't fill a picture")]
    Texels,
    /// There isn't a bit for each texel.
    #[error("holes that don't fill a picture")]
    Holes,
}

/// A box of the target with a colour for each of its pixels, a texel, or none where it has a hole.
#[derive(Debug, Drop)]
pub struct Picture {
    left: u32,
    top: u32,
    width: u32,
    height: u32,
    // red, green, blue and alpha of each texel, in rows from the top
    texels: Vec<u8>,
    // bit n % 8 of byte n / 8 belongs to texel n
    holes: Option<Vec<u8>>,
}

impl Model for Picture {
    ghost use Rattle.std.specs.Prelude.{◌≡◌, Ok, option_map};
    ghost use Rattle.fd_events.specs.Picture.{Painting, painting_of, made_painting};

    ghost Value = { Painting };

    ghost view = { λ p. painting_of p.left p.top p.width p.height p.texels.items (option_map (λ v. v.items) p.holes) };

    ghost invariant = { λ p.
        made_painting p.left p.top p.width p.height p.texels.items (option_map (λ v. v.items) p.holes)
        ≡ Ok (painting_of p.left p.top p.width p.height p.texels.items (option_map (λ v. v.items) p.holes)) };
}

ghost use Rattle.fd_events.specs.Picture.{is_place, are_holes, is_among, is_hole, first_colour, no_colour};
ghost use Rattle.fd_events.specs.Limits.{most_side};

impl Picture {
    ghost use Rattle.fd_events.specs.Picture.{clipped_to, is_inside, made_painting, texel, texel_or_none};

    /// A picture whose first texel lies on the pixel of column `left` and row `top`: four bytes of each texel, red, green, blue and alpha, in
    /// rows from the top; bit n % 8 of byte n / 8 of the holes belongs to texel n, and left-over bits are ignored. On a refusal all is dropped.
    pub fn new(
        left: u32,
        top: u32,
        width: u32,
        height: u32,
        texels: Vec<u8>,
        holes: Option<Vec<u8>>,
    ) -> Result<Picture, PictureFault>
        ensures { result ≡ made_painting left top width height texels.items (option_map (λ v. v.items) holes) }
    {
        if !is_place(left, top, width, height) {
            return Err(PictureFault::Place);
        }
        let count = width as usize * height as usize;
        if texels.len() != 4 * count {
            return Err(PictureFault::Texels);
        }
        if !are_holes(count, &holes) {
            return Err(PictureFault::Holes);
        }
        Ok(Picture {
            left,
            top,
            width,
            height,
            texels,
            holes,
        })
    }

    /// What of a box lies on the picture.
    pub fn clip(&self, bounds: Bounds) -> Bounds
        ensures value { result ≡ clipped_to (Some self.now) bounds }
        ensures holds { (x y : ℕ) → is_within result x y ≡ (is_within bounds x y && is_inside self.now x y) }
    {
        bounds.meet(Bounds {
            left: self.left,
            top: self.top,
            right: self.left + self.width,
            bottom: self.top + self.height,
        })
    }

    /// Whether it has no holes, so that each pixel of its box has a texel.
    pub fn is_whole(&self) -> bool
        ensures value { result ≡ is_none self.now.holes }
        ensures filled { result ≡ true → (x y : ℕ) → is_inside self.now x y ≡ true → is_some (texel self.now x y) ≡ true }
    {
        self.holes.is_none()
    }

    /// The colour on a pixel, or none outside of the box and on a hole.
    #[tactic(auto, unfolding(crate::specs::Picture::texel))]
    pub fn texel(&self, x: u32, y: u32) -> Option<Colour>
        ensures { result ≡ texel self.now x y }
    {
        if !is_among(self.left, self.width, x) || !is_among(self.top, self.height, y) {
            return None;
        }
        let number = (y - self.top) as usize * self.width as usize + (x - self.left) as usize;
        if is_hole(&self.holes, number) {
            return None;
        }
        first_colour(self.texels.get(4 * number..)?)
    }

    /// The bytes of the texels on so many neighbouring pixels of row y from column x on, if all of them lie in the box and the picture has no holes.
    #[tactic(auto, unfolding(crate::specs::Picture::texel))]
    fn row_bytes(&self, x: u32, y: u32, count: usize) -> Option<&[u8]>
        requires { x + count < 2 ^ 32 }
        ensures long { IfSome result (λ bytes. length bytes.now ≡ 4 * count) }
        ensures texels { IfSome result (λ bytes. (k : ℕ) → k < count → texel self.now (x + k) y ≡ first_colour (drop (4 * k) bytes.now)) }
    {
        let past = x as usize + count;
        if self.holes.is_some() || x < self.left || !is_among(self.top, self.height, y) {
            return None;
        }
        if past > self.left as usize + self.width as usize {
            return None;
        }
        let first = (y - self.top) as usize * self.width as usize + (x - self.left) as usize;
        bytes_of(&self.texels, first, count)
    }

    /// The texels on neighbouring pixels of row y from column x on, with 0 0 0 0 in place of none.
    pub fn copy_row(&self, x: u32, y: u32, out: &mut [Colour])
        requires { x + length out.old < 2 ^ 32 }
        ensures { out.new ≡ map (λ column. texel_or_none self.now column y) (range_with_len x (length out.old)) }
    {
        match self.row_bytes(x, y, out.len()) {
            Some(bytes) => copy_colours(bytes, out),
            None => self.look_up_row(x, y, out),
        }
    }

    /// The same, each by itself.
    fn look_up_row(&self, x: u32, y: u32, out: &mut [Colour])
        requires { x + length out.old < 2 ^ 32 }
        ensures { out.new ≡ map (λ column. texel_or_none self.now column y) (range_with_len x (length out.old)) }
    {
        for i in 0..out.len() {
            out[i] = self.texel_or_none(x + i as u32, y);
        }
    }

    /// The colour on a pixel, with 0 0 0 0 in place of none.
    pub fn texel_or_none(&self, x: u32, y: u32) -> Colour
        ensures { result ≡ texel_or_none self.now x y }
    {
        self.texel(x, y).unwrap_or(NO_COLOUR)
    }
}

/// Whether this is a place on a target, and a size that one may have.
fn is_place(left: u32, top: u32, width: u32, height: u32) -> bool
    ensures { result ≡ is_place left top width height }
{
    left < MAX_SIDE
        && top < MAX_SIDE
        && (1 <= width && width <= MAX_SIDE)
        && (1 <= height && height <= MAX_SIDE)
}

/// Whether there is a bit for each of so many texels.
fn are_holes(count: usize, holes: &Option<Vec<u8>>) -> bool
    requires { count ≤ 268435456 }
    ensures { result ≡ are_holes count (option_map (λ v. v.items) holes.now) }
{
    match holes {
        None => true,
        Some(holes) => holes.len() == (count + 7) / 8,
    }
}

/// Whether a coordinate is one of so many from the first on.
fn is_among(first: u32, count: u32, at: u32) -> bool
    requires first { first < most_side }
    requires count { count ≤ most_side }
    ensures { result ≡ is_among first count at }
{
    first <= at && at < first + count
}

/// Whether a texel is a hole.
fn is_hole(holes: &Option<Vec<u8>>, number: usize) -> bool
    ensures { result ≡ is_hole (option_map (λ v. v.items) holes.now) number }
{
    match holes {
        None => false,
        Some(holes) => match holes.get(number / 8) {
            Some(byte) => (*byte >> (number % 8)) % 2 == 1,
            None => false,
        },
    }
}

/// The colour that four bytes begin with.
fn first_colour(bytes: &[u8]) -> Option<Colour>
    ensures { result ≡ first_colour bytes.now }
{
    let [r, g, b, a, ..] = bytes else {
        return None;
    };
    Some(Colour {
        r: *r,
        g: *g,
        b: *b,
        a: *a,
    })
}

/// The bytes of so many texels from this number on, if there are so many.
fn bytes_of(texels: &[u8], first: usize, count: usize) -> Option<&[u8]>
    requires { first + count < 2 ^ 60 }
    ensures long { IfSome result (λ bytes. length bytes.now ≡ 4 * count) }
    ensures texels { IfSome result (λ bytes. (k : ℕ) → k < count → first_colour (drop (4 * (first + k)) texels.now) ≡ first_colour (drop (4 * k) bytes.now)) }
{
    let (from, past) = (4 * first, 4 * (first + count));
    if past > texels.len() {
        return None;
    }
    Some(&texels[from..past])
}

/// The colours that bytes are, four each.
fn copy_colours(bytes: &[u8], out: &mut [Colour])
    requires { length bytes.now ≡ 4 * length out.old }
    ensures long { length out.new ≡ length out.old }
    ensures colours { (k : ℕ) → (d : Colour) → k < length out.old → slice_index_or out.new k d ≡ unwrap_or (first_colour (drop (4 * k) bytes.now)) no_colour }
{
    for i in 0..out.len() {
        out[i] = Colour {
            r: bytes[4 * i],
            g: bytes[4 * i + 1],
            b: bytes[4 * i + 2],
            a: bytes[4 * i + 3],
        };
    }
}
