//! The four channels of a colour as elements of 64 bits.
ghost use Rattle.std.specs.Prelude.{◌≡◌, ℕ, ◌<◌, ◌+◌, ◌*◌, ◌/◌, ◌%◌, ◌^◌, length, slice_index};
ghost use Rattle.fd_cover.specs.ColourWalk.{top_colour};

use fd_blend::Colour;
use std::simd::prelude::*;

/// The sums of two vectors' elements, without what does not fit.
pub(crate) fn moved(accumulators: u64x4, steps: u64x4) -> u64x4
    requires accumulators { length accumulators ≡ 4 }
    requires steps { length steps ≡ 4 }
    ensures len { length result ≡ 4 }
    ensures elements { (k : ℕ) → k < 4 → slice_index result k ≡ (slice_index accumulators k + slice_index steps k) % 2 ^ 64 }
{
    accumulators + steps
}

/// The colours of the highest bytes of two times four elements.
pub(crate) fn colours_of(first: u64x4, second: u64x4) -> (Colour, Colour)
    requires first { length first ≡ 4 }
    requires second { length second ≡ 4 }
    ensures first { result.0 ≡ top_colour first }
    ensures second { result.1 ≡ top_colour second }
{
    let bytes = tops(upper_halves(first, second));
    let [r, g, b, a, red, green, blue, alpha] = bytes.to_array();
    let second = Colour {
        r: red,
        g: green,
        b: blue,
        a: alpha,
    };
    (Colour { r, g, b, a }, second)
}

/// The upper halves of four elements, and behind them those of another four.
fn upper_halves(first: u64x4, second: u64x4) -> u32x8
    requires first { length first ≡ 4 }
    requires second { length second ≡ 4 }
    ensures len { length result ≡ 8 }
    ensures first { (k : ℕ) → k < 4 → slice_index result k ≡ slice_index first k / 2 ^ 32 }
    ensures second { (k : ℕ) → k < 4 → slice_index result (k + 4) ≡ slice_index second k / 2 ^ 32 }
{
    words_of(first).shuffle(words_of(second), [1, 3, 5, 7, 9, 11, 13, 15])
}

/// The halves of four elements, of each the lower one first.
fn words_of(elements: u64x4) -> u32x8
    requires { length elements ≡ 4 }
    ensures len { length result ≡ 8 }
    ensures upper { (k : ℕ) → k < 4 → slice_index result (2 * k + 1) ≡ slice_index elements k / 2 ^ 32 }
{
    u32x8::from_le_bytes(elements.to_le_bytes())
}

/// The highest byte of each element.
fn tops(words: u32x8) -> u8x8
    requires { length words ≡ 8 }
    ensures len { length result ≡ 8 }
    ensures elements { (k : ℕ) → k < 8 → slice_index result k ≡ slice_index words k / 2 ^ 24 }
{
    (words >> u32x8::splat(24)).cast::<u8>()
}
