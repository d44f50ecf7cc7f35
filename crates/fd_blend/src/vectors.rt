//! The blend equation of two neighbouring pixels at once: an element for each channel of each pixel.
ghost use Rattle.std.specs.Prelude.{◌≡◌, ◌<◌, ◌≤◌, ◌+◌, ◌-◌, min, max, ◌*◌, ◌/◌, ℕ, length, slice_index, IsTrue, ◌||◌, nat_lt, nat_le, bit_xor, if◌then◌else◌};
ghost use Rattle.std.specs.Prelude.{◌==◌};
ghost use Rattle.fd_blend.specs.Vectors.{units, is_alpha, factor_at, blended_element, added_element};

use crate::equation::BlendOp;
use std::simd::prelude::*;

/// The blend equation in each element: eight source channels stand before eight destination channels, and the two factors of each
/// where `positions` and `flips` say.
pub(crate) fn blended(
    bytes: u8x16,
    positions: u8x16,
    flips: u8x16,
    written: u8x8,
    rgb: BlendOp,
    alpha: BlendOp,
) -> u8x8
    requires bytes { length bytes ≡ 16 }
    requires positions { length positions ≡ 16 }
    requires flips { length flips ≡ 16 }
    requires written { length written ≡ 8 }
    requires inside { (k : ℕ) → k < 16 → IsTrue (nat_le 128 (slice_index positions k) || nat_lt (slice_index positions k) 16) }
    ensures len { length result ≡ 8 }
    ensures elements { (k : ℕ) → k < 8 → slice_index result k ≡ blended_element bytes positions flips written rgb alpha k }
    ensures small { (k : ℕ) → k < 16 → slice_index bytes k < 256 }
{
    let weighted = products(bytes, factors(bytes, positions, flips));
    let (src, dst) = halves(weighted);
    let units = combined_parts(rgb, alpha, src, dst);
    chosen(written, converted(units), upper_half(bytes))
}

/// The blend equation in each element of eight destination channels, to which their sources, weighted already, are added.
pub(crate) fn added(bytes: u8x8, sources: u16x8, factors: u16x8, written: u8x8) -> u8x8
    requires bytes { length bytes ≡ 8 }
    requires sources { length sources ≡ 8 }
    requires factors { length factors ≡ 8 }
    requires written { length written ≡ 8 }
    requires few { (k : ℕ) → k < 8 → slice_index factors k < 256 }
    ensures len { length result ≡ 8 }
    ensures elements { (k : ℕ) → k < 8 → slice_index result k ≡ added_element bytes sources factors written k }
    ensures small { (k : ℕ) → k < 8 → slice_index bytes k < 256 }
{
    let units = sums(sources, weighted(bytes, factors));
    chosen(written, converted(units), bytes)
}

/// Of each element the byte at its position, where a position from 128 on stands for 0; then the bits of `flips` are turned over.
fn factors(bytes: u8x16, positions: u8x16, flips: u8x16) -> u8x16
    requires bytes { length bytes ≡ 16 }
    requires positions { length positions ≡ 16 }
    requires flips { length flips ≡ 16 }
    requires inside { (k : ℕ) → k < 16 → IsTrue (nat_le 128 (slice_index positions k) || nat_lt (slice_index positions k) 16) }
    ensures len { length result ≡ 16 }
    ensures elements { (k : ℕ) → k < 16 → slice_index result k ≡ factor_at bytes positions flips k }
{
    bytes.swizzle_dyn(positions) ^ flips
}

/// The products of two vectors of bytes.
fn products(bytes: u8x16, factors: u8x16) -> u16x16
    requires bytes { length bytes ≡ 16 }
    requires factors { length factors ≡ 16 }
    ensures len { length result ≡ 16 }
    ensures elements { (k : ℕ) → k < 16 → slice_index result k ≡ slice_index bytes k * slice_index factors k }
    ensures small { (k : ℕ) → k < 16 → slice_index result k ≤ 65025 }
{
    bytes.cast::<u16>() * factors.cast::<u16>()
}

/// The sums of two vectors, clamped to 65025.
fn sums(a: u16x8, b: u16x8) -> u16x8
    requires a { length a ≡ 8 }
    requires b { length b ≡ 8 }
    ensures len { length result ≡ 8 }
    ensures elements { (k : ℕ) → k < 8 → slice_index result k ≡ min (slice_index a k + slice_index b k) 65025 }
{
    a.saturating_add(b).simd_min(u16x8::splat(65025))
}

/// The differences of two vectors, or 0 where they are negative.
fn differences(a: u16x8, b: u16x8) -> u16x8
    requires a { length a ≡ 8 }
    requires b { length b ≡ 8 }
    ensures len { length result ≡ 8 }
    ensures elements { (k : ℕ) → k < 8 → slice_index result k ≡ slice_index a k - slice_index b k }
{
    a.saturating_sub(b)
}

/// The lesser of two vectors' elements.
fn least(a: u16x8, b: u16x8) -> u16x8
    requires a { length a ≡ 8 }
    requires b { length b ≡ 8 }
    ensures len { length result ≡ 8 }
    ensures elements { (k : ℕ) → k < 8 → slice_index result k ≡ min (slice_index a k) (slice_index b k) }
{
    a.simd_min(b)
}

/// The greater of two vectors' elements.
fn greatest(a: u16x8, b: u16x8) -> u16x8
    requires a { length a ≡ 8 }
    requires b { length b ≡ 8 }
    ensures len { length result ≡ 8 }
    ensures elements { (k : ℕ) → k < 8 → slice_index result k ≡ max (slice_index a k) (slice_index b k) }
{
    a.simd_max(b)
}

/// A blend operation on weighted sources and destinations, clamped to the range from 0 to 65025.
fn combined(op: BlendOp, src: u16x8, dst: u16x8) -> u16x8
    requires src { length src ≡ 8 }
    requires dst { length dst ≡ 8 }
    ensures len { length result ≡ 8 }
    ensures elements { (k : ℕ) → k < 8 → slice_index result k ≡ units op (slice_index src k) (slice_index dst k) }
{
    match op {
        BlendOp::Add => sums(src, dst),
        BlendOp::Subtract => differences(src, dst),
        BlendOp::RevSubtract => differences(dst, src),
        BlendOp::Min => least(src, dst),
        BlendOp::Max => greatest(src, dst),
    }
}

/// The bytes of values in units of 1/65025.
fn converted(values: u16x8) -> u8x8
    requires len { length values ≡ 8 }
    requires small { (k : ℕ) → k < 8 → slice_index values k ≤ 65025 }
    ensures len { length result ≡ 8 }
    ensures elements { (k : ℕ) → k < 8 → slice_index result k ≡ (slice_index values k + 127) / 255 }
{
    ((values + u16x8::splat(127)) / u16x8::splat(255)).cast::<u8>()
}

/// The elements of `yes` where a mask's element isn't 0, and those of `no` elsewhere.
fn chosen(mask: u8x8, yes: u8x8, no: u8x8) -> u8x8
    requires mask { length mask ≡ 8 }
    requires yes { length yes ≡ 8 }
    requires no { length no ≡ 8 }
    ensures len { length result ≡ 8 }
    ensures elements { (k : ℕ) → k < 8 → slice_index result k ≡ (if slice_index mask k == 0 then slice_index no k else slice_index yes k) }
{
    mask.simd_eq(u8x8::splat(0)).select(no, yes)
}

/// The elements of `alpha` in the fourth and the eighth place, and those of `rgb` elsewhere.
fn joined(rgb: u16x8, alpha: u16x8) -> u16x8
    requires rgb { length rgb ≡ 8 }
    requires alpha { length alpha ≡ 8 }
    ensures len { length result ≡ 8 }
    ensures elements { (k : ℕ) → k < 8 → slice_index result k ≡ slice_index (if is_alpha k then alpha else rgb) k }
{
    u16x8::from_array([1, 1, 1, 0, 1, 1, 1, 0])
        .simd_eq(u16x8::splat(0))
        .select(alpha, rgb)
}

/// The operations of both parts, each on its channels.
fn combined_parts(rgb: BlendOp, alpha: BlendOp, src: u16x8, dst: u16x8) -> u16x8
    requires src { length src ≡ 8 }
    requires dst { length dst ≡ 8 }
    ensures len { length result ≡ 8 }
    ensures elements { (k : ℕ) → k < 8 → slice_index result k ≡ units (if is_alpha k then alpha else rgb) (slice_index src k) (slice_index dst k) }
{
    let everywhere = combined(rgb, src, dst);
    if rgb == alpha {
        everywhere
    } else {
        joined(everywhere, combined(alpha, src, dst))
    }
}

/// The first eight elements, and the other eight.
fn halves(elements: u16x16) -> (u16x8, u16x8)
    requires { length elements ≡ 16 }
    ensures len { (length result.0 ≡ 8) × (length result.1 ≡ 8) }
    ensures lower { (k : ℕ) → k < 8 → slice_index result.0 k ≡ slice_index elements k }
    ensures upper { (k : ℕ) → k < 8 → slice_index result.1 k ≡ slice_index elements (8 + k) }
{
    (elements.extract::<0, 8>(), elements.extract::<8, 8>())
}

/// The last eight elements.
fn upper_half(elements: u8x16) -> u8x8
    requires { length elements ≡ 16 }
    ensures len { length result ≡ 8 }
    ensures upper { (k : ℕ) → k < 8 → slice_index result k ≡ slice_index elements (8 + k) }
{
    elements.extract::<8, 8>()
}

/// The products of eight bytes and eight factors.
fn weighted(bytes: u8x8, factors: u16x8) -> u16x8
    requires bytes { length bytes ≡ 8 }
    requires factors { length factors ≡ 8 }
    requires few { (k : ℕ) → k < 8 → slice_index factors k < 256 }
    ensures len { length result ≡ 8 }
    ensures elements { (k : ℕ) → k < 8 → slice_index result k ≡ slice_index bytes k * slice_index factors k }
{
    bytes.cast::<u16>() * factors
}
