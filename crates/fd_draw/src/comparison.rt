//! Which pixels of a row pass the depth test, a bit for each: 32 are compared at once.
ghost use Rattle.std.specs.Prelude.{◌≡◌, ℕ, ◌<◌, ◌≤◌, ◌^◌, length, slice_index};
ghost use Rattle.fd_cover.specs.Depth.{holds_of, passes};
ghost use Rattle.fd_draw.specs.Mask.{has_bit};

use crate::write::WIDEST;
use fd_cover::{Depth, Func};
use std::simd::prelude::*;

/// Bit k tells whether the pixel at place k of a row passes the depth test, by its source and its stored depth.
pub(crate) fn test_row(depth: &Depth, sources: &[u16; WIDEST], stored: &[u16]) -> u64
    requires few { length stored.now ≤ 32 }
    ensures bits { (k : ℕ) → k < length stored.now → has_bit result k ≡ passes depth.now (slice_index sources.now k) (slice_index stored.now k) }
    ensures bound { result < 2 ^ 32 }
{
    if !depth.enable {
        return 0xffff_ffff;
    }
    let mut before = [0u16; WIDEST];
    before[..stored.len()].copy_from_slice(stored);
    let sources = u16x32::from_array(*sources);
    holds(depth.func, sources, u16x32::from_array(before))
}

/// How many of some pixels from the first on pass, or fail, as it does.
pub(crate) fn alike(passed: u64, count: usize) -> usize
    requires some { 0 < count }
    requires bound { passed < 2 ^ 32 }
    ensures least { 1 ≤ result }
    ensures most { result ≤ count }
    ensures same { (k : ℕ) → k < result → has_bit passed k ≡ has_bit passed 0 }
{
    if passed == 0 {
        return count;
    }
    let run = if passed % 2 == 1 {
        passed.trailing_ones()
    } else {
        passed.trailing_zeros()
    };
    count.min(run as usize)
}

/// Bit k tells whether a comparison holds of the depths in lane k.
fn holds(func: Func, sources: u16x32, stored: u16x32) -> u64
    requires sources { length sources ≡ 32 }
    requires stored { length stored ≡ 32 }
    ensures bits { (k : ℕ) → k < 32 → has_bit result k ≡ holds_of func (slice_index sources k) (slice_index stored k) }
    ensures bound { result < 2 ^ 32 }
{
    match func {
        Func::Never => 0,
        Func::Less => sources.simd_lt(stored).to_bitmask(),
        Func::Equal => sources.simd_eq(stored).to_bitmask(),
        Func::LessEqual => sources.simd_le(stored).to_bitmask(),
        Func::Greater => sources.simd_gt(stored).to_bitmask(),
        Func::NotEqual => sources.simd_ne(stored).to_bitmask(),
        Func::GreaterEqual => sources.simd_ge(stored).to_bitmask(),
        Func::Always => 0xffff_ffff,
    }
}
