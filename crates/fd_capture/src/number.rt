//! Whole numbers, from those of 64 bits to the ones that are asked for, and truth values.
ghost use Rattle.std.specs.Prelude.{◌≡◌, ◌-◌, ◌^◌, option_and_then};
ghost use Rattle.fd_capture.specs.Field.{between, within_32};

use crate::from_tokens::FromTokens;
use crate::scope::Scope;
use fd_blend::Mask;
use fd_json::{Stop, integer, leaf};
use json::Reader;

/// One from `low` to `high`.
pub(crate) fn ranged(whole: Option<i64>, low: u32, high: u32) -> Option<u32>
    ensures { result ≡ option_and_then (between low high) whole }
{
    unsigned(whole).filter(|number| low <= *number && *number <= high)
}

impl FromTokens for i32 {
    ghost use Rattle.fd_capture.specs.Field.{signed_32};

    ghost of_data = { signed_32 };

    #[inline(always)]
    fn next(reader: &mut Reader<'_>, scope: Scope) -> Result<Option<i32>, Stop> {
        let whole = integer(reader, scope.depth)?;
        Ok(signed(whole))
    }
}

impl FromTokens for u32 {
    ghost use Rattle.fd_capture.specs.Field.{unsigned_32};

    ghost of_data = { unsigned_32 };

    #[inline(always)]
    fn next(reader: &mut Reader<'_>, scope: Scope) -> Result<Option<u32>, Stop> {
        let whole = integer(reader, scope.depth)?;
        Ok(unsigned(whole))
    }
}

impl FromTokens for u16 {
    ghost use Rattle.fd_capture.specs.Field.{number_between};

    ghost of_data = { number_between 0 65535 };

    #[inline(always)]
    fn next(reader: &mut Reader<'_>, scope: Scope) -> Result<Option<u16>, Stop> {
        let whole = integer(reader, scope.depth)?;
        Ok(short(whole))
    }
}

impl FromTokens for u8 {
    ghost use Rattle.fd_capture.specs.Field.{number_between};

    ghost of_data = { number_between 0 255 };

    #[inline(always)]
    fn next(reader: &mut Reader<'_>, scope: Scope) -> Result<Option<u8>, Stop> {
        let whole = integer(reader, scope.depth)?;
        Ok(byte(whole))
    }
}

impl FromTokens for bool {
    ghost use Rattle.serde_json.specs.Find.{as_bool};

    ghost of_data = { as_bool };

    fn next(reader: &mut Reader<'_>, scope: Scope) -> Result<Option<bool>, Stop> {
        let value = leaf(scope.alloc, reader, scope.depth)?;
        Ok(value.as_bool())
    }
}

/// The bits of a write mask.
impl FromTokens for Mask {
    ghost use Rattle.std.specs.Prelude.{option_map};
    ghost use Rattle.fd_blend.specs.Mask.{mask_of};
    ghost use Rattle.fd_capture.specs.Field.{number_between};

    ghost of_data = { λ d. option_map mask_of (number_between 0 15 d) };

    fn next(reader: &mut Reader<'_>, scope: Scope) -> Result<Option<Mask>, Stop> {
        let bits = u8::next(reader, scope)?;
        Ok(bits.and_then(Mask::from_bits))
    }
}

/// One of 32 bits.
fn signed(whole: Option<i64>) -> Option<i32>
    ensures { result ≡ option_and_then within_32 whole }
{
    i32::try_from(whole?).ok()
}

/// One of 32 bits without a sign.
fn unsigned(whole: Option<i64>) -> Option<u32>
    ensures { result ≡ option_and_then (between 0 (2 ^ 32 - 1)) whole }
{
    u32::try_from(whole?).ok()
}

/// One of 16 bits without a sign.
fn short(whole: Option<i64>) -> Option<u16>
    ensures { result ≡ option_and_then (between 0 65535) whole }
{
    u16::try_from(whole?).ok()
}

/// One of 8 bits without a sign.
fn byte(whole: Option<i64>) -> Option<u8>
    ensures { result ≡ option_and_then (between 0 255) whole }
{
    u8::try_from(whole?).ok()
}
