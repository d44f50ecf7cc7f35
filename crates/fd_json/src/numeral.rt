//! Numbers.
ghost use Rattle.std.specs.Prelude.{◌≡◌, ◌<◌, ◌^◌, Some, IfSome, option_map};
ghost use Rattle.std.specs.Str.Parse.{IsNumeral, digits_value};
ghost use Rattle.serde_json.specs.Find.{as_i64, of_integer};
ghost use Rattle.serde_json.specs.Read.{number_of, number_from};
ghost use Rattle.serde_json.specs.View.{number_view};
ghost use Rattle.fd_json.specs.Numeral.{integer_of};

use fast_float::Numeral;
use serde_json::Number;

/// How many digits are read without looking for anything else.
const PLAIN_DIGITS: usize = 18;

/// The number that a token writes, unless it is too large for a float.
pub fn number(text: &str) -> Option<Number>
    ensures { option_map number_view result ≡ number_of text.now }
{
    match short_integer(text) {
        Some(whole) => Some(Number::from(whole)),
        None => any_number(text),
    }
}

/// The whole number of a few digits, perhaps behind a minus, and nothing else. There is no `-0`.
#[inline(always)]
pub(crate) fn short_integer(text: &str) -> Option<i64>
    ensures value { IfSome result (λ z. number_of text.now ≡ Some (of_integer z)) }
    ensures whole { IfSome result (λ z. as_i64 (of_integer z) ≡ Some z) }
{
    let bytes = text.as_bytes();
    if !bytes.is_empty() && bytes[0] == b'-' {
        let size = digits(&bytes[1..])?;
        if size == 0 {
            return None;
        }
        Some(-(size as i64))
    } else {
        let size = digits(bytes)?;
        Some(size as i64)
    }
}

/// The number of any text of a token.
pub(crate) fn any_number(text: &str) -> Option<Number>
    ensures { option_map number_view result ≡ number_of text.now }
{
    let bytes = text.as_bytes();
    if !bytes.is_empty() && bytes[0] == b'-' {
        signed(true, &Numeral::scan(&bytes[1..]))
    } else {
        signed(false, &Numeral::scan(bytes))
    }
}

/// The value of a few digits.
#[inline(always)]
fn digits(bytes: &[u8]) -> Option<u64>
    ensures value { IfSome result (λ n. IsNumeral 10 bytes.now × (n ≡ digits_value 10 bytes.now)) }
    ensures small { IfSome result (λ n. n < 10 ^ 18) }
{
    if bytes.is_empty() || bytes.len() > PLAIN_DIGITS {
        return None;
    }
    let mut value: u64 = 0;
    for i in 0..bytes.len() {
        let digit = bytes[i].wrapping_sub(b'0');
        if digit > 9 {
            return None;
        }
        value = value * 10 + u64::from(digit);
    }
    Some(value)
}

/// The number of a numeral: a whole one, if it has 64 bits, and else the nearest float.
fn signed(negative: bool, numeral: &Numeral<'_>) -> Option<Number>
    ensures { option_map number_view result ≡ number_from negative numeral.now }
{
    match integer(negative, numeral) {
        Some(number) => Some(number),
        None => Number::from_f64(numeral.to_float(negative)),
    }
}

/// The whole number of a numeral, if it has 64 bits. There is no `-0`.
fn integer(negative: bool, numeral: &Numeral<'_>) -> Option<Number>
    ensures { option_map number_view result ≡ integer_of negative numeral.now }
{
    let size = i128::from(numeral.to_u64()?);
    if negative && size == 0 {
        return None;
    }
    Number::from_i128(if negative { -size } else { size })
}
