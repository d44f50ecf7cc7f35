//! Whole numbers.
ghost use Rattle.std.specs.Prelude.{◌≡◌, ◌<◌, length, Some, None, MatchResult, OnOk};
ghost use Rattle.serde_json.specs.Data.{Data, Num};
ghost use Rattle.serde_json.specs.Find.{as_i64};
ghost use Rattle.serde_json.specs.Read.{number_of};
ghost use Rattle.fd_json.specs.Numeral.{whole_of};
ghost use Rattle.fd_json.specs.Taken.{taken};

use crate::numeral::{any_number, short_integer};
use crate::passing::{NotJson, pass_rest};
use json::{Reader, Token};

/// The next value as a whole number of 64 bits, if it is one.
#[tactic(auto, using(crate::proofs::Within::nothing_taken))]
#[inline(always)]
pub fn integer(reader: &mut Reader<'_>, depth: usize) -> Result<Option<i64>, NotJson>
    ensures value { MatchResult result
        (λ n. (d : Data) × (taken depth reader.old ≡ Some (d, reader.new)) × (n ≡ whole_of d))
        (λ _. taken depth reader.old ≡ None) }
    ensures shorter { OnOk result (length reader.new < length reader.old) }
{
    let first = reader.next().ok_or(NotJson)?;
    if let Token::Number(text) = first {
        whole(text)
    } else {
        pass_rest(first, reader, depth)?;
        Ok(None)
    }
}

/// The whole number of 64 bits that a token writes, if it is one.
#[inline(always)]
fn whole(text: &str) -> Result<Option<i64>, NotJson>
    ensures { MatchResult result (λ n. (m : Num) × (number_of text.now ≡ Some m) × (n ≡ as_i64 m)) (λ _. number_of text.now ≡ None) }
{
    match short_integer(text) {
        Some(whole) => Ok(Some(whole)),
        None => whole_of_any(text),
    }
}

/// The same of any text of a token.
#[cold]
fn whole_of_any(text: &str) -> Result<Option<i64>, NotJson>
    ensures { MatchResult result (λ n. (m : Num) × (number_of text.now ≡ Some m) × (n ≡ as_i64 m)) (λ _. number_of text.now ≡ None) }
{
    let number = any_number(text).ok_or(NotJson)?;
    Ok(number.as_i64())
}
