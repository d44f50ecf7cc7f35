//! Texts.
ghost use Rattle.std.specs.Prelude.{◌≡◌, ◌<◌, length, Some, None, MatchResult, OnOk, option_map};
ghost use Rattle.serde_json.specs.Data.{Data};
ghost use Rattle.serde_json.specs.Find.{as_str};
ghost use Rattle.fd_json.specs.Taken.{taken};

use crate::passing::{NotJson, pass_rest};
use json::{Reader, Token};

/// The next value as a text, if it is one.
#[tactic(auto, using(crate::proofs::Within::nothing_taken))]
pub fn text<'a>(reader: &mut Reader<'a>, depth: usize) -> Result<Option<&'a str>, NotJson>
    ensures value { MatchResult result
        (λ text. (d : Data) × (taken depth reader.old ≡ Some (d, reader.new)) × (option_map (λ s. s.now) text ≡ as_str d))
        (λ _. taken depth reader.old ≡ None) }
    ensures shorter { OnOk result (length reader.new < length reader.old) }
{
    let first = reader.next().ok_or(NotJson)?;
    if let Token::String(text) = first {
        Ok(Some(text))
    } else {
        pass_rest(first, reader, depth)?;
        Ok(None)
    }
}
