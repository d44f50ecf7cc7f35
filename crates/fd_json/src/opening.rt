//! Looking into an object or an array, and passing any other value.
ghost use Rattle.std.specs.Prelude.{◌≡◌, ◌-◌, ◌<◌, length, Some, None, MatchResult, OnOk};
ghost use Rattle.std.specs.Bool.{MatchBool};
ghost use Rattle.json.specs.Json.{parse_map};
ghost use Rattle.serde_json.specs.Data.{Data, array, object};
ghost use Rattle.serde_json.specs.Find.{as_array, as_object};
ghost use Rattle.fd_json.specs.Taken.{taken, items_taken, members_taken};

use crate::passing::{NotJson, pass_rest};
use json::{Reader, Token};

/// Takes the brace of the next value, if it is an object, and passes any other value.
#[tactic(auto, using(crate::proofs::Within::nothing_taken))]
pub fn open_object(reader: &mut Reader<'_>, depth: usize) -> Result<bool, NotJson>
    ensures value { MatchResult result
        (λ opened. MatchBool opened ((0 < depth) × (taken depth reader.old ≡ parse_map object (members_taken (depth - 1) reader.new)))
        ((d : Data) × (taken depth reader.old ≡ Some (d, reader.new)) × (as_object d ≡ None)))
        (λ _. taken depth reader.old ≡ None) }
    ensures shorter { OnOk result (length reader.new < length reader.old) }
{
    let first = reader.next().ok_or(NotJson)?;
    if let Token::BeginObject = first {
        if depth == 0 {
            return Err(NotJson);
        }
        Ok(true)
    } else {
        pass_rest(first, reader, depth)?;
        Ok(false)
    }
}

/// Takes the bracket of the next value, if it is an array, and passes any other value.
#[tactic(auto, using(crate::proofs::Within::nothing_taken))]
pub fn open_array(reader: &mut Reader<'_>, depth: usize) -> Result<bool, NotJson>
    ensures value { MatchResult result
        (λ opened. MatchBool opened ((0 < depth) × (taken depth reader.old ≡ parse_map array (items_taken (depth - 1) reader.new)))
        ((d : Data) × (taken depth reader.old ≡ Some (d, reader.new)) × (as_array d ≡ None)))
        (λ _. taken depth reader.old ≡ None) }
    ensures shorter { OnOk result (length reader.new < length reader.old) }
{
    let first = reader.next().ok_or(NotJson)?;
    if let Token::BeginArray = first {
        if depth == 0 {
            return Err(NotJson);
        }
        Ok(true)
    } else {
        pass_rest(first, reader, depth)?;
        Ok(false)
    }
}
