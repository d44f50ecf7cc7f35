//! Texts, numbers and truth values.
ghost use Rattle.std.specs.Prelude.{◌≡◌, ◌<◌, ◌≤◌, ◌∷◌, length, Some, None, Err, IfOk, OnOk};
ghost use Rattle.json.specs.Reads.{token_of};
ghost use Rattle.serde_json.specs.Data.{Data};
ghost use Rattle.serde_json.specs.View.{view};
ghost use Rattle.fd_json.specs.Taken.{taken};
ghost use Rattle.fd_json.specs.Clipped.{leaf_of};

use crate::numeral::number;
use crate::passing::pass_rest;
use crate::stop::Stop;
use json::{Reader, Token};
use serde_json::Value;
use std::alloc::Global;

/// The next value; null stands for an array or an object.
#[tactic(auto, using(crate::proofs::Within::nothing_taken))]
pub fn leaf(alloc: Global, reader: &mut Reader<'_>, depth: usize) -> Result<Value, Stop>
    ensures ok { IfOk result (λ v. (d : Data) × (taken depth reader.old ≡ Some (d, reader.new)) × (view v ≡ leaf_of d)) }
    ensures refused { result ≡ Err Stop.NotJson → taken depth reader.old ≡ None }
    ensures shorter { OnOk result (length reader.new < length reader.old) }
{
    let first = reader.next().ok_or(Stop::NotJson)?;
    leaf_rest(alloc, first, reader, depth)
}

/// The value whose first token was taken; null stands for an array or an object.
pub fn leaf_rest(
    alloc: Global,
    first: Token<'_>,
    reader: &mut Reader<'_>,
    depth: usize,
) -> Result<Value, Stop>
    ensures ok { IfOk result (λ v. (d : Data) × (taken depth (token_of first.entry ∷ reader.old) ≡ Some (d, reader.new)) × (view v ≡ leaf_of d)) }
    ensures refused { result ≡ Err Stop.NotJson → taken depth (token_of first.entry ∷ reader.old) ≡ None }
    ensures shorter { OnOk result (length reader.new ≤ length reader.old) }
{
    match first {
        Token::String(text) => Ok(Value::String(String::from_str(alloc, text)?)),
        Token::Number(text) => Ok(Value::Number(number(text).ok_or(Stop::NotJson)?)),
        Token::Bool(flag) => Ok(Value::Bool(flag)),
        _ => {
            pass_rest(first, reader, depth)?;
            Ok(Value::Null)
        }
    }
}
