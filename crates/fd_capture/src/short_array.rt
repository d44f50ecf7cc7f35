//! Arrays of a few values: colours, rectangles and parts of the blend equation.
ghost use Rattle.std.specs.Prelude.{◌≡◌, ◌<◌, [], ◌∷◌, ◌++◌, length, take, Some, None, Err, IfOk, OnOk, option_and_then, option_map};
ghost use Rattle.serde_json.specs.Data.{Data, Items};
ghost use Rattle.fd_json.specs.Taken.{taken, items_taken};
ghost use Rattle.fd_capture.specs.Field.{all_of, array_of, list_of};
ghost use Rattle.fd_capture.specs.Streamed.{colour_from, part_from, rect_from};

use crate::from_tokens::FromTokens;
use crate::scope::Scope;
use crate::spelling::{Word, spelled};
use arrayvec::ArrayVec;
use fd_blend::{Colour, Part};
use fd_cover::Rect;
use fd_json::{Stop, open_array};
use json::Reader;

/// The first values of an array: as many as tell that there are four, or more.
type First<T> = ArrayVec<T, 5>;

/// Red, green, blue and alpha.
impl FromTokens for Colour {
    ghost use Rattle.fd_capture.specs.Field.{colour_of_data};

    ghost of_data = { colour_of_data };

    fn next(reader: &mut Reader<'_>, scope: Scope) -> Result<Option<Colour>, Stop> {
        let channels = first::<u8>(reader, scope)?;
        match channels {
            Some(channels) => Ok(colour_from(channels.as_slice())),
            None => Ok(None),
        }
    }
}

/// Left, top, right and bottom.
impl FromTokens for Rect {
    ghost use Rattle.fd_capture.specs.Field.{rect_of_data};

    ghost of_data = { rect_of_data };

    fn next(reader: &mut Reader<'_>, scope: Scope) -> Result<Option<Rect>, Stop> {
        let sides = first::<i32>(reader, scope)?;
        match sides {
            Some(sides) => Ok(rect_from(sides.as_slice())),
            None => Ok(None),
        }
    }
}

/// A word, as a text.
impl FromTokens for Word {
    ghost use Rattle.std.specs.Prelude.{option_and_then};
    ghost use Rattle.serde_json.specs.Find.{as_str};
    ghost use Rattle.std.specs.Prelude.{Some};
    ghost use Rattle.fd_capture.specs.Streamed.{words_spelled};

    ghost of_data = { λ d. option_and_then (λ text. Some (words_spelled text)) (as_str d) };

    fn next(reader: &mut Reader<'_>, scope: Scope) -> Result<Option<Word>, Stop> {
        spelled(reader, scope)
    }
}

/// Source factor, destination factor and operation.
impl FromTokens for Part {
    ghost use Rattle.fd_capture.specs.Field.{part_of_data};

    ghost of_data = { part_of_data };

    fn next(reader: &mut Reader<'_>, scope: Scope) -> Result<Option<Part>, Stop> {
        let words = first::<Word>(reader, scope)?;
        match words {
            Some(words) => Ok(part_from(words.as_slice())),
            None => Ok(None),
        }
    }
}

/// Keeps a value, if it is one of the first.
fn keep<T: Copy + Default>(values: &mut First<T>, value: T)
    ensures { values.new.items ≡ take 5 (values.old.items ++ value ∷ []) }
{
    if !values.is_full() {
        values.push(value);
    }
}

/// The first values of an array whose bracket was taken, up to the bracket that closes it; none if one of all isn't well formed.
fn first_items<T: FromTokens + Copy + Default>(
    reader: &mut Reader<'_>,
    scope: Scope,
) -> Result<Option<First<T>>, Stop>
    ensures ok { IfOk result (λ v. (ds : Items) × (items_taken scope.depth reader.old ≡ Some (ds, reader.new))
        × (option_map (λ values. values.items) v ≡ option_map (take 5) (all_of T.of_data (list_of ds)))) }
    ensures refused { result ≡ Err Stop.NotJson → items_taken scope.depth reader.old ≡ None }
    ensures shorter { OnOk result (length reader.new < length reader.old) }
{
    let mut values = ArrayVec::new();
    let mut well_formed = true;
    'items: while !reader.take_end_array() {
        match T::next(reader, scope)? {
            Some(value) => keep(&mut values, value),
            None => well_formed = false,
        }
    }
    if !well_formed {
        return Ok(None);
    }
    Ok(Some(values))
}

/// The first values of the next value, if that is an array of such values.
fn first<T: FromTokens + Copy + Default>(
    reader: &mut Reader<'_>,
    scope: Scope,
) -> Result<Option<First<T>>, Stop>
    ensures ok { IfOk result (λ v. (d : Data) × (taken scope.depth reader.old ≡ Some (d, reader.new))
        × (option_map (λ values. values.items) v ≡ option_map (take 5) (option_and_then (all_of T.of_data) (array_of d)))) }
    ensures refused { result ≡ Err Stop.NotJson → taken scope.depth reader.old ≡ None }
    ensures shorter { OnOk result (length reader.new < length reader.old) }
{
    if !open_array(reader, scope.depth)? {
        return Ok(None);
    }
    let values = first_items(reader, scope.inner())?;
    Ok(values)
}

/// The colour of exactly four channels.
fn colour_from(channels: &[u8]) -> Option<Colour>
    ensures { result ≡ colour_from channels.now }
{
    let [r, g, b, a] = channels else {
        return None;
    };
    Some(Colour {
        r: *r,
        g: *g,
        b: *b,
        a: *a,
    })
}

/// The rectangle of exactly four sides.
fn rect_from(sides: &[i32]) -> Option<Rect>
    ensures { result ≡ rect_from sides.now }
{
    let [left, top, right, bottom] = sides else {
        return None;
    };
    Some(Rect {
        left: *left,
        top: *top,
        right: *right,
        bottom: *bottom,
    })
}

/// The part of exactly three words: source factor, destination factor and operation.
fn part_from(words: &[Word]) -> Option<Part>
    ensures { result ≡ part_from words.now }
{
    let [src, dst, op] = words else {
        return None;
    };
    Some(Part {
        src: src.factor?,
        dst: dst.factor?,
        op: op.op?,
    })
}
