use fd_json::{clipped, integer, leaf, number, open_array, open_object, pass, text};
use json::{Reader, Scratch};
use serde_json::Value;
use std::alloc::Global;
use std::test::Fail;

/// How deep values nest in these tests.
const DEPTH: usize = 3;

/// Whether a text begins with a value.
fn passes(alloc: Global, text: &str) -> Result<bool, Fail> {
    let mut scratch = Scratch::new(alloc);
    let mut reader = Reader::new(text, &mut scratch)?;
    Ok(pass(&mut reader, DEPTH).is_ok())
}

/// Whether a text begins with a value, seen as a whole number.
fn is_taken(alloc: Global, text: &str) -> Result<bool, Fail> {
    let mut scratch = Scratch::new(alloc);
    let mut reader = Reader::new(text, &mut scratch)?;
    Ok(integer(&mut reader, DEPTH).is_ok())
}

/// Values, and whether they are taken where they nest three deep at most.
const VALUES: [(&str, bool); 16] = [
    ("{\"a\":[1,{\"b\":null}],\"c\":\"\\u00e4\"}", true),
    ("[[[]]]", true),
    ("[[[[]]]]", false),
    ("[[{}]]", true),
    ("[[[{}]]]", false),
    ("0", true),
    ("-0", true),
    ("01", false),
    ("1e308", true),
    ("1e309", false),
    ("-1e309", false),
    ("{\"a\":1e999}", false),
    ("[1,]", false),
    ("{\"a\" 1}", false),
    ("{1:2}", false),
    ("", false),
];

#[test]
fn values_that_are_passed(rt: HostRuntime) -> Result<(), Fail> {
    for (text, passed) in VALUES {
        assert_eq!(rt; passes(rt.alloc(), text)?, passed, "{text}");
        assert_eq!(rt; is_taken(rt.alloc(), text)?, passed, "{text}");
    }
    Ok(())
}

/// Numbers, and the whole number that each of them is.
const NUMBERS: [(&str, Option<i64>); 13] = [
    ("0", Some(0)),
    ("-1", Some(-1)),
    ("999999999999999999", Some(999_999_999_999_999_999)),
    ("-999999999999999999", Some(-999_999_999_999_999_999)),
    ("1000000000000000000", Some(1_000_000_000_000_000_000)),
    ("-1000000000000000000", Some(-1_000_000_000_000_000_000)),
    ("9223372036854775807", Some(i64::MAX)),
    ("9223372036854775808", None),
    ("-9223372036854775808", Some(i64::MIN)),
    ("-9223372036854775809", None),
    ("-0", None),
    ("1.0", None),
    ("1e0", None),
];

#[test]
fn whole_numbers(rt: HostRuntime) -> Result<(), Fail> {
    for (text, whole) in NUMBERS {
        let value = number(text).ok_or("a number")?;
        assert_eq!(rt; value.as_i64(), whole, "{text}");
    }
    Ok(())
}

/// Values, some of which are whole numbers of 64 bits.
const ITEMS: &str =
    "[1073741824,-7,-0,1.0,7e0,null,\"7\",[7],{\"a\":7},9223372036854775807,9223372036854775808]";

/// What each of them is as such a number.
const WHOLES: [Option<i64>; 11] = [
    Some(1_073_741_824),
    Some(-7),
    None,
    None,
    None,
    None,
    None,
    None,
    None,
    Some(i64::MAX),
    None,
];

#[test]
fn whole_numbers_among_other_values(rt: HostRuntime) -> Result<(), Fail> {
    let mut scratch = Scratch::new(rt.alloc());
    let mut reader = Reader::new(ITEMS, &mut scratch)?;
    assert_eq!(rt; open_array(&mut reader, DEPTH).ok(), Some(true));
    for whole in WHOLES {
        assert_eq!(rt; integer(&mut reader, DEPTH).ok(), Some(whole));
    }
    assert!(rt; reader.take_end_array());
    Ok(())
}

#[test]
fn an_array_is_clipped(rt: HostRuntime) -> Result<(), Fail> {
    let alloc = rt.alloc();
    let mut scratch = Scratch::new(alloc);
    let mut reader = Reader::new("[1,\"b\",[true],{},null,6] false", &mut scratch)?;
    let value = clipped(alloc, &mut reader, DEPTH).ok().ok_or("a value")?;
    let items = value.as_array().ok_or("an array")?;
    assert_eq!(rt; items.len(), 5);
    assert_eq!(rt; items[0].as_i64(), Some(1));
    assert_eq!(rt; items[1].as_str(), Some("b"));
    assert!(rt;
        matches!(
            (&items[2], &items[3], &items[4]),
            (Value::Null, Value::Null, Value::Null)
        )
    );
    Ok(())
}

#[test]
fn an_object_is_opened(rt: HostRuntime) -> Result<(), Fail> {
    let alloc = rt.alloc();
    let mut scratch = Scratch::new(alloc);
    let mut reader = Reader::new("{\"a\":[],\"b\":2}", &mut scratch)?;
    assert_eq!(rt; open_object(&mut reader, DEPTH).ok(), Some(true));
    assert_eq!(rt; reader.next_key().ok(), Some(Some("a")));
    assert_eq!(rt; open_object(&mut reader, DEPTH).ok(), Some(false));
    assert_eq!(rt; reader.next_key().ok(), Some(Some("b")));
    let two = leaf(alloc, &mut reader, DEPTH).ok().ok_or("a value")?;
    assert_eq!(rt; two.as_i64(), Some(2));
    assert_eq!(rt; reader.next_key().ok(), Some(None));
    Ok(())
}

/// Values, and the text that each of them is.
const TEXTS: [(&str, Option<&str>); 5] = [
    ("\"\"", Some("")),
    ("\"a\\/b\"", Some("a/b")),
    ("null", None),
    ("[\"a\"]", None),
    ("{\"a\":\"b\"}", None),
];

#[test]
fn values_as_texts(rt: HostRuntime) -> Result<(), Fail> {
    for (value, expected) in TEXTS {
        let mut scratch = Scratch::new(rt.alloc());
        let mut reader = Reader::new(value, &mut scratch)?;
        let Ok(found) = text(&mut reader, DEPTH) else {
            return Err(Fail::from("no value"));
        };
        assert_eq!(rt; found, expected, "{value}");
    }
    Ok(())
}
