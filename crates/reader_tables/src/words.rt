//! Lines, tokens, names and numbers at a few texts.

use line_lexer::{Line, integer, name, node, number, short_name, tokens};
use refusals::Why;
use residue_field::{Field, Res};
use std::test::Fail;

#[test]
fn tokens_stand_between_blanks(rt: HostRuntime) -> Result<(), Fail> {
    let bytes = b"\teq  a x=1 # no\xfftes";
    let line = Line { number: 1, bytes };
    let mut found = Vec::new(rt.alloc());
    for token in tokens(line).ok().ok_or("a bad byte")? {
        found.push((token.start, token.text.len()))?;
    }
    assert_eq!(rt; found.as_slice(), [(1, 2), (5, 1), (7, 3)].as_slice());
    let bytes = b"a\r";
    let line = Line { number: 1, bytes };
    assert!(rt; tokens(line).is_err());
    Ok(())
}

// A text, and whether it is a name, a node and a short name.
const NAMES: [(&str, bool, bool, bool); 21] = [
    ("x", true, true, true),
    ("_", true, true, true),
    ("R1", true, true, true),
    ("a", true, true, true),
    ("out_2", true, true, true),
    ("v.R1", true, true, false),
    ("A_9.", true, true, false),
    ("0", false, true, false),
    ("1.5", false, true, false),
    ("1a", false, true, false),
    ("", false, false, false),
    (".a", false, true, false),
    ("a.b", true, true, false),
    ("a-b", false, false, false),
    ("a b", false, false, false),
    ("-", false, false, false),
    ("=", false, false, false),
    ("a23456789_123456789_123456789_", true, true, true),
    ("a23456789_123456789_123456789_1", true, true, false),
    (
        "a234567890123456789012345678901234567890123456789012345678901234",
        true,
        true,
        false,
    ),
    (
        "a2345678901234567890123456789012345678901234567890123456789012345",
        false,
        false,
        false,
    ),
];

fn answer(is_told: bool) -> Result<(), Why> {
    if is_told { Ok(()) } else { Err(Why::BadName) }
}

#[test]
fn names_are_told(rt: HostRuntime) {
    for (text, is_name, is_node, is_short) in NAMES {
        assert_eq!(rt; name(text), answer(is_name), "{text}");
        assert_eq!(rt; node(text), answer(is_node), "{text}");
        assert_eq!(rt; short_name(text), answer(is_short), "{text}");
    }
}

// The residue of each number, or why it has none.
const NUMBERS: [(&str, Result<u32, Why>); 31] = [
    ("0", Ok(0)),
    ("000", Ok(0)),
    ("65520", Ok(65_520)),
    ("65522", Ok(1)),
    ("+1", Ok(1)),
    ("-1", Ok(65_520)),
    ("1/3", Ok(43_681)),
    ("0.5", Ok(32_761)),
    ("+0/5", Ok(0)),
    ("0.0", Ok(0)),
    ("-0", Ok(0)),
    ("000000000000000001", Ok(1)),
    ("00000000000000000.1", Ok(58_969)),
    ("", Err(Why::BadNumber)),
    ("+", Err(Why::BadNumber)),
    ("--1", Err(Why::BadNumber)),
    ("1e3", Err(Why::BadNumber)),
    (".5", Err(Why::BadNumber)),
    ("1.", Err(Why::BadNumber)),
    ("1/", Err(Why::BadNumber)),
    ("1/2/3", Err(Why::BadNumber)),
    ("1/-2", Err(Why::BadNumber)),
    ("1.5/2", Err(Why::BadNumber)),
    ("0000000000000000001", Err(Why::BadNumber)),
    ("0000000000.000000001", Err(Why::BadNumber)),
    ("65521", Err(Why::Vanish)),
    ("-65521", Err(Why::Vanish)),
    ("1/65521", Err(Why::Vanish)),
    ("0/65521", Err(Why::Vanish)),
    ("1/0", Err(Why::Vanish)),
    ("6552.1", Err(Why::Vanish)),
];

fn residue_of(text: &str) -> Result<u32, Why> {
    Ok(number::<Res>(text)?.value())
}

const WHOLE_NUMBERS: [(i64, Result<u32, Why>); 6] = [
    (0, Ok(0)),
    (-1, Ok(65_520)),
    (65_522, Ok(1)),
    (i64::MAX, Ok(58_072)),
    (65_521, Err(Why::Vanish)),
    (-65_521, Err(Why::Vanish)),
];

fn residue_of_whole(whole: i64) -> Result<u32, Why> {
    Ok(integer::<Res>(whole)?.value())
}

#[test]
fn numbers_are_told(rt: HostRuntime) {
    for (text, want) in NUMBERS {
        assert_eq!(rt; residue_of(text), want, "{text}");
    }
    for (whole, want) in WHOLE_NUMBERS {
        assert_eq!(rt; residue_of_whole(whole), want, "{whole}");
    }
}
