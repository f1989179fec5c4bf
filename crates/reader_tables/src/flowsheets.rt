//! Small flowsheets, and why they are refused.

use flowsheet_reader::read;
use refusals::{Place, ReadModel, Refused, Why};
use residue_field::Res;
use std::alloc::Global;
use std::process::Abort;
use std::test::Fail;

/// A component, four streams, and the first two keys of a unit.
const UNIT: &str =
    "components = [\"A\"]\nstreams = [\"s1\", \"s2\", \"s3\", \"s4\"]\n[[unit]]\nname = \"U\"\n";

// The refusal of a text, or none.
fn refusal(alloc: Global, text: &[u8]) -> Option<Refused> {
    match read::<Res>(alloc, text) {
        Err(ReadModel::Refused(refused)) => Some(refused),
        _ => None,
    }
}

// The numbers of equations and of unknowns of a text, where it is read.
fn sizes(alloc: Global, text: &[u8]) -> Option<(usize, usize)> {
    match read::<Res>(alloc, text) {
        Ok(model) => Some((model.equations(), model.unknowns())),
        Err(_) => None,
    }
}

// A text, or what follows the beginning of one, and its refusal.
type Case = (&'static str, Place, Why);

fn assert_refusals(
    rt: &impl Abort,
    alloc: Global,
    beginning: &str,
    cases: &[Case],
) -> Result<(), Fail> {
    for (keys, place, why) in cases {
        let text = format!(in alloc; "{beginning}{keys}")?;
        let want = Some(Refused {
            place: *place,
            why: *why,
        });
        assert_eq!(rt; refusal(alloc, text.as_bytes()), want, "{keys}");
    }
    Ok(())
}

const DOCUMENTS: [Case; 16] = [
    ("= 3", Place::Document, Why::NotToml),
    ("a = \"", Place::Document, Why::NotToml),
    ("a = 2026-02-30", Place::Document, Why::NotToml),
    ("unit = 1\nunit = 2", Place::Document, Why::NotToml),
    (
        "version = 12345678901234567890",
        Place::Document,
        Why::NotToml,
    ),
    ("a = 1", Place::Document, Why::UnknownKey),
    ("version = 3", Place::Document, Why::BadVersion),
    ("version = 1.0", Place::Document, Why::BadVersion),
    (
        "version = 3\ncomponents = 1",
        Place::Document,
        Why::BadVersion,
    ),
    ("components = 1", Place::Document, Why::BadValue),
    (
        "components = [\"a\", \"b.c\"]",
        Place::Component(2),
        Why::BadName,
    ),
    ("components = [1.5]", Place::Component(1), Why::BadValue),
    (
        "components = [\"a234567890123456789012345678901\"]",
        Place::Component(1),
        Why::BadName,
    ),
    ("streams = [\"s1\", \"s1\"]", Place::Stream(2), Why::Twice),
    ("unit.name = \"U\"", Place::Document, Why::BadValue),
    ("unit = [1]", Place::Unit(1), Why::BadValue),
];

#[test]
fn documents_that_break_a_rule(rt: HostRuntime) -> Result<(), Fail> {
    let place = Place::Document;
    let why = Why::NotToml;
    assert_eq!(rt;
        refusal(rt.alloc(), b"# \xff"),
        Some(Refused { place, why })
    );
    assert_refusals(&rt, rt.alloc(), "", &DOCUMENTS)
}

const UNITS: [Case; 17] = [
    ("", Place::Unit(1), Why::Missing),
    ("kind = 1", Place::Unit(1), Why::BadValue),
    ("kind = \"pump\"", Place::Unit(1), Why::BadKind),
    (
        "kind = \"spec\"\nstream = 1\nflow = 2",
        Place::Unit(1),
        Why::UnknownKey,
    ),
    ("kind = \"spec\"\nstream = 1", Place::Unit(1), Why::BadValue),
    (
        "kind = \"spec\"\nstream = \"s5\"",
        Place::Unit(1),
        Why::Undeclared,
    ),
    (
        "kind = \"spec\"\nstream = \"s1\"",
        Place::Unit(1),
        Why::Missing,
    ),
    (
        "kind = \"mixer\"\ninlets = []",
        Place::Unit(1),
        Why::BadValue,
    ),
    (
        "kind = \"mixer\"\ninlets = [\"s1\", \"s1\"]",
        Place::Unit(1),
        Why::Twice,
    ),
    (
        "kind = \"mixer\"\ninlets = [\"s1\"]\noutlet = \"s1\"",
        Place::Unit(1),
        Why::Twice,
    ),
    (
        "kind = \"reactor\"\ninlet = \"s1\"\noutlet = \"s2\"\nstoich = 3",
        Place::Unit(1),
        Why::BadValue,
    ),
    (
        "kind = \"reactor\"\ninlet = \"s1\"\noutlet = \"s2\"\nstoich.B = 1",
        Place::Unit(1),
        Why::Undeclared,
    ),
    (
        "kind = \"reactor\"\ninlet = \"s1\"\noutlet = \"s2\"\nstoich.A = 65521",
        Place::Unit(1),
        Why::Vanish,
    ),
    (
        "kind = \"tee\"\ninlet = \"s1\"\nfirst = \"s2\"\nsecond = \"s3\"\nfraction = 0.5",
        Place::Unit(1),
        Why::BadValue,
    ),
    (
        "kind = \"tee\"\ninlet = \"s1\"\nfirst = \"s2\"\nsecond = \"s3\"\nfraction = \"1234567890123456789\"",
        Place::Unit(1),
        Why::BadNumber,
    ),
    (
        "kind = \"relation\"\nunknowns = [\"q.U\"]",
        Place::Unit(1),
        Why::Undeclared,
    ),
    (
        "kind = \"relation\"\nunknowns = [\"f.s1.A\", \"f.s1.A\"]",
        Place::Unit(1),
        Why::Twice,
    ),
];

const UNITS_OF_VERSION_TWO: [Case; 5] = [
    (
        "kind = \"separator\"\ninlet = \"s1\"\ntop = \"s2\"",
        Place::Unit(1),
        Why::UnknownKey,
    ),
    (
        "kind = \"separator\"\ninlet = \"s1\"\noutlets = [\"s2\"]",
        Place::Unit(1),
        Why::BadValue,
    ),
    (
        "kind = \"separator\"\ninlet = \"s1\"\noutlets = [\"s2\", \"s1\"]",
        Place::Unit(1),
        Why::Twice,
    ),
    (
        "kind = \"tee\"\ninlet = \"s1\"\noutlets = [\"s2\", \"s3\"]\nfraction = 1",
        Place::Unit(1),
        Why::UnknownKey,
    ),
    (
        "kind = \"tee\"\ninlet = \"s1\"\noutlets = [\"s2\", \"s3\"]\nfractions = [1, 2]",
        Place::Unit(1),
        Why::BadValue,
    ),
];

#[test]
fn units_that_break_a_rule(rt: HostRuntime) -> Result<(), Fail> {
    assert_refusals(&rt, rt.alloc(), UNIT, &UNITS)?;
    let second = format!(in rt.alloc(); "version = 2\n{UNIT}")?;
    assert_refusals(&rt, rt.alloc(), &second, &UNITS_OF_VERSION_TWO)
}

// A document whose one key nests arrays so deep.
fn nested(alloc: Global, levels: usize) -> Result<String, Fail> {
    let mut text = String::from_str(alloc, "components = ")?;
    for _ in 0..levels {
        text.push_str("[")?;
    }
    for _ in 0..levels {
        text.push_str("]")?;
    }
    Ok(text)
}

#[test]
fn documents_nest_to_eighty_levels(rt: HostRuntime) -> Result<(), Fail> {
    for (levels, place, why) in [
        (80, Place::Component(1), Why::BadValue),
        (81, Place::Document, Why::NotToml),
    ] {
        let text = nested(rt.alloc(), levels)?;
        assert_eq!(rt;
            refusal(rt.alloc(), text.as_bytes()),
            Some(Refused { place, why })
        );
    }
    Ok(())
}

// A list of names that begin with this letter.
fn push_names(
    alloc: Global,
    text: &mut String,
    key: &str,
    letter: &str,
    count: usize,
) -> Result<(), Fail> {
    text.push_str(&format!(in alloc; "{key} = [")?)?;
    for number in 0..count {
        text.push_str(&format!(in alloc; "\"{letter}{number}\", ")?)?;
    }
    text.push_str("]\n")?;
    Ok(())
}

// A flowsheet of a hundred components, so many streams and so many heats.
fn wide(alloc: Global, streams: usize, heats: usize) -> Result<String, Fail> {
    let mut text = String::new(alloc);
    push_names(alloc, &mut text, "components", "C", 100)?;
    push_names(alloc, &mut text, "streams", "s", streams)?;
    for number in 0..heats {
        text.push_str(&format!(in alloc;
            "[[unit]]\nname = \"U{number}\"\nkind = \"balance\"\nstreams = [\"s0\"]\n"
        )?)?;
    }
    Ok(text)
}

#[test]
fn there_is_room_for_so_many_unknowns(rt: HostRuntime) -> Result<(), Fail> {
    let full = wide(rt.alloc(), 40, 96)?;
    assert_eq!(rt; sizes(rt.alloc(), full.as_bytes()), Some((96, 4_096)));
    for (streams, heats, place) in [(40, 97, Place::Unit(97)), (41, 0, Place::Stream(41))] {
        let why = Why::TooMany;
        let more = wide(rt.alloc(), streams, heats)?;
        assert_eq!(rt;
            refusal(rt.alloc(), more.as_bytes()),
            Some(Refused { place, why })
        );
    }
    Ok(())
}

const READ: [(&[u8], (usize, usize)); 5] = [
    (b"", (0, 0)),
    (b"version = 1\nunit = []", (0, 0)),
    (
        b"components = [\"A\", \"B\"]\nstreams = [\"s1\", \"s2\"]\n",
        (0, 4),
    ),
    (
        b"components = [\"A\"]\nstreams = [\"s1\"]\nunit = [{name = \"U\", kind = \"spec\", stream = \"s1\", component = \"A\"}]",
        (1, 1),
    ),
    (
        b"components = [\"A\"]\nstreams = [\"s1\", \"s2\"]\n[[unit]]\nname = \"R\"\nkind = \"reactor\"\ninlet = \"s1\"\noutlet = \"s2\"\nstoich.A = -9223372036854775808\n",
        (1, 3),
    ),
];

#[test]
fn units_may_be_spelled_in_other_ways(rt: HostRuntime) {
    for (text, wanted) in READ {
        assert_eq!(rt; sizes(rt.alloc(), text), Some(wanted));
    }
}
