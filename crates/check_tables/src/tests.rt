//! Certificates with altered lines, and what a run of `mixed check` says of each.

use crate::running::{expect_accepted, expect_refused};
use std::alloc::Global;
use std::process::Abort;
use std::test::Fail;

/// A right certificate: nothing.
const EMPTY: &str =
    "mixed-certificate 1\nkind matrix\nlength 0\n\nshape 0 0 0 0 0\nrank 0\nbase\nmatch\nfirst |\nlast |\nend\n";

/// A right certificate: one constant.
const CONSTANT: &str =
    "mixed-certificate 1\nkind matrix\nlength 9\neq a x=1\n\nshape 1 1 1 0 1\nrank 1\nbase 1=1\nmatch\nS 1: 1=1\nU 1: 1=1\nP 1: 1=1\nfirst |\nblock 1: 1 | q1 |\nlast |\nend\n";

/// A right certificate: two symbols that have nothing to do with each other.
const LOOSE: &str =
    "mixed-certificate 1\nkind matrix\nlength 18\neq a x=?\neq b y=?\n\nshape 2 2 0 2 2\nrank 2\nbase\nmatch 1=1 2=2\nT 1: 1\nT 2: 2\nfirst |\nblock 1: 1 | t1 |\nblock 2: 2 | t2 |\nlast |\nend\n";

/// A right certificate: three symbols in a triangle.
const TRIANGLE: &str =
    "mixed-certificate 1\nkind matrix\nlength 22\neq a x=? y=?\neq b x=?\n\nshape 2 2 0 2 2\nrank 2\nbase\nmatch 1=2 2=1\nT 1: 1 2\nT 2: 1\nfirst |\nblock 1: 2 | t1 |\nblock 2: 1 | t2 | 1\nlast |\nend\n";

/// A right certificate: two equations, of which the second has a number and a symbol.
const MIXED: &str =
    "mixed-certificate 1\nkind matrix\nlength 26\neq a x=1 y=1\neq b x=1 y=?\n\nshape 2 2 2 1 3\nrank 2\nbase 1=1 2=2\nmatch 1=3\nS 1: 2=1\nS 2: 1=1 2=65520\nU 1: 1=1 2=1\nU 2: 1=1\nP 1: 1=1 3=1\nP 2: 2=1 3=65520\nT 1: 2 3\nfirst |\nblock 1: 1 | q1 |\nblock 2: 2 3 | q2 t1 | 1\nlast |\nend\n";

/// A right certificate of version 2, over the larger field.
const LARGE: &str =
    "mixed-certificate 2\nfield 2147483647\nkind matrix\nlength 13\neq a x=65521\n\nshape 1 1 1 0 1\nrank 1\n\
     base 1=1\nmatch\nS 1: 1=1675614749\nU 1: 1=65521\nP 1: 1=1\nfirst |\nblock 1: 1 | q1 |\nlast |\nend\n";

// The text with other lines in the place of some.
fn altered(alloc: Global, text: &str, lines: &[(&str, &str)]) -> Result<String, Fail> {
    let mut now = String::from_str(alloc, text)?;
    for (old, new) in lines {
        let (before, after) = now.split_once(*old).ok_or("the line is there")?;
        now = format!(in alloc; "{before}{new}{after}")?;
    }
    Ok(now)
}

// That the certificate with these lines breaks this rule first.
fn expect_broken(
    rt: &impl Abort,
    alloc: Global,
    text: &str,
    rule: u32,
    lines: &[(&str, &str)],
) -> Result<(), Fail> {
    let now = altered(alloc, text, lines)?;
    let notes = format!(in alloc; "mixed: rejected by rule {rule}\n")?;
    expect_refused(rt, alloc, now.as_bytes(), 7, notes.as_bytes())
}

// That no certificate has the text with these lines, and that this line is the first that is refused.
fn expect_unread(
    rt: &impl Abort,
    alloc: Global,
    text: &str,
    line: u32,
    lines: &[(&str, &str)],
) -> Result<(), Fail> {
    let now = altered(alloc, text, lines)?;
    let notes = format!(in alloc; "mixed: line {line}: not a certificate line\n")?;
    expect_refused(rt, alloc, now.as_bytes(), 3, notes.as_bytes())
}

#[test]
fn right_certificates_are_taken(rt: HostRuntime) -> Result<(), Fail> {
    for text in [EMPTY, CONSTANT, LOOSE, TRIANGLE, MIXED, LARGE] {
        expect_accepted(&rt, rt.alloc(), text.as_bytes())?;
    }
    Ok(())
}

// Another base and another transform than those that the builder takes.
#[test]
fn a_right_certificate_of_another_program_is_taken(rt: HostRuntime) -> Result<(), Fail> {
    let lines: &[(&str, &str)] = &[
        ("base 1=1 2=2", "base 1=1 2=3"),
        ("match 1=3", "match 1=2"),
        ("S 1: 2=1", "S 1: 1=1"),
        ("S 2: 1=1 2=65520", "S 2: 1=65520 2=1"),
        ("U 1: 1=1 2=1", "U 1: 1=1"),
        ("U 2: 1=1", "U 2: 1=1 2=1"),
        ("P 1: 1=1 3=1", "P 1: 1=1 2=1"),
        ("P 2: 2=1 3=65520", "P 2: 2=65520 3=1"),
    ];
    let text = altered(rt.alloc(), MIXED, lines)?;
    expect_accepted(&rt, rt.alloc(), text.as_bytes())
}

#[test]
fn rules_of_sizes_and_matrices_are_broken_first(rt: HostRuntime) -> Result<(), Fail> {
    let alloc = rt.alloc();
    expect_broken(&rt, alloc, LOOSE, 1, &[("eq b", "eq a")])?;
    expect_broken(
        &rt,
        alloc,
        MIXED,
        2,
        &[("shape 2 2 2 1 3", "shape 2 2 2 1 4")],
    )?;
    expect_broken(&rt, alloc, LOOSE, 2, &[("y=?", "y=1")])?;
    expect_broken(&rt, alloc, MIXED, 3, &[("U 2: 1=1", "U 2: 1=2")])?;
    expect_broken(
        &rt,
        alloc,
        MIXED,
        3,
        &[("U 2: 1=1", "U 2: 1=2"), ("rank 2", "rank 1")],
    )?;
    expect_broken(&rt, alloc, CONSTANT, 3, &[("S 1: 1=1", "S 1: 1=2")])?;
    expect_broken(&rt, alloc, MIXED, 4, &[("P 1: 1=1 3=1", "P 1: 1=1 3=2")])?;
    expect_broken(&rt, alloc, MIXED, 4, &[("T 1: 2 3", "T 1: 2")])?;
    expect_broken(
        &rt,
        alloc,
        CONSTANT,
        4,
        &[("S 1: 1=1", "S 1: 1=2"), ("U 1: 1=1", "U 1: 1=32761")],
    )?;
    expect_broken(&rt, alloc, MIXED, 5, &[("base 1=1 2=2", "base 1=2 2=1")])?;
    expect_broken(
        &rt,
        alloc,
        CONSTANT,
        5,
        &[
            ("S 1: 1=1", "S 1: 1=2"),
            ("U 1: 1=1", "U 1: 1=32761"),
            ("P 1: 1=1", "P 1: 1=2"),
        ],
    )
}

#[test]
fn rules_of_pairs_and_rows_are_broken_first(rt: HostRuntime) -> Result<(), Fail> {
    let alloc = rt.alloc();
    expect_broken(&rt, alloc, MIXED, 6, &[("match 1=3", "match 1=1")])?;
    expect_broken(&rt, alloc, MIXED, 6, &[("match 1=3", "match 1=2")])?;
    expect_broken(&rt, alloc, MIXED, 7, &[("match 1=3", "match")])?;
    expect_broken(&rt, alloc, MIXED, 7, &[("rank 2", "rank 1")])?;
    expect_broken(&rt, alloc, LOOSE, 7, &[("rank 2", "rank 1")])?;
    expect_broken(&rt, alloc, MIXED, 8, &[("block 2: 2 3 |", "block 2: 2 |")])?;
    expect_broken(
        &rt,
        alloc,
        MIXED,
        9,
        &[("1 | q1 |", "1 | q1 t1 |"), ("3 | q2 t1 | 1", "3 | q2 | 1")],
    )
}

#[test]
fn rules_of_parts_are_broken_first(rt: HostRuntime) -> Result<(), Fail> {
    let alloc = rt.alloc();
    let all_last: &[(&str, &str)] = &[
        ("block 1: 1 | t1 |\n", ""),
        ("block 2: 2 | t2 |\n", ""),
        ("last |", "last 1 2 | t1 t2"),
    ];
    expect_broken(&rt, alloc, MIXED, 10, &[("q2 t1 | 1", "q2 t1 |")])?;
    expect_broken(
        &rt,
        alloc,
        TRIANGLE,
        10,
        &[("block 2: 1 | t2 | 1", "block 2: 1 | t2 |")],
    )?;
    expect_broken(
        &rt,
        alloc,
        MIXED,
        11,
        &[
            ("block 1: 1 | q1 |\n", ""),
            ("block 2: 2 3 | q2 t1 | 1", "block 1: 1 2 3 | q1 q2 t1 |"),
        ],
    )?;
    expect_broken(
        &rt,
        alloc,
        LOOSE,
        11,
        &[
            ("block 1: 1 | t1 |\n", ""),
            ("block 2: 2 | t2 |", "block 1: 1 2 | t1 t2 |"),
        ],
    )?;
    expect_broken(&rt, alloc, LOOSE, 11, all_last)?;
    expect_broken(
        &rt,
        alloc,
        LOOSE,
        12,
        &[("block 2: 2 | t2 |", "block 2: 2 | t2 | 1")],
    )?;
    expect_broken(
        &rt,
        alloc,
        LOOSE,
        12,
        &[
            ("1: 1 | t1 |", "1: 2 | t2 |"),
            ("2: 2 | t2 |", "2: 1 | t1 |"),
        ],
    )
}

#[test]
fn lines_that_are_refused(rt: HostRuntime) -> Result<(), Fail> {
    let alloc = rt.alloc();
    expect_unread(&rt, alloc, LOOSE, 5, &[("length 18", "length 17")])?;
    expect_unread(&rt, alloc, LOOSE, 15, &[("\nend\n", "\n")])?;
    expect_unread(
        &rt,
        alloc,
        EMPTY,
        9,
        &[("shape 0 0 0 0 0", "shape 4096 4096 4096 4096 8192")],
    )?;
    expect_unread(&rt, alloc, CONSTANT, 4, &[("length 9", "length 8388608")])?;
    // a certificate of its own behind the first, and nothing at all
    expect_unread(&rt, alloc, CONSTANT, 16, &[("end\n", "end\nend\n")])?;
    expect_refused(
        &rt,
        alloc,
        b"",
        3,
        b"mixed: line 1: not a certificate line\n",
    )
}

// A certificate of version 2 is read and tried over the field that it states.
#[test]
fn certificates_that_state_a_field(rt: HostRuntime) -> Result<(), Fail> {
    let alloc = rt.alloc();
    let small: &[(&str, &str)] = &[(
        "mixed-certificate 1\n",
        "mixed-certificate 2\nfield 65521\n",
    )];
    let large: &[(&str, &str)] = &[(
        "mixed-certificate 1\n",
        "mixed-certificate 2\nfield 2147483647\n",
    )];
    for text in [EMPTY, CONSTANT, LOOSE, TRIANGLE, MIXED] {
        expect_accepted(&rt, alloc, altered(alloc, text, small)?.as_bytes())?;
    }
    for text in [EMPTY, CONSTANT, LOOSE, TRIANGLE] {
        expect_accepted(&rt, alloc, altered(alloc, text, large)?.as_bytes())?;
    }
    // 65520 is -1 over the smaller field alone
    expect_broken(&rt, alloc, MIXED, 3, large)?;
    expect_unread(&rt, alloc, LARGE, 10, &[("2147483647", "65521")])?;
    expect_unread(&rt, alloc, LARGE, 2, &[("2147483647", "7")])?;
    expect_unread(&rt, alloc, LARGE, 2, &[("field 2147483647\n", "")])?;
    expect_unread(&rt, alloc, LARGE, 1, &[("certificate 2", "certificate 3")])?;
    // version 1 states no field
    expect_unread(&rt, alloc, LARGE, 2, &[("certificate 2", "certificate 1")])?;
    expect_broken(&rt, alloc, LARGE, 1, &[("65521\n\n", "6552?\n\n")])
}

#[test]
fn kinds_of_certificates(rt: HostRuntime) -> Result<(), Fail> {
    let alloc = rt.alloc();
    let netlist: &[(&str, &str)] = &[("kind matrix", "kind netlist")];
    let flowsheet: &[(&str, &str)] = &[("kind matrix", "kind flowsheet")];
    // an empty input is one of each kind, and an equation list is no netlist and no flowsheet
    for kind in [netlist, flowsheet] {
        let empty = altered(alloc, EMPTY, kind)?;
        expect_accepted(&rt, alloc, empty.as_bytes())?;
        expect_broken(&rt, alloc, CONSTANT, 1, kind)?;
    }
    expect_unread(&rt, alloc, CONSTANT, 2, &[("kind matrix", "kind matrix ")])
}
