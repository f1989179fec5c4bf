//! Inputs that are cut short: each beginning of an equation list, of a flowsheet and of a netlist.

use crate::running::{expect_left, run_over};
use crate::tasks::TRIANGLE;
use memory_runs::Streams;
use std::alloc::Global;
use std::process::Abort;
use std::test::Fail;

/// What is noted of the beginning of the triangle with so many bytes; nothing where it is a list of equations.
const NOTED: [(usize, &[u8]); 23] = [
    (0, b""),
    (1, b"mixed: line 1: bad word\n"),
    (2, b"mixed: line 1: bad shape\n"),
    (3, b"mixed: line 1: bad shape\n"),
    (4, b""),
    (5, b""),
    (6, b"mixed: line 1: bad shape\n"),
    (7, b"mixed: line 1: bad number\n"),
    (8, b""),
    (9, b""),
    (10, b"mixed: line 1: bad shape\n"),
    (11, b"mixed: line 1: bad number\n"),
    (12, b""),
    (13, b""),
    (14, b"mixed: line 2: bad word\n"),
    (15, b"mixed: line 2: bad shape\n"),
    (16, b"mixed: line 2: bad shape\n"),
    (17, b""),
    (18, b""),
    (19, b"mixed: line 2: bad shape\n"),
    (20, b"mixed: line 2: bad number\n"),
    (21, b""),
    (22, b""),
];

// The first bytes of a text.
fn first<'a>(text: &'a [u8], length: usize) -> Result<&'a [u8], Fail> {
    Ok(text.get(..length).ok_or("the text is so long")?)
}

#[test]
fn beginnings_of_a_triangle(rt: HostRuntime) -> Result<(), Fail> {
    let words = &["mixed", "analyse", "matrix"];
    for (length, noted) in NOTED {
        let left = run_over(rt.alloc(), &Streams::calm(words, first(TRIANGLE, length)?))?;
        if noted.is_empty() {
            assert!(rt; left.memory.out.bytes().ends_with(b"\nend\n"));
            expect_left(&rt, &left, 0, left.memory.out.bytes(), b"")?;
        } else {
            expect_left(&rt, &left, 3, b"", noted)?;
        }
    }
    Ok(())
}

/// A feed that a separator splits.
const SEPARATOR: &[u8] =
    b"components = [\"A\"]\nstreams = [\"s1\", \"s2\", \"s3\"]\n[[unit]]\nname = \"F\"\nkind = \"spec\"\nstream = \"s1\"\ncomponent = \"A\"\n[[unit]]\nname = \"S\"\nkind = \"separator\"\ninlet = \"s1\"\ntop = \"s2\"\nbottom = \"s3\"\n";

/// Each of the four controlled sources, behind the source that controls two of them.
const CONTROLLED: &[u8] = b"V1 a 0 5\nE1 b 0 a 0 2\nF1 0 c V1 3\nG1 0 d a b 1m\nH1 e d V1 10\n";

// That each beginning of an input is answered by a certificate or refused by one line, and the whole by a certificate.
fn expect_beginnings(
    rt: &impl Abort,
    alloc: Global,
    words: &[&str],
    input: &[u8],
) -> Result<(), Fail> {
    for length in 0..=input.len() {
        let left = run_over(alloc, &Streams::calm(words, first(input, length)?))?;
        if left.status == 0 {
            assert!(rt; left.memory.out.bytes().ends_with(b"\nend\n"));
            assert_eq!(rt; left.memory.notes.bytes(), b"".as_slice());
        } else {
            assert!(rt; length < input.len());
            assert!(rt; left.memory.notes.bytes().starts_with(b"mixed: "));
            expect_left(rt, &left, 3, b"", left.memory.notes.bytes())?;
        }
    }
    Ok(())
}

#[test]
fn beginnings_of_a_flowsheet(rt: HostRuntime) -> Result<(), Fail> {
    let words = &["mixed", "analyse", "flowsheet"];
    expect_beginnings(&rt, rt.alloc(), words, SEPARATOR)
}

#[test]
fn beginnings_of_a_netlist(rt: HostRuntime) -> Result<(), Fail> {
    let words = &["mixed", "analyse", "netlist"];
    expect_beginnings(&rt, rt.alloc(), words, CONTROLLED)
}
