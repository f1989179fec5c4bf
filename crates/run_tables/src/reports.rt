//! Reports on models, as runs over memory.

use crate::tests::{Case, SEPARATOR, asked, calm, expect_case};
use std::test::Fail;

// The words that ask for the report on an input of this kind.
const LIST: &[&str] = &["mixed", "report", "matrix"];

const CIRCUIT: &[&str] = &["mixed", "report", "netlist"];

// A case that is answered by this whole text, with this status.
fn told<'a>(words: &'a [&'a str], input: &'a [u8], status: u8, text: &'a [u8]) -> Case<'a> {
    asked(words, calm(input, status, text, text, b""))
}

#[test]
fn reports_on_lists(rt: HostRuntime) -> Result<(), Fail> {
    let tails = b"equations 2 unknowns 1 rank 1\ntoo many 1\nsurplus a\nsurplus b\ntoo few 0\n";
    let cases = [
        told(
            LIST,
            b"eq a x=1 y=1\neq b x=1 y=1\n",
            1,
            b"equations 2 unknowns 2 rank 1\ntoo many 1\nsurplus a\nsurplus b\ntoo few 1\nundetermined x\nundetermined y\n",
        ),
        told(
            LIST,
            b"unknown x\n",
            1,
            b"equations 0 unknowns 1 rank 0\ntoo many 0\ntoo few 1\nundetermined x\n",
        ),
        told(
            LIST,
            b"eq a\n",
            1,
            b"equations 1 unknowns 0 rank 0\ntoo many 1\nsurplus a\ntoo few 0\n",
        ),
        // two tails: symbols in the one, numbers in the other
        told(LIST, b"eq a x=?\neq b x=?\n", 1, tails),
        told(LIST, b"eq a x=1\neq b x=1\n", 1, tails),
        // an equation with a number and a symbol is one equation
        told(LIST, b"eq a x=1+?\neq b x=1\n", 1, tails),
        told(
            LIST,
            b"",
            0,
            b"equations 0 unknowns 0 rank 0\ntoo many 0\ntoo few 0\n",
        ),
        asked(
            LIST,
            calm(b"eq a x\n", 3, b"", b"", b"mixed: line 1: bad shape\n"),
        ),
    ];
    for case in cases {
        expect_case(&rt, rt.alloc(), &case)?;
    }
    Ok(())
}

#[test]
fn reports_on_circuits_and_plants(rt: HostRuntime) -> Result<(), Fail> {
    let cases = [
        told(
            CIRCUIT,
            b"V1 a 0\nV2 a 0\n",
            1,
            b"equations 5 unknowns 5 rank 4\ntoo many 1\nsurplus kvl.V1\nsurplus law.V1\nsurplus kvl.V2\nsurplus law.V2\ntoo few 1\nundetermined i.V1\nundetermined i.V2\n",
        ),
        told(
            CIRCUIT,
            b"I1 0 a\nI2 a 0\n",
            1,
            b"equations 5 unknowns 5 rank 4\ntoo many 1\nsurplus kcl.a\nsurplus law.I1\nsurplus law.I2\ntoo few 1\nundetermined u.a\nundetermined v.I1\nundetermined v.I2\n",
        ),
        told(
            CIRCUIT,
            b"V1 a 0 5\nR1 a 0 1k\n",
            0,
            b"equations 5 unknowns 5 rank 5\ntoo many 0\ntoo few 0\n",
        ),
        told(
            CIRCUIT,
            b"V1 in 0\nR1 in m\nR2 m out\n.opamp U1 0 m out\n",
            0,
            b"equations 10 unknowns 10 rank 10\ntoo many 0\ntoo few 0\n",
        ),
        told(
            &["mixed", "report", "flowsheet"],
            SEPARATOR,
            0,
            b"equations 3 unknowns 3 rank 3\ntoo many 0\ntoo few 0\n",
        ),
    ];
    for case in cases {
        expect_case(&rt, rt.alloc(), &case)?;
    }
    Ok(())
}

#[test]
fn reports_that_are_cut_short(rt: HostRuntime) -> Result<(), Fail> {
    let text = b"equations 0 unkno";
    let case = Case {
        most: 17,
        out_fails: &[2],
        ..told(LIST, b"unknown x\n", 5, text)
    };
    let case = Case {
        notes: b"mixed: write fault\n",
        ..case
    };
    expect_case(&rt, rt.alloc(), &case)
}
