//! Plans to solve models, as runs over memory.

use crate::tests::{Case, SEPARATOR, asked, calm, expect_case};
use std::test::Fail;

// A case that is answered by this whole plan.
fn planned<'a>(kind: &'a [&'a str], input: &'a [u8], text: &'a [u8]) -> Case<'a> {
    asked(kind, calm(input, 0, text, text, b""))
}

const LIST: &[&str] = &["mixed", "plan", "matrix"];

#[test]
fn plans_of_lists(rt: HostRuntime) -> Result<(), Fail> {
    let cases = [
        planned(
            LIST,
            b"eq a x=? y=?\neq b x=?\n",
            b"step 1 block 2\nfor x\nby ?b\nuses\nstep 2 block 1\nfor y\nby ?a\nuses x\n",
        ),
        planned(
            LIST,
            b"eq a x=1\n",
            b"step 1 block 1\nfor x\nby 1*a\nuses\n",
        ),
        planned(LIST, b"unknown x\n", b"step 1 first\nfor x\nuses\n"),
        planned(LIST, b"", b""),
        asked(
            LIST,
            calm(b"eq a x\n", 3, b"", b"", b"mixed: line 1: bad shape\n"),
        ),
    ];
    for case in cases {
        expect_case(&rt, rt.alloc(), &case)?;
    }
    Ok(())
}

#[test]
fn the_plan_of_a_separator(rt: HostRuntime) -> Result<(), Fail> {
    let words = &["mixed", "plan", "flowsheet"];
    let text =
        b"step 1 block 3\nfor f.s1.A\nby 1*spec.F\nuses\nstep 2 block 2\nfor f.s2.A\nby ?split.S.A\nuses f.s1.A\nstep 3 block 1\nfor f.s3.A\nby 1*spec.F 65520*bal.S.A\nuses f.s2.A\n";
    expect_case(&rt, rt.alloc(), &planned(words, SEPARATOR, text))
}
