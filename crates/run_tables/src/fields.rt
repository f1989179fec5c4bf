//! Runs over the field that the words name, over memory.

use crate::tests::{Case, asked, calm, expect_case, expect_told};
use std::test::Fail;

// A case that is answered by this whole text, with this status.
fn answered<'a>(words: &'a [&'a str], input: &'a [u8], status: u8, text: &'a [u8]) -> Case<'a> {
    asked(words, calm(input, status, text, text, b""))
}

#[test]
fn values_over_the_larger_field(rt: HostRuntime) -> Result<(), Fail> {
    let layer: &[&str] = &["mixed", "layer", "matrix", "2147483647"];
    let plan: &[&str] = &["mixed", "plan", "matrix", "2147483647"];
    let cases = [
        answered(
            layer,
            b"eq a x=1/3\n",
            0,
            b"columns 1\nc1 x\nq1 a 1=1431655765\n",
        ),
        answered(
            layer,
            b"eq a x=-1\n",
            0,
            b"columns 1\nc1 x\nq1 a 1=2147483646\n",
        ),
        answered(
            layer,
            b"eq a x=0.5\n",
            0,
            b"columns 1\nc1 x\nq1 a 1=1073741824\n",
        ),
        asked(
            layer,
            calm(
                b"eq a x=2147483647\n",
                3,
                b"",
                b"",
                b"mixed: line 1: vanishes in the field\n",
            ),
        ),
        answered(
            plan,
            b"eq a x=65521\n",
            0,
            b"step 1 block 1\nfor x\nby 1675614749*a\nuses\n",
        ),
    ];
    for case in cases {
        expect_case(&rt, rt.alloc(), &case)?;
    }
    Ok(())
}

// 65522 is 1 over the smaller field alone.
#[test]
fn a_rank_over_each_field(rt: HostRuntime) -> Result<(), Fail> {
    let input = b"eq a x=1 y=1\neq b x=1 y=65522\n";
    let cancels =
        b"equations 2 unknowns 2 rank 1\ntoo many 1\nsurplus a\nsurplus b\ntoo few 1\nundetermined x\nundetermined y\n";
    let regular = b"equations 2 unknowns 2 rank 2\ntoo many 0\ntoo few 0\n";
    let cases = [
        answered(&["mixed", "report", "matrix"], input, 1, cancels),
        answered(&["mixed", "report", "matrix", "65521"], input, 1, cancels),
        answered(
            &["mixed", "report", "matrix", "2147483647"],
            input,
            0,
            regular,
        ),
    ];
    for case in cases {
        expect_case(&rt, rt.alloc(), &case)?;
    }
    Ok(())
}

#[test]
fn certificates_that_state_their_field(rt: HostRuntime) -> Result<(), Fail> {
    let large =
        b"mixed-certificate 2\nfield 2147483647\nkind matrix\nlength 13\neq a x=65521\n\nshape 1 1 1 0 1\nrank 1\n\
          base 1=1\nmatch\nS 1: 1=1675614749\nU 1: 1=65521\nP 1: 1=1\nfirst |\nblock 1: 1 | q1 |\nlast |\nend\n";
    let small =
        b"mixed-certificate 2\nfield 65521\nkind matrix\nlength 9\neq a x=1\n\nshape 1 1 1 0 1\nrank 1\n\
          base 1=1\nmatch\nS 1: 1=1\nU 1: 1=1\nP 1: 1=1\nfirst |\nblock 1: 1 | q1 |\nlast |\nend\n";
    let circuit =
        b"mixed-certificate 2\nfield 2147483647\nkind netlist\nlength 0\n\nshape 0 0 0 0 0\nrank 0\nbase\nmatch\nfirst |\nlast |\nend\n";
    let cases = [
        answered(
            &["mixed", "analyse", "matrix", "2147483647"],
            b"eq a x=65521\n",
            0,
            large,
        ),
        answered(
            &["mixed", "analyse", "matrix", "65521"],
            b"eq a x=1\n",
            0,
            small,
        ),
        answered(
            &["mixed", "analyse", "netlist", "2147483647"],
            b"",
            0,
            circuit,
        ),
    ];
    for case in cases {
        expect_case(&rt, rt.alloc(), &case)?;
    }
    Ok(())
}

#[test]
fn made_models_over_each_field(rt: HostRuntime) -> Result<(), Fail> {
    let two = b"make 2\nequations 2 unknowns 2 split 1\nrank 2\nfirst 0 0\nblocks 1\nlast 0 0\n";
    for field in ["65521", "2147483647"] {
        let words = ["mixed", "make", "2", field];
        expect_case(&rt, rt.alloc(), &answered(&words, b"eq a\n", 0, two))?;
    }
    Ok(())
}

#[test]
fn words_that_name_no_field(rt: HostRuntime) -> Result<(), Fail> {
    let alloc = rt.alloc();
    let cases: [&[&str]; 5] = [
        &["mixed", "analyse", "matrix", "7"],
        &["mixed", "layer", "netlist", "065521"],
        &["mixed", "report", "flowsheet", "2147483648"],
        &["mixed", "plan", "matrix", "more"],
        &["mixed", "make", "2", "matrix"],
    ];
    for words in cases {
        expect_told(&rt, alloc, words, b"mixed: unknown word\n")?;
    }
    expect_told(&rt, alloc, &["mixed", "check", "65521"], b"'65521'")?;
    expect_told(
        &rt,
        alloc,
        &["mixed", "layer", "matrix", "65521", "more"],
        b"'more'",
    )
}
