//! Studies of models, as runs over memory: values that reach the rank, solving, repairs, conflict sets.

use crate::tests::{Case, asked, calm, expect_case};
use std::test::Fail;

// The words that ask for a study of an equation list.
const VALUES: &[&str] = &["mixed", "values", "matrix"];

const SOLVE: &[&str] = &["mixed", "solve", "matrix"];

const REPAIR: &[&str] = &["mixed", "repair", "matrix"];

const CONFLICT: &[&str] = &["mixed", "conflict", "matrix"];

// And of a circuit.
const CIRCUIT_VALUES: &[&str] = &["mixed", "values", "netlist"];

const CIRCUIT_SOLVE: &[&str] = &["mixed", "solve", "netlist"];

const CIRCUIT_REPAIR: &[&str] = &["mixed", "repair", "netlist"];

const CIRCUIT_CONFLICT: &[&str] = &["mixed", "conflict", "netlist"];

// A case that is answered by this whole text, with this status.
fn told<'a>(words: &'a [&'a str], input: &'a [u8], status: u8, text: &'a [u8]) -> Case<'a> {
    asked(words, calm(input, status, text, text, b""))
}

// A case that is refused.
fn refused<'a>(words: &'a [&'a str], input: &'a [u8], note: &'a [u8]) -> Case<'a> {
    asked(words, calm(input, 3, b"", b"", note))
}

#[test]
fn values_that_reach_the_rank(rt: HostRuntime) -> Result<(), Fail> {
    let cases = [
        told(
            VALUES,
            b"eq a x=? y=?\neq b x=? y=?\n",
            0,
            b"rank 2\nvalue a x 1\nvalue a y 1\nvalue b x 1\nvalue b y 2\n",
        ),
        told(VALUES, b"eq a x=-1+?\n", 0, b"rank 1\nvalue a x 2\n"),
        told(VALUES, b"eq a x=1 y=1\neq b x=1 y=1\n", 0, b"rank 1\n"),
        told(VALUES, b"", 0, b"rank 0\n"),
        told(
            CIRCUIT_VALUES,
            b"V1 a 0 5\nR1 a 0\n",
            0,
            b"rank 5\nvalue law.R1 v.R1 1\nvalue law.R1 i.R1 1\n",
        ),
        refused(VALUES, b"eq a x\n", b"mixed: line 1: bad shape\n"),
    ];
    for case in cases {
        expect_case(&rt, rt.alloc(), &case)?;
    }
    Ok(())
}

#[test]
fn solutions_by_blocks(rt: HostRuntime) -> Result<(), Fail> {
    let triangle =
        b"value a x 2\nvalue a y 3\nvalue b x 5\nright a 7\nright b 10\nmodel\neq a x=? y=?\neq b x=?\n";
    let cases = [
        told(SOLVE, triangle, 0, b"solution\nunknown x 2\nunknown y 1\n"),
        told(
            SOLVE,
            b"value a x 2\nvalue a y 3\nvalue b x 0\nmodel\neq a x=? y=?\neq b x=?\n",
            1,
            b"singular block 2\nfor x\n",
        ),
        told(
            SOLVE,
            b"value b y 2\nright a 3\nright b 4\nmodel\neq a x=1 y=1\neq b x=1 y=?\n",
            0,
            b"solution\nunknown x 2\nunknown y 1\n",
        ),
        told(
            SOLVE,
            b"value b y 1\nright a 3\nright b 4\nmodel\neq a x=1 y=1\neq b x=1 y=?\n",
            1,
            b"singular block 2\nfor y *b\n",
        ),
        told(
            SOLVE,
            b"model\neq a x=1 y=1\neq b x=1 y=1\n",
            1,
            b"equations 2 unknowns 2 rank 1\n",
        ),
        told(
            CIRCUIT_SOLVE,
            b"value law.R1 v.R1 1\nvalue law.R1 i.R1 -3\nright law.V1 6\nmodel\nV1 a 0\nR1 a 0\n",
            0,
            b"solution\nunknown u.a 6\nunknown v.V1 6\nunknown i.V1 65519\nunknown v.R1 6\nunknown i.R1 2\n",
        ),
    ];
    for case in cases {
        expect_case(&rt, rt.alloc(), &case)?;
    }
    Ok(())
}

#[test]
fn problems_that_are_refused(rt: HostRuntime) -> Result<(), Fail> {
    let cases = [
        refused(
            SOLVE,
            b"model\neq a x=? y=?\neq b x=?\n",
            b"mixed: document: missing key\n",
        ),
        refused(SOLVE, b"model\neq\n", b"mixed: line 2: bad shape\n"),
        refused(SOLVE, b"eq a x=1\n", b"mixed: line 1: bad word\n"),
        refused(SOLVE, b"", b"mixed: document: bad shape\n"),
        refused(
            SOLVE,
            b"value a y 1\nmodel\neq a x=?\n",
            b"mixed: line 1: undeclared\n",
        ),
    ];
    for case in cases {
        expect_case(&rt, rt.alloc(), &case)?;
    }
    Ok(())
}

#[test]
fn conflict_sets(rt: HostRuntime) -> Result<(), Fail> {
    let cases = [
        told(
            CONFLICT,
            b"eq a x=1\neq b x=2\neq c x=3\n",
            0,
            b"conflicts 3\nconflict a: a b\nconflict b: a b\nconflict c: a c\n",
        ),
        told(CONFLICT, b"eq a\n", 0, b"conflicts 1\nconflict a: a\n"),
        told(CONFLICT, b"eq a x=? y=?\neq b x=?\n", 0, b"conflicts 0\n"),
        told(
            CONFLICT,
            b"eq a x=1 y=1\neq b x=1 y=1\n",
            0,
            b"conflicts 2\nconflict a: a b\nconflict b: a b\n",
        ),
        told(
            CIRCUIT_CONFLICT,
            b"V1 a 0\nV2 a 0\n",
            0,
            b"conflicts 4\nconflict kvl.V1: kvl.V1 law.V1 kvl.V2 law.V2\n\
                conflict law.V1: kvl.V1 law.V1 kvl.V2 law.V2\nconflict kvl.V2: kvl.V1 law.V1 kvl.V2 law.V2\n\
                conflict law.V2: kvl.V1 law.V1 kvl.V2 law.V2\n",
        ),
        refused(CONFLICT, b"eq a x\n", b"mixed: line 1: bad shape\n"),
    ];
    for case in cases {
        expect_case(&rt, rt.alloc(), &case)?;
    }
    Ok(())
}

// A case that is answered by a text with this beginning, this piece and this end.
fn mended<'a>(
    words: &'a [&'a str],
    input: &'a [u8],
    begins: &'a [u8],
    holds: &'a [u8],
    ends: &'a [u8],
) -> Case<'a> {
    Case {
        holds,
        ..asked(words, calm(input, 0, begins, ends, b""))
    }
}

#[test]
fn cheapest_repairs(rt: HostRuntime) -> Result<(), Fail> {
    let pair = b"cost a 3\ncost b 2\nmodel\neq a x=1 y=1\neq b x=1 y=1\n";
    let begins = b"repair 2\ndrop b 2\nlevel 3 rank 1\nshape 1 2 1 0 2\nrank 1\nbase ";
    let loop_of_sources = b"cost law.V2 5\nmodel\nV1 a 0\nV2 a 0\n";
    let cases = [
        mended(
            REPAIR,
            pair,
            begins,
            b"\nend\nlevel 2 rank 1\nshape 2 2 2 0 2\nrank 1\nbase ",
            b"\nend\n",
        ),
        mended(
            REPAIR,
            pair,
            begins,
            b"\nend\nkept 1\nshape 1 2 1 0 2\nrank 1\nbase ",
            b"\nend\n",
        ),
        mended(
            CIRCUIT_REPAIR,
            loop_of_sources,
            b"repair 1\ndrop kvl.V2 1\nlevel 5 rank 1\nshape 1 5 1 0 5\n",
            b"\nend\nlevel 1 rank 4\nshape 5 5 5 0 5\nrank 4\n",
            b"\nend\n",
        ),
        mended(
            CIRCUIT_REPAIR,
            loop_of_sources,
            b"repair 1\ndrop kvl.V2 1\nlevel 5 rank 1\n",
            b"\nend\nkept 4\nshape 4 5 4 0 5\nrank 4\n",
            b"\nend\n",
        ),
        // the equation that costs less is dropped, not the last one
        mended(
            REPAIR,
            b"cost a 0\nmodel\neq a x=1\neq b x=2\n",
            b"repair 0\ndrop a 0\nlevel 1 rank 1\n",
            b"\nend\nlevel 0 rank 1\n",
            b"\nend\n",
        ),
    ];
    for case in cases {
        expect_case(&rt, rt.alloc(), &case)?;
    }
    Ok(())
}

#[test]
fn models_that_need_no_repair(rt: HostRuntime) -> Result<(), Fail> {
    let cases = [
        told(
            REPAIR,
            b"model\neq a x=? y=?\neq b x=?\n",
            1,
            b"repair 0\nlevel 1 rank 2\nshape 2 2 0 2 2\nrank 2\nbase\nmatch 1=2 2=1\nT 1: 1 2\nT 2: 1\n\
                first |\nblock 1: 2 | t1 |\nblock 2: 1 | t2 | 1\nlast |\nend\nkept 2\nshape 2 2 0 2 2\nrank 2\n\
                base\nmatch 1=2 2=1\nT 1: 1 2\nT 2: 1\nfirst |\nblock 1: 2 | t1 |\nblock 2: 1 | t2 | 1\nlast |\n\
                end\n",
        ),
        told(
            REPAIR,
            b"model\n",
            1,
            b"repair 0\nkept 0\nshape 0 0 0 0 0\nrank 0\nbase\nmatch\nfirst |\nlast |\nend\n",
        ),
    ];
    for case in cases {
        expect_case(&rt, rt.alloc(), &case)?;
    }
    Ok(())
}

#[test]
fn costs_that_are_refused(rt: HostRuntime) -> Result<(), Fail> {
    let cases = [
        refused(
            REPAIR,
            b"cost a 3\ncost a 3\nmodel\neq a x=1\n",
            b"mixed: line 2: twice\n",
        ),
        refused(
            REPAIR,
            b"cost b 3\nmodel\neq a x=1\n",
            b"mixed: line 1: undeclared\n",
        ),
        refused(
            REPAIR,
            b"cost a 1000000000\nmodel\neq a x=1\n",
            b"mixed: line 1: bad number\n",
        ),
        refused(
            REPAIR,
            b"value a x 1\nmodel\neq a x=?\n",
            b"mixed: line 1: bad word\n",
        ),
        refused(REPAIR, b"model\neq\n", b"mixed: line 2: bad shape\n"),
        refused(REPAIR, b"", b"mixed: document: bad shape\n"),
    ];
    for case in cases {
        expect_case(&rt, rt.alloc(), &case)?;
    }
    Ok(())
}

// Of 17 equations with a cost each, at most 16 costs may differ.
#[test]
fn at_most_sixteen_costs_differ(rt: HostRuntime) -> Result<(), Fail> {
    let first =
        b"cost a 1\ncost b 2\ncost c 3\ncost d 4\ncost e 5\ncost f 6\ncost g 7\ncost h 8\ncost i 9\n\
            cost j 10\ncost k 11\ncost l 12\ncost m 13\ncost n 14\ncost o 15\ncost p 16\n";
    let model =
        b"model\neq a\neq b\neq c\neq d\neq e\neq f\neq g\neq h\neq i\neq j\neq k\neq l\neq m\neq n\neq o\n\
            eq p\neq q\n";
    let mut sixteen = Vec::new(rt.alloc());
    sixteen.extend_from_slice(first)?;
    sixteen.extend_from_slice(model)?;
    let mut seventeen = Vec::new(rt.alloc());
    seventeen.extend_from_slice(first)?;
    seventeen.extend_from_slice(b"cost q 17\n")?;
    seventeen.extend_from_slice(model)?;
    let cases = [
        mended(
            REPAIR,
            &sixteen,
            b"repair 137\ndrop a 1\n",
            b"\ndrop q 1\nlevel 16 rank 0\n",
            b"\nend\n",
        ),
        refused(REPAIR, &seventeen, b"mixed: document: too many\n"),
    ];
    for case in cases {
        expect_case(&rt, rt.alloc(), &case)?;
    }
    Ok(())
}
