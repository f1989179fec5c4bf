//! Tests of residues modulo 65,521 and modulo 2,147,483,647.

use residue_field::{Field, Res, Res31, Vanish};
use std::alloc::Global;
use std::process::Abort;
use std::test::Fail;

const LAST: u64 = 2_147_483_646;

fn assert_residues<F: Field>(rt: &impl Abort, cases: &[(u64, u32)]) {
    for (n, want) in cases {
        assert_eq!(rt; F::of(*n).value(), *want, "at {n}");
    }
}

const RESIDUES: [(u64, u32); 5] = [
    (0, 0),
    (65_520, 65_520),
    (65_521, 0),
    (131_043, 1),
    (u64::MAX, 50_624),
];

const WIDE_RESIDUES: [(u64, u32); 5] = [
    (0, 0),
    (65_521, 65_521),
    (2_147_483_647, 0),
    (4_294_967_295, 1),
    (u64::MAX, 3),
];

// Two numbers, their sum, their difference and their product.
type Operation = (u64, u64, u32, u32, u32);

fn assert_operations<F: Field>(rt: &impl Abort, cases: &[Operation]) {
    for (a, b, sum, difference, product) in cases {
        let (x, y) = (F::of(*a), F::of(*b));
        assert_eq!(rt; x.add(y).value(), *sum, "{a} + {b}");
        assert_eq!(rt; x.sub(y).value(), *difference, "{a} - {b}");
        assert_eq!(rt; x.mul(y).value(), *product, "{a} * {b}");
        assert!(rt; x.add(x.neg()) == F::zero(), "{a} - {a}");
        assert!(rt; (x == y) == (*a == *b), "{a} == {b}");
    }
}

const OPERATIONS: [Operation; 3] = [
    (2, 3, 5, 65_520, 6),
    (65_520, 65_520, 65_519, 0, 1),
    (40_000, 30_000, 4_479, 10_000, 48_406),
];

const WIDE_OPERATIONS: [Operation; 3] = [
    (2, 3, 5, 2_147_483_646, 6),
    (LAST, LAST, 2_147_483_645, 0, 1),
    (
        2_000_000_000,
        1_000_000_000,
        852_516_353,
        1_000_000_000,
        105_568_975,
    ),
];

fn inverse_of<F: Field>(n: u64) -> Option<u32> {
    Some(F::of(n).inv()?.value())
}

fn assert_inverses<F: Field>(rt: &impl Abort, cases: &[(u64, Option<u32>)]) {
    for (n, want) in cases {
        assert_eq!(rt; inverse_of::<F>(*n), *want, "at {n}");
    }
}

const INVERSES: [(u64, Option<u32>); 5] = [
    (0, None),
    (1, Some(1)),
    (2, Some(32_761)),
    (3, Some(43_681)),
    (65_520, Some(65_520)),
];

// Whether it is negative, its numerator and its denominator, and its residue.
type Fraction = (bool, u64, u64, Result<u32, Vanish>);

fn residue_of<F: Field>(negative: bool, num: u64, den: u64) -> Result<u32, Vanish> {
    Ok(F::from_fraction(negative, num, den)?.value())
}

fn assert_fractions<F: Field>(rt: &impl Abort, cases: &[Fraction]) {
    for (negative, num, den, want) in cases {
        let found = residue_of::<F>(*negative, *num, *den);
        assert_eq!(rt; found, *want, "{negative} {num}/{den}");
    }
}

const FRACTIONS: [Fraction; 10] = [
    (false, 1, 2, Ok(32_761)),
    (true, 1, 2, Ok(32_760)),
    (false, 0, 7, Ok(0)),
    (true, 0, 7, Ok(0)),
    (false, 3, 1, Ok(3)),
    (true, 65_522, 65_523, Ok(32_760)),
    (false, 65_521, 1, Err(Vanish)),
    (false, 1, 65_521, Err(Vanish)),
    (false, 0, 131_042, Err(Vanish)),
    (true, 1, 0, Err(Vanish)),
];

const WIDE_FRACTIONS: [Fraction; 6] = [
    (false, 1, 65_521, Ok(1_675_614_749)),
    (false, 1, 3, Ok(1_431_655_765)),
    (true, 1, 1, Ok(2_147_483_646)),
    (false, 5, 10, Ok(1_073_741_824)),
    (false, 2_147_483_647, 1, Err(Vanish)),
    (false, 1, 2_147_483_647, Err(Vanish)),
];

// A row of the greatest residue, with its product with itself added at each place.
fn added<F: Field>(rt: &impl Abort, alloc: Global, length: usize) -> Result<Vec<F>, Fail> {
    let last = F::one().neg();
    let mut row = vec![in alloc; last; length]?;
    let other = vec![in alloc; last; length]?;
    assert_eq!(rt; row.len(), other.len());
    F::add_scaled(&mut row, &other, last);
    Ok(row)
}

fn assert_added_rows<F: Field>(rt: &impl Abort, alloc: Global) -> Result<(), Fail> {
    for length in [0, 1, 15, 16, 17, 33] {
        let row = added::<F>(rt, alloc, length)?;
        assert_eq!(rt; row.len(), length);
        for value in row.iter() {
            assert!(rt; value.is_zero(), "a row of {length}");
        }
    }
    Ok(())
}

#[test]
fn residues_modulo_65521(rt: HostRuntime) -> Result<(), Fail> {
    assert_eq!(rt; Res::MODULUS, 65_521);
    assert_residues::<Res>(&rt, &RESIDUES);
    assert_operations::<Res>(&rt, &OPERATIONS);
    assert_inverses::<Res>(&rt, &INVERSES);
    assert_fractions::<Res>(&rt, &FRACTIONS);
    assert_added_rows::<Res>(&rt, rt.alloc())
}

#[test]
fn residues_modulo_2147483647(rt: HostRuntime) -> Result<(), Fail> {
    assert_residues::<Res31>(&rt, &WIDE_RESIDUES);
    assert_operations::<Res31>(&rt, &WIDE_OPERATIONS);
    assert_inverses::<Res31>(&rt, &[(0, None)]);
    assert_fractions::<Res31>(&rt, &WIDE_FRACTIONS);
    assert_added_rows::<Res31>(&rt, rt.alloc())
}
