//! Tests of tables of bits.

ghost use Rattle.std.specs.Prelude.{◌<◌, ◌≤◌};

use bit_table::{BitTable, NoMemory};
use std::process::Abort;
use std::test::Fail;

// That these bits stand in a row, and no others.
fn assert_bits(rt: &impl Abort, table: &BitTable, x: usize, size: usize, want: &[usize])
    requires x { x < table.now.rows }
    requires size { size ≤ table.now.size }
{
    for y in 0..size {
        assert_eq!(rt; table.get(x, y), want.contains(&y), "row {x}, bit {y}");
    }
}

// A row, where a look begins, before which bit it ends, and what it finds.
const LOOKS: [(usize, usize, usize, Option<usize>); 10] = [
    (0, 0, 130, None),
    (1, 0, 130, Some(63)),
    (1, 0, 63, None),
    (1, 63, 64, Some(63)),
    (1, 64, 65, Some(64)),
    (1, 65, 129, None),
    (1, 65, 130, Some(129)),
    (1, 130, 130, None),
    (1, 64, 63, None),
    (2, 0, 130, None),
];

// Rows of three words: the middle one has bits at both sides of a word's border and at the end, and behind it no bit was
// ever set.
#[test]
fn finds_bits_over_the_borders_of_words(rt: HostRuntime) -> Result<(), Fail> {
    let mut table = BitTable::open(rt.alloc(), 3, 130)?;
    table.set(1, 63);
    table.set(1, 64);
    table.set(1, 129);
    assert_bits(&rt, &table, 1, 130, &[63, 64, 129]);
    assert_bits(&rt, &table, 2, 130, &[]);
    for (x, from, end, want) in LOOKS {
        assert!(rt; x < 3 && end <= 130);
        assert_eq!(rt;
            table.next(x, from, end),
            want,
            "row {x}, from {from} to {end}"
        );
    }
    Ok(())
}

// More rows than bits, and a further table of one row. A row that no bit was set in is joined first.
#[test]
fn joins_and_clears_rows(rt: HostRuntime) -> Result<(), Fail> {
    let mut table = BitTable::open(rt.alloc(), 70, 66)?;
    table.join(5, 69);
    assert_bits(&rt, &table, 5, 66, &[]);
    table.set(68, 0);
    table.set(68, 65);
    table.set(69, 1);
    table.join(69, 68);
    assert_bits(&rt, &table, 69, 66, &[0, 1, 65]);
    let mut other = BitTable::open(rt.alloc(), 1, 66)?;
    other.set(0, 64);
    table.join_other(68, &other, 0);
    table.clear_row(69);
    assert_bits(&rt, &table, 69, 66, &[]);
    assert_bits(&rt, &table, 68, 66, &[0, 64, 65]);
    table.clear();
    assert_bits(&rt, &table, 68, 66, &[]);
    Ok(())
}

// The words of so many rows are more than a number counts.
#[test]
fn has_no_memory_for_too_many_rows(rt: HostRuntime) {
    let table = BitTable::open(rt.alloc(), usize::MAX, 64);
    assert!(rt; matches!(table, Err(NoMemory)));
}
