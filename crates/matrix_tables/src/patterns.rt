//! Tests of patterns.

ghost use Rattle.std.specs.Prelude.{◌≡◌, ◌<◌, IfOk};
ghost use Rattle.sparse_t.specs.Incidences.{incidence_rows};

use sparse_t::{NoMemory, Pattern, RoomyPattern};
use std::alloc::Global;
use std::test::Fail;

// Four rows over three columns: the first two columns, none, the last, all.
fn example(alloc: Global) -> Result<Pattern, NoMemory>
    ensures rows { IfOk result (λ p. incidence_rows p ≡ 4) }
    ensures width { IfOk result (λ p. p.width ≡ 3) }
{
    let mut pattern = Pattern::empty(alloc, 3);
    pattern.push_row(&[0, 1])?;
    pattern.push_row(&[])?;
    pattern.push_row(&[2])?;
    pattern.push_row(&[0, 1, 2])?;
    Ok(pattern)
}

#[test]
fn tells_rows(rt: HostRuntime) -> Result<(), Fail> {
    let pattern = example(rt.alloc())?;
    assert_eq!(rt; (pattern.rows(), pattern.cols()), (4, 3));
    let rows: [&[u32]; 4] = [&[0, 1], &[], &[2], &[0, 1, 2]];
    for (i, row) in rows.iter().enumerate() {
        assert_eq!(rt; pattern.row(i), *row, "row {i}");
        for col in 0..3 {
            let touches = row.contains(&(col as u32));
            assert_eq!(rt; pattern.touches(i, col), touches, "row {i}, column {col}");
        }
    }
    Ok(())
}

#[test]
fn tells_columns(rt: HostRuntime) -> Result<(), Fail> {
    let pattern = RoomyPattern::of(rt.alloc(), &example(rt.alloc())?)?;
    let columns: [&[u32]; 3] = [&[0, 3], &[0, 3], &[2, 3]];
    for (col, column) in columns.iter().enumerate() {
        assert_eq!(rt; pattern.rows_of(col), *column, "column {col}");
        for i in 0..4 {
            let touches = column.contains(&(i as u32));
            assert_eq!(rt; pattern.touches(i, col), touches, "row {i}, column {col}");
        }
    }
    Ok(())
}

fn long(alloc: Global) -> Result<Pattern, NoMemory> {
    let mut pattern = Pattern::empty(alloc, 1);
    for _row in 0..100 {
        if pattern.rows() < 8_192 && pattern.cols() == 1 {
            pattern.push_row(&[0])?;
        }
    }
    Ok(pattern)
}

// One column of many rows, past what its list holds with no memory of its own.
#[test]
fn takes_long_columns(rt: HostRuntime) -> Result<(), Fail> {
    let pattern = RoomyPattern::of(rt.alloc(), &long(rt.alloc())?)?;
    let columns = pattern.cols();
    if columns == 1 {
        let rows = pattern.rows_of(0);
        assert_eq!(rt; (rows.len(), rows.last().copied()), (100, Some(99)));
    }
    assert_eq!(rt; columns, 1);
    Ok(())
}
