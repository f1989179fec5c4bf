//! Tests of matchings whose pattern gains and loses rows and columns.

use bipartite_matching::Match;
use sparse_t::{Pattern, RoomyPattern};
use std::alloc::Global;
use std::test::Fail;

// Three rows over three columns: the first row touches columns 0 and 1, the second 1 and 2, the third none.
fn example(alloc: Global) -> Result<Pattern, Fail> {
    let mut pattern = Pattern::empty(alloc, 3);
    pattern.push_row(&[0, 1])?;
    pattern.push_row(&[1, 2])?;
    pattern.push_row(&[])?;
    Ok(pattern)
}

// The example with a column that no row touches between its first two.
fn wider(alloc: Global) -> Result<Pattern, Fail> {
    let mut pattern = Pattern::empty(alloc, 4);
    pattern.push_row(&[0, 2])?;
    pattern.push_row(&[2, 3])?;
    pattern.push_row(&[])?;
    Ok(pattern)
}

// Whether the matching is over this pattern, read by its rows, by its columns and place by place.
fn is_over(found: &Match, wanted: &RoomyPattern) -> bool {
    let pattern = found.pattern();
    let (rows, cols) = (wanted.rows(), wanted.cols());
    pattern.rows() == rows
        && pattern.cols() == cols
        && (0..rows).all(|i| pattern.row(i) == wanted.row(i))
        && (0..cols).all(|j| pattern.rows_of(j) == wanted.rows_of(j))
}

// Puts row i of a pattern of the same width in as row `at`, where that is allowed.
fn insert_row(found: &mut Match, at: usize, of: &Pattern, i: usize) -> Result<bool, Fail> {
    let (rows, cols) = (found.pattern().rows(), found.pattern().cols());
    if at > rows || rows >= 8_192 || of.cols() != cols || i >= of.rows() {
        return Ok(false);
    }
    found.room(rows + 1, cols)?;
    found.insert_row(at, of.row(i));
    Ok(true)
}

// Takes a row out, where it is in no pair.
fn remove_row(found: &mut Match, at: usize) -> bool {
    if at >= found.pattern().rows() || found.mate_of_row(at).is_some() {
        return false;
    }
    found.remove_row(at);
    true
}

// Puts an empty column in, where there is one to come.
fn insert_column(found: &mut Match, at: usize) -> Result<bool, Fail> {
    let (rows, cols) = (found.pattern().rows(), found.pattern().cols());
    if at > cols || cols >= 8_192 {
        return Ok(false);
    }
    found.room(rows, cols + 1)?;
    found.insert_column(at);
    Ok(true)
}

fn link(found: &mut Match, row: usize, col: usize) -> bool {
    let pattern = found.pattern();
    if row >= pattern.rows() || col >= pattern.cols() || !pattern.touches(row, col) {
        return false;
    }
    match (found.mate_of_row(row), found.mate_of_col(col)) {
        (None, None) => {
            found.link(row, col);
            true
        }
        _ => false,
    }
}

fn mates(found: &Match) -> [Option<usize>; 4] {
    let cols = found.pattern().cols();
    [0, 1, 2, 3].map(|col| {
        if col < cols {
            found.mate_of_col(col)
        } else {
            None
        }
    })
}

#[test]
fn rows_come_in_several_orders(rt: HostRuntime) -> Result<(), Fail> {
    let wanted = example(rt.alloc())?;
    let whole = RoomyPattern::of(rt.alloc(), &wanted)?;
    // the rows of the example, each with the number that it comes as
    let orders = [
        [(0, 0), (1, 1), (2, 2)],
        [(2, 0), (1, 0), (0, 0)],
        [(1, 0), (0, 0), (2, 2)],
        [(0, 0), (2, 1), (1, 1)],
        [(2, 0), (0, 0), (1, 1)],
    ];
    for order in &orders {
        let mut found = Match::open(rt.alloc(), &Pattern::empty(rt.alloc(), 3))?;
        for (row, at) in order {
            assert!(rt; insert_row(&mut found, *at, &wanted, *row)?);
        }
        assert!(rt; is_over(&found, &whole));
    }
    Ok(())
}

#[test]
fn pairs_stay_where_rows_come_and_go(rt: HostRuntime) -> Result<(), Fail> {
    let wanted = example(rt.alloc())?;
    let whole = RoomyPattern::of(rt.alloc(), &wanted)?;
    let mut found = Match::open(rt.alloc(), &wanted)?;
    assert!(rt; link(&mut found, 0, 1));
    assert!(rt; link(&mut found, 1, 2));
    // a row comes as row `at`, and these are the mates of the columns until it goes
    let cases = [
        (0, [None, Some(1), Some(2), None]),
        (1, [None, Some(0), Some(2), None]),
        (2, [None, Some(0), Some(1), None]),
        (3, [None, Some(0), Some(1), None]),
    ];
    for (at, after) in &cases {
        assert!(rt; insert_row(&mut found, *at, &wanted, 0)?);
        assert_eq!(rt; mates(&found), *after);
        assert!(rt; remove_row(&mut found, *at));
        assert_eq!(rt; mates(&found), [None, Some(0), Some(1), None]);
        assert!(rt; is_over(&found, &whole));
    }
    assert!(rt; !remove_row(&mut found, 0));
    Ok(())
}

#[test]
fn columns_come(rt: HostRuntime) -> Result<(), Fail> {
    let mut found = Match::open(rt.alloc(), &example(rt.alloc())?)?;
    assert!(rt; link(&mut found, 0, 0));
    assert!(rt; link(&mut found, 1, 2));
    assert!(rt; insert_column(&mut found, 1)?);
    assert_eq!(rt; mates(&found), [Some(0), None, None, Some(1)]);
    let wanted = RoomyPattern::of(rt.alloc(), &wider(rt.alloc())?)?;
    assert!(rt; is_over(&found, &wanted));
    Ok(())
}
