//! Tests of matchings.

use bipartite_matching::Match;
use sparse_t::Pattern;
use std::alloc::Global;
use std::test::Fail;

// Three rows over three columns: the first row touches columns 0 and 1, the second 1 and 2, the third none.
fn example(alloc: Global) -> Result<Pattern, Fail> {
    let mut pattern = Pattern::empty(alloc, 3);
    pattern.push_row(&[0, 1])?;
    pattern.push_row(&[1, 2])?;
    pattern.push_row(&[])?;
    Ok(pattern)
}

fn mates_of_rows(found: &Match) -> [Option<usize>; 3] {
    let rows = found.pattern().rows();
    [0, 1, 2].map(|row| {
        if row < rows {
            found.mate_of_row(row)
        } else {
            None
        }
    })
}

fn mates_of_cols(found: &Match) -> [Option<usize>; 3] {
    let cols = found.pattern().cols();
    [0, 1, 2].map(|col| {
        if col < cols {
            found.mate_of_col(col)
        } else {
            None
        }
    })
}

// Links where that is allowed.
fn link(found: &mut Match, row: usize, col: usize) -> bool {
    let pattern = found.pattern();
    if row >= pattern.rows() || col >= pattern.cols() || !pattern.touches(row, col) {
        return false;
    }
    match (found.mate_of_row(row), found.mate_of_col(col)) {
        (None, None) => {
            found.link(row, col);
            true
        }
        _ => false,
    }
}

// Parts a row where it is matched.
fn unlink(found: &mut Match, row: usize) -> bool {
    if row >= found.pattern().rows() {
        return false;
    }
    match found.mate_of_row(row) {
        Some(_) => {
            found.unlink(row);
            true
        }
        None => false,
    }
}

#[derive(Drop)]
enum Step {
    Link(usize, usize),
    Unlink(usize),
}

#[test]
fn links_and_parts(rt: HostRuntime) -> Result<(), Fail> {
    let mut found = Match::open(rt.alloc(), &example(rt.alloc())?)?;
    assert_eq!(rt; mates_of_rows(&found), [None, None, None]);
    // a step, whether it is allowed, and the columns of the rows after it
    let steps = [
        (Step::Link(0, 0), true, [Some(0), None, None]),
        (Step::Link(0, 1), false, [Some(0), None, None]),
        (Step::Link(1, 0), false, [Some(0), None, None]),
        (Step::Link(1, 1), true, [Some(0), Some(1), None]),
        (Step::Unlink(2), false, [Some(0), Some(1), None]),
        (Step::Unlink(0), true, [None, Some(1), None]),
        (Step::Link(0, 1), false, [None, Some(1), None]),
        (Step::Unlink(1), true, [None, None, None]),
        (Step::Link(0, 1), true, [Some(1), None, None]),
        (Step::Link(1, 2), true, [Some(1), Some(2), None]),
    ];
    for (step, allowed, rows) in &steps {
        let done = match step {
            Step::Link(row, col) => link(&mut found, *row, *col),
            Step::Unlink(row) => unlink(&mut found, *row),
        };
        assert_eq!(rt; done, *allowed);
        assert_eq!(rt; mates_of_rows(&found), *rows);
    }
    assert_eq!(rt; mates_of_cols(&found), [None, Some(0), Some(1)]);
    Ok(())
}
