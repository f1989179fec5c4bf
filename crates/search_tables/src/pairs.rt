//! What the engine tells of small matrices.

ghost use Rattle.std.specs.Prelude.{◌≡◌, ℕ, ◌<◌, IfOk};
ghost use Rattle.independent_matching.specs.Engines.{IsBareOver};

use dense_q::Mat;
use independent_matching::{Engine, Steps};
use mixed_model::{Layered, Origin};
use residue_field::{Field, Res};
use row_entries::EntryMat;
use row_transform::{DenseTableau, Tableau};
use sparse_t::Pattern;
use sparse_tableau::SparseTableau;
use std::alloc::Global;
use std::marker::Brand;
use std::process::Abort;
use std::sync::ledger::{Blank, Ledger};
use std::test::Fail;

// The matrix with these rows.
fn constants(alloc: Global, columns: usize, rows: &[&[u64]]) -> Result<Mat<Res>, Fail>
    requires { columns < 8192 }
    ensures { IfOk result (λ q. q.width ≡ columns) }
{
    let mut q = Mat::zeros(alloc, 0, columns)?;
    for row in rows {
        let mut residues = Vec::new(alloc);
        for number in row.iter() {
            residues.push(Res::of(*number))?;
        }
        if q.rows() < 8_192 && residues.len() == q.cols() {
            q.push_row(&residues)?;
        }
    }
    Ok(q)
}

// The layered matrix of q and t.
fn layered(alloc: Global, q: Mat<Res>, t: Pattern) -> Result<Layered<Res>, Fail>
    requires { t.width ≡ q.width }
{
    let q = EntryMat::of(alloc, &q)?;
    let q_origins = vec![in alloc; 0; q.rows()]?;
    let t_origins = vec![in alloc; 0; t.rows()]?;
    let column_origins = vec![in alloc; Origin::Unknown(0); q.cols()]?;
    Ok(Layered::new(q, t, q_origins, t_origins, column_origins))
}

// An engine that has run on a layered matrix, over a tableau of this type.
fn solved<L: Ledger, T: Tableau<Res>>(
    alloc: Global,
    layered: &Layered<Res>,
    blank: Blank,
) -> Result<Engine<Res, T>, Fail>
    requires name { blank.name ≡ L.name }
    requires parts { blank.parts ≡ L.parts }
    requires some { 0 < blank.parts }
{
    let tableau = T::open(alloc, &layered.q)?;
    let mut engine = Engine::open_on(alloc, layered, tableau)?;
    engine.run(&mut Steps::<L>::new(blank));
    Ok(engine)
}

// Makes a column the base column of a row, and takes it out of the base again.
fn pivot_and_bare<T: Tableau<Res>>(rt: &impl Abort, tableau: &mut T, row: usize, column: usize)
    ensures { (p m n : ℕ) (q : ℕ → ℕ → ℕ) → IsBareOver p m n q (T.state tableau.old) →
        IsBareOver p m n q (T.state tableau.new) }
{
    assert!(rt; row < tableau.rows() && column < tableau.columns());
    assert!(rt; !tableau.entry(row, column).is_zero());
    assert_eq!(rt; tableau.row_of(column), None);
    tableau.pivot(row, column);
    tableau.drop_base(column);
}

// An engine that has run over a tableau of this type that was pivoted there and bared again.
fn solved_on_bared<L: Ledger, T: Tableau<Res>, R: Abort>(
    rt: &R,
    alloc: Global,
    layered: &Layered<Res>,
    place: (usize, usize),
    blank: Blank,
) -> Result<Engine<Res, T>, Fail>
    requires name { blank.name ≡ L.name }
    requires parts { blank.parts ≡ L.parts }
    requires some { 0 < blank.parts }
{
    let mut tableau = T::open(alloc, &layered.q)?;
    pivot_and_bare(rt, &mut tableau, place.0, place.1);
    let mut engine = Engine::open_on(alloc, layered, tableau)?;
    engine.run(&mut Steps::<L>::new(blank));
    Ok(engine)
}

// What an engine tells of each column: `q` or `t` where it is in the pair and `.` where it is free, then `-` where it
// is in the least minimiser and `!` where it is an end.
fn told<T: Tableau<Res>>(alloc: Global, engine: &Engine<Res, T>) -> Result<String, Fail> {
    let mut text = String::new(alloc);
    let free = engine.free_columns();
    let ends = engine.end_columns();
    for col in 0..engine.tableau().columns() {
        if engine.in_q(col) {
            text.push('q')?;
        }
        if engine.mate(col).is_some() {
            text.push('t')?;
        }
        if free[col] {
            text.push('.')?;
        }
        if engine.least_minimiser(col) {
            text.push('-')?;
        }
        if ends[col] {
            text.push('!')?;
        }
    }
    Ok(text)
}

fn assert_told<T: Tableau<Res>>(
    rt: &impl Abort,
    alloc: Global,
    engine: &Engine<Res, T>,
    size: usize,
    text: &str,
) -> Result<(), Fail> {
    assert_eq!(rt; engine.size(), size);
    assert_eq!(rt; engine.searches(), size.saturating_add(1));
    let told = told(alloc, engine)?;
    assert_eq!(rt; told.as_str(), text);
    Ok(())
}

fn assert_solved_over<T: Tableau<Res>>(
    rt: &impl Abort,
    alloc: Global,
    layered: &Layered<Res>,
    size: usize,
    text: &str,
) -> Result<(), Fail> {
    let engine: Engine<Res, T> = solved::<Brand, T>(alloc, layered, Blank::new(1))?;
    assert_told(rt, alloc, &engine, size, text)
}

// Over either tableau.
fn assert_solved(
    rt: &impl Abort,
    alloc: Global,
    q: Mat<Res>,
    t: Pattern,
    size: usize,
    text: &str,
) -> Result<(), Fail>
    requires { t.width ≡ q.width }
{
    let layered = layered(alloc, q, t)?;
    assert_solved_over::<DenseTableau<Res>>(rt, alloc, &layered, size, text)?;
    assert_solved_over::<SparseTableau<Res>>(rt, alloc, &layered, size, text)
}

#[test]
fn matches_a_triangle_of_symbols(rt: HostRuntime) -> Result<(), Fail> {
    let mut t = Pattern::empty(rt.alloc(), 2);
    t.push_row(&[0, 1])?;
    t.push_row(&[0])?;
    let q = constants(rt.alloc(), 2, &[])?;
    assert_solved(&rt, rt.alloc(), q, t, 2, "tt")
}

#[test]
fn matches_loose_symbols(rt: HostRuntime) -> Result<(), Fail> {
    let mut t = Pattern::empty(rt.alloc(), 2);
    t.push_row(&[0])?;
    t.push_row(&[1])?;
    let q = constants(rt.alloc(), 2, &[])?;
    assert_solved(&rt, rt.alloc(), q, t, 2, "tt")
}

// The equations x + y and x + ?y, the second one split.
#[test]
fn finds_constants_over_a_split_row(rt: HostRuntime) -> Result<(), Fail> {
    let mut t = Pattern::empty(rt.alloc(), 3);
    t.push_row(&[1, 2])?;
    let q = constants(rt.alloc(), 3, &[&[1, 1, 0], &[1, 0, 1]])?;
    assert_solved(&rt, rt.alloc(), q, t, 3, "qtq")
}

// The equations ?x + y and x + ?y, both split.
#[test]
fn finds_a_block_of_four_columns(rt: HostRuntime) -> Result<(), Fail> {
    let mut t = Pattern::empty(rt.alloc(), 4);
    t.push_row(&[0, 2])?;
    t.push_row(&[1, 3])?;
    let q = constants(rt.alloc(), 4, &[&[0, 1, 1, 0], &[1, 0, 0, 1]])?;
    assert_solved(&rt, rt.alloc(), q, t, 4, "ttqq")
}

// A constant and a symbol at one place.
#[test]
fn finds_a_split_entry(rt: HostRuntime) -> Result<(), Fail> {
    let mut t = Pattern::empty(rt.alloc(), 2);
    t.push_row(&[0, 1])?;
    let q = constants(rt.alloc(), 2, &[&[1, 1]])?;
    assert_solved(&rt, rt.alloc(), q, t, 2, "tq")
}

// A column of two symbols stays an end; a column of two constants does not.
#[test]
fn tells_ends_from_blocks(rt: HostRuntime) -> Result<(), Fail> {
    let mut t = Pattern::empty(rt.alloc(), 1);
    t.push_row(&[0])?;
    t.push_row(&[0])?;
    let q = constants(rt.alloc(), 1, &[])?;
    assert_solved(&rt, rt.alloc(), q, t, 1, "t!")?;
    let t = Pattern::empty(rt.alloc(), 1);
    let q = constants(rt.alloc(), 1, &[&[1], &[1]])?;
    assert_solved(&rt, rt.alloc(), q, t, 1, "q")
}

// Of two columns that always cancel both are in the least minimiser.
#[test]
fn finds_columns_that_cancel(rt: HostRuntime) -> Result<(), Fail> {
    let t = Pattern::empty(rt.alloc(), 2);
    let q = constants(rt.alloc(), 2, &[&[1, 1], &[1, 1]])?;
    assert_solved(&rt, rt.alloc(), q, t, 1, "q-.-")
}

// Row 0 may take column 0 first, which row 1 needs.
#[test]
fn walks_where_a_greedy_pair_stops(rt: HostRuntime) -> Result<(), Fail> {
    let mut t = Pattern::empty(rt.alloc(), 3);
    t.push_row(&[0, 2])?;
    t.push_row(&[0, 1])?;
    t.push_row(&[1])?;
    let q = constants(rt.alloc(), 3, &[])?;
    assert_solved(&rt, rt.alloc(), q, t, 3, "ttt")
}

fn assert_pivots_over<T: Tableau<Res>>(
    rt: &impl Abort,
    alloc: Global,
    layered: &Layered<Res>,
    pivots: usize,
) -> Result<(), Fail> {
    let engine: Engine<Res, T> = solved::<Brand, T>(alloc, layered, Blank::new(1))?;
    assert_eq!(rt; engine.pivots(), pivots);
    Ok(())
}

// Over either tableau.
fn assert_pivots(
    rt: &impl Abort,
    alloc: Global,
    q: Mat<Res>,
    t: Pattern,
    pivots: usize,
) -> Result<(), Fail>
    requires { t.width ≡ q.width }
{
    let layered = layered(alloc, q, t)?;
    assert_pivots_over::<DenseTableau<Res>>(rt, alloc, &layered, pivots)?;
    assert_pivots_over::<SparseTableau<Res>>(rt, alloc, &layered, pivots)
}

// A column that takes a Q row takes a pivot, and one that takes a T row takes none.
#[test]
fn counts_pivots(rt: HostRuntime) -> Result<(), Fail> {
    let t = Pattern::empty(rt.alloc(), 2);
    let q = constants(rt.alloc(), 2, &[&[1, 1], &[1, 2]])?;
    assert_pivots(&rt, rt.alloc(), q, t, 2)?;
    let mut t = Pattern::empty(rt.alloc(), 2);
    t.push_row(&[0, 1])?;
    t.push_row(&[0])?;
    let q = constants(rt.alloc(), 2, &[])?;
    assert_pivots(&rt, rt.alloc(), q, t, 0)
}

// How many pivots there were in all, and how many of them the engine made.
fn assert_counts<T: Tableau<Res>>(rt: &impl Abort, engine: &Engine<Res, T>, all: u64, told: usize) {
    assert_eq!(rt; engine.tableau().pivots(), all);
    assert_eq!(rt; engine.pivots(), told);
}

// A layered matrix, a place where its tableau is pivoted before the engine opens on it, and what the engine then tells:
// the size of its pair, each column, and how many pivots it made.
#[derive(Drop)]
struct Bared<'a> {
    layered: &'a Layered<Res>,
    place: (usize, usize),
    size: usize,
    text: &'a str,
    pivots: usize,
}

fn assert_bared_over<T: Tableau<Res>, R: Abort>(
    rt: &R,
    alloc: Global,
    bared: &Bared,
) -> Result<(), Fail> {
    let engine: Engine<Res, T> = solved_on_bared::<Brand, T, R>(
        rt,
        alloc,
        bared.layered,
        bared.place,
        Blank::new(1),
    )?;
    assert_counts(
        rt,
        &engine,
        (bared.pivots as u64).saturating_add(1),
        bared.pivots,
    );
    assert_told(rt, alloc, &engine, bared.size, bared.text)
}

// Over either tableau, and over ones that are opened anew.
fn assert_bared<R: Abort>(rt: &R, alloc: Global, bared: &Bared) -> Result<(), Fail> {
    assert_bared_over::<DenseTableau<Res>, R>(rt, alloc, bared)?;
    assert_bared_over::<SparseTableau<Res>, R>(rt, alloc, bared)?;
    assert_solved_over::<DenseTableau<Res>>(rt, alloc, bared.layered, bared.size, bared.text)?;
    assert_solved_over::<SparseTableau<Res>>(rt, alloc, bared.layered, bared.size, bared.text)
}

// Of two Q rows and a T row at columns 2 and 3, and another at column 3 where that is asked for.
fn bared_layers(alloc: Global, two: bool) -> Result<Layered<Res>, Fail> {
    let rows: &[&[u64]] = &[&[1, 2, 0, 0], &[2, 4, 1, 0]];
    let mut t = Pattern::empty(alloc, 4);
    t.push_row(&[2, 3])?;
    if two {
        t.push_row(&[3])?;
    }
    layered(alloc, constants(alloc, 4, rows)?, t)
}

fn assert_bared_layers(
    rt: &impl Abort,
    alloc: Global,
    two: bool,
    text: &str,
    pivots: usize,
) -> Result<(), Fail> {
    let layered = bared_layers(alloc, two)?;
    let bared = Bared {
        layered: &layered,
        place: (1, 1),
        size: 3,
        text,
        pivots,
    };
    assert_bared(rt, alloc, &bared)
}

// Column 1 is twice column 0, so that of these two one is free and both are the least minimiser, and 3 has a T row
// alone. With one T row, 2 leaves it to 3 for the Q row that is left. With two it keeps its own, and is an end by that
// Q row.
#[test]
fn opens_on_a_tableau_that_was_pivoted_and_bared(rt: HostRuntime) -> Result<(), Fail> {
    assert_bared_layers(&rt, rt.alloc(), false, "q-.-qt", 2)?;
    assert_bared_layers(&rt, rt.alloc(), true, "q-.-t!t", 1)
}

// The looks of a run, and those up to the end of a second one.
fn looks_of_two_runs<L: Ledger>(
    alloc: Global,
    layered: &Layered<Res>,
    blank: Blank,
) -> Result<[usize; 2], Fail>
    requires name { blank.name ≡ L.name }
    requires parts { blank.parts ≡ L.parts }
    requires some { 0 < blank.parts }
{
    let mut engine: Engine<Res> = Engine::open(alloc, layered)?;
    let mut steps = Steps::<L>::new(blank);
    engine.run(&mut steps);
    let first = engine.looks();
    engine.run(&mut steps);
    Ok([first, engine.looks()])
}

// Columns 0 and 1 cancel: 0 takes the row, 1 leads to it in vain, and neither is looked at again. Column 2 takes
// the T row, and 3, which it touches too, leads to 2.
#[test]
fn looks_once_at_what_is_left_out(rt: HostRuntime) -> Result<(), Fail> {
    let mut t = Pattern::empty(rt.alloc(), 4);
    t.push_row(&[2, 3])?;
    let q = constants(rt.alloc(), 4, &[&[1, 1, 0, 0]])?;
    let layered = layered(rt.alloc(), q, t)?;
    let looks = looks_of_two_runs::<Brand>(rt.alloc(), &layered, Blank::new(1))?;
    assert_eq!(rt; looks.as_slice(), [4, 4].as_slice());
    Ok(())
}
