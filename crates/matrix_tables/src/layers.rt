//! Models of one unknown, layered.

use mixed_layering::layer;
use mixed_model::{Layered, Mixed, Origin};
use residue_field::{Field, Res};
use std::alloc::Global;
use std::process::Abort;
use std::test::Fail;

// The constant at the one unknown in each equation, where it is not 0, and whether there is a symbol.
type Rows = &'static [(u64, bool)];

fn put(
    rt: &impl Abort,
    model: &mut Mixed<Res>,
    i: usize,
    constant: Res,
    symbol: bool,
) -> Result<(), Fail> {
    assert!(rt; i < model.equations() && 0 < model.unknowns());
    if constant.value() != 0 {
        model.put_constant(i, 0, constant)?;
    }
    assert!(rt; i < model.equations() && 0 < model.unknowns());
    if symbol {
        model.put_symbol(i, 0)?;
    }
    Ok(())
}

fn model(rt: &impl Abort, alloc: Global, rows: Rows) -> Result<Mixed<Res>, Fail> {
    let mut model = Mixed::new(alloc)?;
    model.add_unknown("x")?;
    for (i, (constant, symbol)) in rows.iter().enumerate() {
        let name = format!(in alloc; "e{i}")?;
        assert!(rt; mixed_model::is_label(name.as_str()));
        let equation = model.add_equation(name.as_str())?;
        put(rt, &mut model, equation, Res::of(*constant), *symbol)?;
    }
    Ok(model)
}

fn assert_q(rt: &impl Abort, layered: &Layered<Res>, want: &[(usize, &[u64])]) {
    assert_eq!(rt; layered.q.rows(), want.len());
    for (i, (equation, row)) in want.iter().enumerate() {
        assert_eq!(rt; layered.q.cols(), row.len());
        assert!(rt; i < layered.q.rows());
        assert_eq!(rt; layered.q_origin(i), *equation);
        for (j, number) in row.iter().enumerate() {
            assert!(rt; i < layered.q.rows() && j < layered.q.cols());
            assert!(rt;
                layered.q.get(i, j) == Res::of(*number),
                "row {i}, column {j}"
            );
        }
    }
}

fn assert_t(rt: &impl Abort, layered: &Layered<Res>, want: &[(usize, &[u32])]) {
    assert_eq!(rt; layered.t.rows(), want.len());
    for (i, (equation, row)) in want.iter().enumerate() {
        assert!(rt; i < layered.t.rows());
        assert_eq!(rt; layered.t_origin(i), *equation);
        assert_eq!(rt; layered.t.row(i), *row, "row {i}");
    }
}

fn assert_columns(rt: &impl Abort, layered: &Layered<Res>, want: &[Origin]) {
    assert_eq!(rt; layered.q.cols(), want.len());
    assert_eq!(rt; layered.t.cols(), want.len());
    for (j, origin) in want.iter().enumerate() {
        assert!(rt; j < layered.q.cols());
        assert_eq!(rt; layered.column_origin(j), *origin, "column {j}");
    }
}

// A model, and what its layers have: the equation of each Q row and its entries, the equation of each T row and its
// columns, and the origin of each column.
type Case = (
    Rows,
    &'static [(usize, &'static [u64])],
    &'static [(usize, &'static [u32])],
    &'static [Origin],
);

const CASES: [Case; 3] = [
    // An entry with a constant and a symbol gives a row of each, and an auxiliary column.
    (
        &[(1, true)],
        &[(0, &[1, 1])],
        &[(0, &[0, 1])],
        &[Origin::Unknown(0), Origin::Split(0)],
    ),
    // An equation of nothing gives a Q row, one of a symbol alone a T row. Rows stand by rising equation.
    (
        &[(0, false), (0, true), (3, false), (5, true)],
        &[(0, &[0, 0]), (2, &[3, 0]), (3, &[5, 1])],
        &[(1, &[0]), (3, &[0, 1])],
        &[Origin::Unknown(0), Origin::Split(3)],
    ),
    // Where no equation is split there is no auxiliary column.
    (
        &[(3, false), (0, true), (0, false)],
        &[(0, &[3]), (2, &[0])],
        &[(1, &[0])],
        &[Origin::Unknown(0)],
    ),
];

#[test]
fn models_have_these_layers(rt: HostRuntime) -> Result<(), Fail> {
    for (rows, q, t, columns) in CASES {
        let layered = layer(rt.alloc(), &model(&rt, rt.alloc(), rows)?)?;
        assert_q(&rt, &layered, q);
        assert_t(&rt, &layered, t);
        assert_columns(&rt, &layered, columns);
        assert_eq!(rt; layered.split().saturating_add(1), columns.len());
    }
    Ok(())
}
