//! Models that are built, and what they tell.

use dense_q::Mat;
use mixed_model::{AddError, Layered, Mixed, Origin, is_label};
use residue_field::{Field, Res};
use row_entries::EntryMat;
use sparse_t::Pattern;
use std::alloc::Global;
use std::process::Abort;
use std::test::Fail;

// How a name comes to a model.
#[derive(Drop)]
enum Name {
    Equation,
    Unknown,
    FoundOrAdded,
}

// Names in turn, and the answer to each.
const NAMES: [(Name, &str, Result<usize, AddError>); 11] = [
    (Name::Equation, "mass", Ok(0)),
    (Name::Equation, "heat", Ok(1)),
    (Name::Unknown, "x", Ok(0)),
    (Name::Unknown, "y", Ok(1)),
    (Name::Unknown, "z", Ok(2)),
    (Name::Equation, "mass", Err(AddError::Twice)),
    (Name::Unknown, "z", Err(AddError::Twice)),
    (Name::Equation, "x", Ok(2)),
    (Name::FoundOrAdded, "y", Ok(1)),
    (Name::FoundOrAdded, "u", Ok(3)),
    (Name::FoundOrAdded, "u", Ok(3)),
];

fn named(rt: &impl Abort, alloc: Global) -> Result<Mixed<Res>, Fail> {
    let mut model = Mixed::new(alloc)?;
    for (kind, name, want) in NAMES {
        assert!(rt; is_label(name));
        let answer = match kind {
            Name::Equation => model.add_equation(name),
            Name::Unknown => model.add_unknown(name),
            Name::FoundOrAdded => model.find_or_add_unknown(name),
        };
        assert_eq!(rt; answer, want, "{name}");
    }
    Ok(model)
}

#[test]
fn names_stand_in_first_seen_order(rt: HostRuntime) -> Result<(), Fail> {
    let model = named(&rt, rt.alloc())?;
    assert_eq!(rt; (model.equations(), model.unknowns()), (3, 4));
    for (i, name) in ["mass", "heat", "x"].iter().enumerate() {
        assert!(rt; i < model.equations());
        assert_eq!(rt; model.equation_name(i), *name);
        assert_eq!(rt; model.find_equation(name), Some(i));
    }
    for (j, name) in ["x", "y", "z", "u"].iter().enumerate() {
        assert!(rt; j < model.unknowns());
        assert_eq!(rt; model.unknown_name(j), *name);
        assert_eq!(rt; model.find_unknown(name), Some(j));
    }
    assert_eq!(rt;
        (model.find_unknown("heat"), model.find_equation("y")),
        (None, None)
    );
    Ok(())
}

// In turn, an equation and an unknown, the constant that is put at their place or none for a symbol, and the answer.
const PUTS: [(usize, usize, Option<u64>, Result<(), AddError>); 8] = [
    (1, 2, Some(5), Ok(())),
    (1, 0, Some(65_520), Ok(())),
    (1, 1, Some(7), Ok(())),
    (1, 2, Some(7), Err(AddError::Twice)),
    (1, 2, None, Ok(())),
    (1, 2, None, Err(AddError::Twice)),
    (0, 0, None, Ok(())),
    (0, 0, Some(65_520), Ok(())),
];

fn put(
    rt: &impl Abort,
    model: &mut Mixed<Res>,
    i: usize,
    j: usize,
    constant: Option<u64>,
) -> Result<(), AddError> {
    assert!(rt; i < model.equations() && j < model.unknowns());
    let Some(number) = constant else {
        return model.put_symbol(i, j);
    };
    let constant = Res::of(number);
    assert!(rt; constant.value() != 0);
    model.put_constant(i, j, constant)
}

fn assert_place(
    rt: &impl Abort,
    model: &Mixed<Res>,
    i: usize,
    j: usize,
    want: (Option<Res>, bool),
) {
    assert!(rt; i < model.equations() && j < model.unknowns());
    assert!(rt; model.constant(i, j) == want.0 && model.symbol(i, j) == want.1);
}

// That the entries of an equation stand by rising column.
fn assert_columns(
    rt: &impl Abort,
    alloc: Global,
    model: &Mixed<Res>,
    i: usize,
    want: &[usize],
) -> Result<(), Fail> {
    assert!(rt; i < model.equations());
    let mut columns = Vec::new(alloc);
    for entry in model.entries(i) {
        columns.push(entry.column)?;
    }
    assert_eq!(rt; columns.as_slice(), want);
    Ok(())
}

#[test]
fn a_place_holds_a_constant_and_a_symbol(rt: HostRuntime) -> Result<(), Fail> {
    let mut model = named(&rt, rt.alloc())?;
    for (i, j, constant, want) in PUTS {
        assert_eq!(rt; put(&rt, &mut model, i, j, constant), want, "{i}, {j}");
    }
    assert_place(&rt, &model, 1, 2, (Some(Res::of(5)), true));
    assert_place(&rt, &model, 1, 1, (Some(Res::of(7)), false));
    assert_place(&rt, &model, 0, 0, (Some(Res::of(65_520)), true));
    assert_place(&rt, &model, 0, 2, (None, false));
    assert_columns(&rt, rt.alloc(), &model, 1, &[0, 1, 2])
}

// The layered matrix of one equation with a constant and a symbol at its one unknown.
#[test]
fn a_split_entry_has_an_auxiliary_column(rt: HostRuntime) -> Result<(), Fail> {
    let alloc = rt.alloc();
    let mut q = Mat::zeros(alloc, 1, 2)?;
    q.set(0, 0, Res::of(1));
    q.set(0, 1, Res::of(1));
    let mut t = Pattern::empty(alloc, 2);
    t.push_row(&[0, 1])?;
    let equations = Vec::from_slice(alloc, &[0])?;
    let columns = Vec::from_slice(alloc, &[Origin::Unknown(0), Origin::Split(0)])?;
    let q = EntryMat::of(alloc, &q)?;
    let layered = Layered::new(q, t, equations, Vec::from_slice(alloc, &[0])?, columns);
    assert_eq!(rt; layered.split(), 1);
    assert_eq!(rt; (layered.q_origin(0), layered.t_origin(0)), (0, 0));
    assert_eq!(rt; layered.column_origin(1), Origin::Split(0));
    Ok(())
}

#[test]
fn a_model_has_at_most_4096_unknowns(rt: HostRuntime) -> Result<(), Fail> {
    let mut model: Mixed<Res> = Mixed::new(rt.alloc())?;
    for number in 0..4096 {
        let name = format!(in rt.alloc(); "x{number}")?;
        assert!(rt; is_label(name.as_str()));
        model.add_unknown(name.as_str())?;
    }
    assert_eq!(rt; model.add_unknown("x4096"), Err(AddError::TooMany));
    assert_eq!(rt; model.add_unknown("x4095"), Err(AddError::Twice));
    assert_eq!(rt; model.find_or_add_unknown("x4096"), Err(AddError::TooMany));
    assert_eq!(rt; model.find_or_add_unknown("x4095"), Ok(4095));
    Ok(())
}
