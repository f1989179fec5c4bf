//! Models that are copied and edited, against models that are built anew.

ghost use Rattle.std.specs.Prelude.{◌≢◌};

use mixed_model::{Mixed, is_label};
use residue_field::{Field, Res};
use std::alloc::Global;
use std::process::Abort;
use std::test::Fail;

// The constant of a place and whether there is a symbol.
type Place = (Option<u64>, bool);

// The name of an equation, and its places at three unknowns.
type Equation = (&'static str, [Place; 3]);

const EQUATIONS: [Equation; 3] = [
    ("mass", [(Some(1), false), (None, true), (None, false)]),
    ("heat", [(None, false), (Some(2), true), (Some(3), false)]),
    ("flow", [(None, true), (None, false), (Some(65_520), true)]),
];

// Nothing, a constant, a symbol, and both.
const PLACES: [Place; 4] = [
    (None, false),
    (Some(5), false),
    (None, true),
    (Some(7), true),
];

fn residue(rt: &impl Abort, number: u64) -> Res
    ensures { result ≢ 0 }
{
    let residue = Res::of(number);
    assert!(rt; residue.value() != 0);
    residue
}

fn put(
    rt: &impl Abort,
    model: &mut Mixed<Res>,
    i: usize,
    j: usize,
    place: Place,
) -> Result<(), Fail> {
    assert!(rt; i < model.equations() && j < model.unknowns());
    if let Some(number) = place.0 {
        model.put_constant(i, j, residue(rt, number))?;
    }
    assert!(rt; i < model.equations() && j < model.unknowns());
    if place.1 {
        model.put_symbol(i, j)?;
    }
    Ok(())
}

fn set(
    rt: &impl Abort,
    model: &mut Mixed<Res>,
    i: usize,
    j: usize,
    place: Place,
) -> Result<(), Fail> {
    assert!(rt; i < model.equations() && j < model.unknowns());
    let constant = match place.0 {
        Some(number) => Some(residue(rt, number)),
        None => None,
    };
    model.set_place(i, j, constant, place.1)?;
    Ok(())
}

fn add(rt: &impl Abort, model: &mut Mixed<Res>, equation: Equation) -> Result<(), Fail> {
    let (name, places) = equation;
    assert!(rt; is_label(name));
    let i = model.add_equation(name)?;
    for (j, place) in places.iter().enumerate() {
        put(rt, model, i, j, *place)?;
    }
    Ok(())
}

fn add_unknowns(model: &mut Mixed<Res>) -> Result<(), Fail> {
    model.add_unknown("x")?;
    model.add_unknown("y")?;
    model.add_unknown("z")?;
    Ok(())
}

fn add_equations(
    rt: &impl Abort,
    model: &mut Mixed<Res>,
    equations: &[Equation],
) -> Result<(), Fail> {
    for equation in equations {
        add(rt, model, *equation)?;
    }
    Ok(())
}

fn built(rt: &impl Abort, alloc: Global, equations: &[Equation]) -> Result<Mixed<Res>, Fail> {
    let mut model = Mixed::new(alloc)?;
    add_unknowns(&mut model)?;
    add_equations(rt, &mut model, equations)?;
    Ok(model)
}

fn assert_same_place(rt: &impl Abort, model: &Mixed<Res>, want: &Mixed<Res>, i: usize, j: usize) {
    assert!(rt; i < model.equations() && j < model.unknowns());
    assert!(rt; i < want.equations() && j < want.unknowns());
    assert!(rt; model.constant(i, j) == want.constant(i, j), "{i}, {j}");
    assert_eq!(rt; model.symbol(i, j), want.symbol(i, j), "{i}, {j}");
}

fn assert_same_equation(rt: &impl Abort, model: &Mixed<Res>, want: &Mixed<Res>, i: usize) {
    assert!(rt; i < model.equations() && i < want.equations());
    let name = want.equation_name(i);
    assert_eq!(rt; model.equation_name(i), name);
    assert_eq!(rt; model.find_equation(name), Some(i));
    assert_eq!(rt; model.entries(i).count(), want.entries(i).count(), "{i}");
    for j in 0..want.unknowns() {
        assert_same_place(rt, model, want, i, j);
    }
}

fn assert_same(rt: &impl Abort, model: &Mixed<Res>, want: &Mixed<Res>) {
    assert_eq!(rt; model.equations(), want.equations());
    assert_eq!(rt; model.unknowns(), want.unknowns());
    for i in 0..want.equations() {
        assert_same_equation(rt, model, want, i);
    }
}

// That a model is the one that is built of these equations.
fn assert_built(
    rt: &impl Abort,
    alloc: Global,
    model: &Mixed<Res>,
    equations: &[Equation],
) -> Result<(), Fail> {
    let want = built(rt, alloc, equations)?;
    assert_same(rt, model, &want);
    Ok(())
}

fn edit_copy(rt: &impl Abort, model: &Mixed<Res>) -> Result<(), Fail> {
    let mut copy = model.copy()?;
    assert_same(rt, &copy, model);
    set(rt, &mut copy, 1, 1, (None, false))
}

#[test]
fn a_model_stays_where_its_copy_is_edited(rt: HostRuntime) -> Result<(), Fail> {
    let model = built(&rt, rt.alloc(), &EQUATIONS)?;
    edit_copy(&rt, &model)?;
    assert_built(&rt, rt.alloc(), &model, &EQUATIONS)
}

fn remove(rt: &impl Abort, model: &mut Mixed<Res>, i: usize) {
    assert!(rt; i < model.equations());
    model.remove_equation(i);
}

fn assert_removed(rt: &impl Abort, alloc: Global, i: usize, left: &[Equation]) -> Result<(), Fail> {
    let mut model = built(rt, alloc, &EQUATIONS)?;
    remove(rt, &mut model, i);
    assert_built(rt, alloc, &model, left)
}

#[test]
fn later_equations_move_up(rt: HostRuntime) -> Result<(), Fail> {
    let [mass, heat, flow] = EQUATIONS;
    assert_removed(&rt, rt.alloc(), 0, &[heat, flow])?;
    assert_removed(&rt, rt.alloc(), 1, &[mass, flow])?;
    assert_removed(&rt, rt.alloc(), 2, &[mass, heat])
}

// A name that was taken out may come again, and its equation is the last one.
#[test]
fn a_removed_name_comes_again(rt: HostRuntime) -> Result<(), Fail> {
    let [mass, heat, flow] = EQUATIONS;
    let mut model = built(&rt, rt.alloc(), &EQUATIONS)?;
    remove(&rt, &mut model, 0);
    add(&rt, &mut model, mass)?;
    assert_built(&rt, rt.alloc(), &model, &[heat, flow, mass])
}

// An equation with this between two other places.
fn around(place: Place) -> Equation {
    ("mass", [(Some(1), false), place, (None, true)])
}

fn assert_set(rt: &impl Abort, alloc: Global, old: Place, new: Place) -> Result<(), Fail> {
    let mut model = built(rt, alloc, &[around(old)])?;
    set(rt, &mut model, 0, 1, new)?;
    assert_built(rt, alloc, &model, &[around(new)])
}

fn assert_set_over(rt: &impl Abort, alloc: Global, old: Place) -> Result<(), Fail> {
    for new in PLACES {
        assert_set(rt, alloc, old, new)?;
    }
    Ok(())
}

#[test]
fn a_place_holds_what_is_set(rt: HostRuntime) -> Result<(), Fail> {
    for old in PLACES {
        assert_set_over(&rt, rt.alloc(), old)?;
    }
    Ok(())
}
