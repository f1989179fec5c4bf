//! Small models with numbers for their symbols.

ghost use Rattle.std.specs.Prelude.{◌≡◌, ◌<◌, length};
ghost use Rattle.residue_theory.specs.Sums.{size_on};
ghost use Rattle.value_list_laws.specs.ListedValues.{symbol_count};
ghost use Rattle.mixed_model.specs.Models.{mixed_matrix_of, symbol_of};
ghost use Rattle.block_solver.specs.Solving.{IsRightFormFor};

use block_solver::{Answer, solve};
use ccf_builder::build;
use cert_text::Ccf;
use matrix_reader::read;
use mixed_layering::layer;
use mixed_model::{Layered, Mixed};
use out_of_memory::NoMemory;
use residue_field::{Field, Res};
use std::alloc::Global;
use std::process::Abort;
use std::test::Fail;

// How many symbols an equation has.
fn symbols_of(model: &Mixed<Res>, i: usize) -> usize
    requires { i < length model.now.equations }
    ensures { result ≡ size_on (symbol_of model.now i) (length model.now.unknowns) }
{
    let mut count = 0;
    for j in 0..model.unknowns() {
        if model.symbol(i, j) {
            count += 1;
        }
    }
    count
}

// How many symbols a model has.
fn symbols(model: &Mixed<Res>) -> usize
    ensures { result ≡ symbol_count (mixed_matrix_of model.now) }
{
    let mut count = 0;
    for i in 0..model.equations() {
        count += symbols_of(model, i);
    }
    count
}

// What solving a model with these numbers gives, by a form that is right for it.
fn solved(
    rt: &impl Abort,
    alloc: Global,
    model: &Mixed<Res>,
    layered: &Layered<Res>,
    form: &Ccf<Res>,
    values: &[Res],
    right: &[Res],
) -> Result<Answer<Res>, NoMemory>
    requires { IsRightFormFor 65521 model.now layered.now form.now }
{
    assert!(rt; values.len() == symbols(model));
    assert!(rt; right.len() == model.equations());
    solve(alloc, model, layered, form, values, right)
}

// The same, by the form that is built.
fn answered(
    rt: &impl Abort,
    alloc: Global,
    model: &Mixed<Res>,
    values: &[Res],
    right: &[Res],
) -> Result<Answer<Res>, Fail> {
    // tells a proof that it is a model
    model.is_model();
    let layered = layer(alloc, model)?;
    let form = build(alloc, &layered)?;
    Ok(solved(rt, alloc, model, &layered, &form, values, right)?)
}

// The answer as text.
fn told(alloc: Global, answer: &Answer<Res>) -> Result<String, Fail> {
    Ok(match answer {
        Answer::Open => format!(in alloc; "open")?,
        Answer::Singular(k) => format!(in alloc; "singular {k}")?,
        Answer::Solution(x) => {
            let mut text = format!(in alloc; "solution")?;
            for number in x.as_slice() {
                let value = number.value();
                text.push_str(&format!(in alloc; " {value}")?)?;
            }
            text
        }
    })
}

// That a model with these numbers has this answer.
fn tells(
    rt: &impl Abort,
    alloc: Global,
    model: &Mixed<Res>,
    values: &[Res],
    right: &[Res],
    wanted: &str,
) -> Result<(), Fail> {
    let answer = answered(rt, alloc, model, values, right)?;
    assert_eq!(rt; told(alloc, &answer)?.as_str(), wanted);
    Ok(())
}

// The model of an equation list.
fn listed(rt: &impl Abort, alloc: Global, text: &str) -> Result<Mixed<Res>, Fail> {
    assert!(rt; text.len() < 999);
    Ok(read(alloc, text.as_bytes())?)
}

// A block that is regular, and one of which the last is singular.
fn triangle_is_told(rt: &impl Abort, alloc: Global, model: &Mixed<Res>) -> Result<(), Fail> {
    let right = [Res::of(7), Res::of(10)];
    let regular = [Res::of(2), Res::of(3), Res::of(5)];
    let singular = [Res::of(2), Res::of(3), Res::of(0)];
    tells(rt, alloc, model, &regular, &right, "solution 2 1")?;
    tells(rt, alloc, model, &singular, &right, "singular 2")
}

#[test]
fn a_triangle_of_symbols_is_told(rt: HostRuntime) -> Result<(), Fail> {
    let alloc = rt.alloc();
    triangle_is_told(&rt, alloc, &listed(&rt, alloc, "eq a x=? y=?\neq b x=?\n")?)
}

// With an auxiliary column.
fn mixed_is_told(rt: &impl Abort, alloc: Global, model: &Mixed<Res>) -> Result<(), Fail> {
    let right = [Res::of(3), Res::of(4)];
    tells(rt, alloc, model, &[Res::of(2)], &right, "solution 2 1")?;
    tells(rt, alloc, model, &[Res::of(1)], &right, "singular 2")
}

#[test]
fn a_split_equation_is_told(rt: HostRuntime) -> Result<(), Fail> {
    let alloc = rt.alloc();
    mixed_is_told(
        &rt,
        alloc,
        &listed(&rt, alloc, "eq a x=1 y=1\neq b x=1 y=?\n")?,
    )
}

#[test]
fn an_unknown_too_many_is_told(rt: HostRuntime) -> Result<(), Fail> {
    let alloc = rt.alloc();
    tells(
        &rt,
        alloc,
        &listed(&rt, alloc, "unknown x\n")?,
        &[],
        &[],
        "open",
    )
}
