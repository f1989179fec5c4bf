//! Conflict sets.

ghost use Rattle.std.specs.Prelude.{◌<◌, length};

use crate::models::{LONE_EQUATION, SPLIT_PAIR, THREE_OF_ONE, model_of, tell_numbers};
use equation_choice::conflict_set;
use mixed_model::Mixed;
use residue_field::Res;
use std::alloc::Global;
use std::process::Abort;
use std::test::Fail;

// The conflict set of an equation.
fn tell_set(
    alloc: Global,
    model: &Mixed<Res>,
    equation: usize,
    told: &mut String,
) -> Result<(), Fail>
    requires { equation < length model.now.equations }
{
    match conflict_set(alloc, model, equation)? {
        Some(set) => tell_numbers(alloc, &set, told)?,
        None => told.push_str(" none")?,
    }
    told.push_str(";")?;
    Ok(())
}

// The conflict set of each equation of a list.
fn told(rt: &impl Abort, alloc: Global, text: &str) -> Result<String, Fail> {
    let model = model_of(rt, alloc, text)?;
    let mut told = String::new(alloc);
    for equation in 0..model.equations() {
        tell_set(alloc, &model, equation, &mut told)?;
    }
    Ok(told)
}

#[test]
fn surplus_equations_have_conflict_sets(rt: HostRuntime) -> Result<(), Fail> {
    for (text, wanted) in [
        // the first equation clashes with the second one, which is left out last, and each other one with the first
        (THREE_OF_ONE, " 0 1; 0 1; 0 2;"),
        (LONE_EQUATION, " 0;"),
        (SPLIT_PAIR, " none; none;"),
    ] {
        assert_eq!(rt; told(&rt, rt.alloc(), text)?.as_str(), wanted);
    }
    Ok(())
}
