//! Values that are put.

use mixed_model::{AddError, Mixed};
use residue_field::{Field, Res};
use std::process::Abort;
use std::test::Fail;
use term_model::{Value, dotted, put_value};

#[test]
fn words_are_joined_by_a_point(rt: HostRuntime) -> Result<(), Fail> {
    assert_eq!(rt; dotted(rt.alloc(), "law", "R1")?.as_str(), "law.R1");
    Ok(())
}

// The symbol stands at the first unknown, the constant at the second.
fn assert_places(rt: &impl Abort, model: &Mixed<Res>) {
    assert!(rt; 0 < model.equations() && 1 < model.unknowns());
    assert_eq!(rt; (model.symbol(0, 0), model.symbol(0, 1)), (true, false));
    assert_eq!(rt; model.constant(0, 1).map(Field::value), Some(1));
    assert!(rt; model.constant(0, 0).is_none());
}

#[test]
fn values_stand_at_their_places(rt: HostRuntime) -> Result<(), Fail> {
    let mut model: Mixed<Res> = Mixed::new(rt.alloc())?;
    model.add_unknown("x")?;
    model.add_unknown("y")?;
    model.add_equation("law.R1")?;
    put_value(&mut model, "law.R1", "y", Value::Constant(Res::one()))?;
    put_value(&mut model, "law.R1", "x", Value::Symbol)?;
    assert_places(&rt, &model);
    let again = put_value(&mut model, "law.R1", "x", Value::Symbol);
    assert_eq!(rt; again, Err(AddError::Twice));
    Ok(())
}
