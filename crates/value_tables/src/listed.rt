//! Equation lists, and the first values of ones and twos with which they reach their rank.

use matrix_reader::read;
use residue_field::{Field, Res};
use std::alloc::Global;
use std::process::Abort;
use std::test::Fail;
use value_lists::nonzero_values;

// The values of an equation list, one after another.
fn told(rt: &impl Abort, alloc: Global, text: &str) -> Result<String, Fail> {
    assert!(rt; text.len() < 999);
    let model = read::<Res>(alloc, text.as_bytes())?;
    let values = nonzero_values(alloc, &model)?;
    let mut told = String::new(alloc);
    for value in &values {
        let number = value.value();
        told.push_str(&format!(in alloc; "{number}")?)?;
    }
    Ok(told)
}

#[test]
fn first_values_reach_the_rank(rt: HostRuntime) -> Result<(), Fail> {
    let alloc = rt.alloc();
    for (text, values) in [
        ("", ""),
        ("eq a x=? y=?\neq b x=? y=?\n", "1112"),
        ("eq a x=-1+?\n", "2"),
        ("eq a x=? y=?\neq b y=1 z=?\neq c x=? y=-1 z=?\n", "11111"),
        ("eq a x=? y=?\neq b y=1 z=?\neq c x=? y=2 z=?\n", "11112"),
    ] {
        assert_eq!(rt; told(&rt, alloc, text)?.as_str(), values);
    }
    Ok(())
}
