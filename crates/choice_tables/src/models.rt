//! Models from equation lists.

use matrix_reader::read;
use mixed_model::Mixed;
use residue_field::Res;
use std::alloc::Global;
use std::process::Abort;
use std::test::Fail;

/// Three equations of one unknown, with the constants 1, 2 and 3.
pub(crate) const THREE_OF_ONE: &str = "eq a x=1\neq b x=2\neq c x=3\n";

/// Two equations of two unknowns: one with a constant at the first unknown and a symbol at the second, and one with a
/// symbol at the second.
pub(crate) const SPLIT_PAIR: &str = "eq a x=1 y=?\neq b y=?\n";

/// One equation with nothing.
pub(crate) const LONE_EQUATION: &str = "eq a\n";

/// The model of an equation list.
pub(crate) fn model_of(rt: &impl Abort, alloc: Global, text: &str) -> Result<Mixed<Res>, Fail> {
    assert!(rt; text.len() < 999);
    Ok(read(alloc, text.as_bytes())?)
}

/// The numbers as text, each with a blank before it.
pub(crate) fn tell_numbers(
    alloc: Global,
    numbers: &[usize],
    told: &mut String,
) -> Result<(), Fail> {
    for number in numbers {
        told.push_str(&format!(in alloc; " {number}")?)?;
    }
    Ok(())
}
