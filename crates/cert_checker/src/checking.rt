//! The first rule that a form breaks.

ghost use Rattle.std.specs.Prelude.{IfErr, IfOk};
ghost use Rattle.cert_text.specs.Readings.{ColumnsDiffer, column_lists};
ghost use Rattle.mixed_matrices.specs.LayeredMatrices.{LayeredMatrix};
ghost use Rattle.mixed_model.specs.Layers.{layered_matrix_of};
ghost use Rattle.mixed_model.specs.Models.{mixed_matrix_of};
ghost use Rattle.part_checker.specs.Told.{IsPrintedBy, TellsParts};
ghost use Rattle.cert_checker.specs.Answers.{IsRightFor, IsWhyBroken, IsWhyNot, TellsOfParts};
ghost use Rattle.cert_checker.specs.Checking.{KeepsFirst};
ghost use Rattle.cert_checker.specs.Standing.{TellsPlaces};

use crate::rules::{
    column_places, has_inverse, has_matching, has_placed_rows, has_product, has_shape,
    has_unit_columns, is_counted,
};
use cert_text::Ccf;
use mixed_layering::layer;
use mixed_model::{Layered, Mixed};
use out_of_memory::NoMemory;
use part_checker::{has_lower_lists, has_reasons, leads_down, told_of};
use residue_field::Field;
use std::alloc::Global;

/// Why the check of a form does not end well.
#[derive(Clone, Copy, Debug, PartialEq, Eq)]
pub enum CheckError {
    /// The form breaks this rule, and none before it.
    Reject { rule: u32 },
    /// There was not enough memory.
    NoMemory,
}

impl From<NoMemory> for CheckError {
    ghost use Rattle.std.specs.Prelude.{◌≡◌};
    ghost use Rattle.cert_checker.specs.declared.checking.CheckError.TheVariants.{NoMemory};

    ghost from_gives = { λ _ error. error ≡ NoMemory };

    fn from(_error: NoMemory) -> CheckError {
        CheckError::NoMemory
    }
}

// Tries the rules 2 to 9 on a form of a model and its layered matrix, and tells in which part each column stands.
fn check_rows<F: Field>(
    alloc: Global,
    model: &Mixed<F>,
    layered: &Layered<F>,
    form: &Ccf<F>,
) -> Result<Vec<usize>, CheckError>
    ensures kept { IfOk result (λ parts.
        KeepsFirst F.modulus (mixed_matrix_of model.now) (layered_matrix_of layered.now) form.now 8
        × TellsPlaces (layered_matrix_of layered.now).columns (column_lists form.now) parts.items) }
    ensures broken { IfErr result
        (IsWhyBroken F.modulus (mixed_matrix_of model.now) (layered_matrix_of layered.now) form.now) }
{
    if !has_shape(model, layered, form) {
        return Err(CheckError::Reject { rule: 2 });
    }
    if !has_inverse(alloc, layered, form)? {
        return Err(CheckError::Reject { rule: 3 });
    }
    if !has_product(alloc, layered, form)? {
        return Err(CheckError::Reject { rule: 4 });
    }
    if !has_unit_columns(alloc, layered, form)? {
        return Err(CheckError::Reject { rule: 5 });
    }
    if !has_matching(alloc, layered, form)? {
        return Err(CheckError::Reject { rule: 6 });
    }
    if !is_counted(model, layered, form) {
        return Err(CheckError::Reject { rule: 7 });
    }
    let Some(columns) = column_places(alloc, layered, form)? else {
        return Err(CheckError::Reject { rule: 8 });
    };
    if !has_placed_rows(alloc, layered, form, &columns)? {
        return Err(CheckError::Reject { rule: 9 });
    }
    Ok(columns)
}

// Tries the rules 10 to 12, where `parts` tells in which part each column stands.
fn check_parts<F: Field>(alloc: Global, form: &Ccf<F>, parts: &[usize]) -> Result<(), CheckError>
    requires differ { ColumnsDiffer form.now.base form.now.mates }
    requires parts { TellsParts form.now parts.now }
    ensures { (L : LayeredMatrix) → IsPrintedBy L form.now → TellsOfParts F.modulus L form.now result }
{
    let told = told_of(alloc, form, parts)?;
    if !leads_down(form, parts, &told) {
        return Err(CheckError::Reject { rule: 10 });
    }
    if !has_reasons(alloc, form, parts, &told)? {
        return Err(CheckError::Reject { rule: 11 });
    }
    if !has_lower_lists(alloc, form, parts, &told)? {
        return Err(CheckError::Reject { rule: 12 });
    }
    Ok(())
}

// Tries the rules 2 to 12 on a form of a model and its layered matrix.
fn check_layered<F: Field>(
    alloc: Global,
    model: &Mixed<F>,
    layered: &Layered<F>,
    form: &Ccf<F>,
) -> Result<(), CheckError>
    ensures kept { IfOk result (λ kept.
        KeepsFirst F.modulus (mixed_matrix_of model.now) (layered_matrix_of layered.now) form.now 11) }
    ensures broken { IfErr result
        (IsWhyBroken F.modulus (mixed_matrix_of model.now) (layered_matrix_of layered.now) form.now) }
{
    let parts = check_rows(alloc, model, layered, form)?;
    check_parts(alloc, form, &parts)
}

/// Checks a printed form, whoever made it: it is right for the model, or `Reject` tells which of the rules 2 to 12 is the
/// first that it breaks. (Murota, chapters 2 and 4.)
pub fn check<F: Field>(alloc: Global, model: &Mixed<F>, form: &Ccf<F>) -> Result<(), CheckError>
    ensures right { IfOk result (λ right. IsRightFor F.modulus (mixed_matrix_of model.now) form.now) }
    ensures rejected { IfErr result (IsWhyNot F.modulus (mixed_matrix_of model.now) form.now) }
{
    let layered = layer(alloc, model)?;
    form.is_in_form();
    check_layered(alloc, model, &layered, form)
}
