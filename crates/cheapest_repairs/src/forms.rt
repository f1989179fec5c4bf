//! Canonical forms of some equations of a model.

ghost use Rattle.std.specs.Prelude.{length, IfOk};
ghost use Rattle.std.specs.List.{All};
ghost use Rattle.mixed_model.specs.Models.{mixed_matrix_of};
ghost use Rattle.cert_text.specs.Ranges.{AreRising, IsCcf};
ghost use Rattle.cert_checker.specs.Answers.{IsRightFor};
ghost use Rattle.restricted_models.specs.Restrictions.{restricted};

use ccf_builder::build;
use cert_text::Ccf;
use mixed_layering::layer;
use mixed_model::Mixed;
use out_of_memory::NoMemory;
use repair_checker::Level;
use residue_field::Field;
use restricted_models::restrict;
use std::alloc::Global;

/// A canonical form of the model with the equations of a list alone, and with all unknowns. The list rises; equations are
/// counted from 0.
pub fn form_of<F: Field>(
    alloc: Global,
    model: &Mixed<F>,
    equations: &[usize],
) -> Result<Ccf<F>, NoMemory>
    requires { AreRising (length model.now.equations) equations.now }
    ensures { IfOk result (IsRightFor F.modulus (mixed_matrix_of (restricted model.now equations.now))) }
{
    let part = restrict(model, equations)?;
    let form = form_of_all(alloc, &part)?;
    Ok(form)
}

// A canonical form of a model.
fn form_of_all<F: Field>(alloc: Global, model: &Mixed<F>) -> Result<Ccf<F>, NoMemory>
    ensures { IfOk result (IsRightFor F.modulus (mixed_matrix_of model.now)) }
{
    model.is_model();
    let layered = layer(alloc, model)?;
    let form = build(alloc, &layered)?;
    Ok(form)
}

/// Tells a proof what the forms of levels keep, whoever made them.
pub fn are_in_form<F: Field>(levels: &[Level<F>])
    ensures { All (λ level. IsCcf F.modulus level.ccf) levels.now }
{
    for level in levels {
        level.ccf.is_in_form();
    }
}
