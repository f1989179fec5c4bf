//! Problems, read from a text.

ghost use Rattle.std.specs.Prelude.{◌≤◌, length, IfErr, IfOk};
ghost use Rattle.limits.specs.Limits.{input_limit};
ghost use Rattle.input_problems.specs.ProblemTexts.{GivesProblem, IsWhyNoProblemOf};

use crate::behind::read_behind;
use cert_text::Kind;
use mixed_model::Mixed;
use problem_heads::{Form, Problem, attach, read_head};
use refusals::ReadModel;
use residue_field::Field;
use std::alloc::Global;

/// The model and the problem that a text of at most 8,388,608 bytes gives: a head of this form, and behind its line
/// `model` a model of this kind.
///
/// The refusals in order: those of the head; those of the model, whose lines are counted on from the head's; and those
/// of the head at the model.
pub fn read_problem<F: Field>(
    alloc: Global,
    kind: Kind,
    form: Form,
    text: &[u8],
) -> Result<(Mixed<F>, Problem<F>), ReadModel>
    requires { length text.now ≤ input_limit }
    ensures problem { IfOk result (λ both. GivesProblem F.number F.modulus kind form text.now both.0 both.1) }
    ensures refused { IfErr result (IsWhyNoProblemOf F.modulus kind form text.now) }
{
    let head = read_head::<F>(alloc, text, form)?;
    let model = read_behind(alloc, kind, text, head.start(), head.lines())?;
    let problem = attach(alloc, &head, &model)?;
    Ok((model, problem))
}
