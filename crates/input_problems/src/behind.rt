//! The model behind a head.

ghost use Rattle.std.specs.Prelude.{◌≡◌, ◌≤◌, length, IfErr, IfOk};
ghost use Rattle.limits.specs.Limits.{input_limit};
ghost use Rattle.input_kinds.specs.Kinds.{GivesModel};
ghost use Rattle.problem_heads.specs.Heads.{head_of, lines_before, model_text};
ghost use Rattle.input_problems.specs.ProblemTexts.{FitsBehind, IsWhyNoneBehind, why_behind};

use cert_text::Kind;
use input_kinds::read_model;
use mixed_model::Mixed;
use problem_heads::counted_on;
use refusals::ReadModel;
use residue_field::Field;
use std::alloc::Global;

/// The model of this kind behind the head of a text, which ends at `start` and has so many lines.
pub(crate) fn read_behind<F: Field>(
    alloc: Global,
    kind: Kind,
    text: &[u8],
    start: usize,
    lines: u32,
) -> Result<Mixed<F>, ReadModel>
    requires few { length text.now ≤ input_limit }
    requires start { start ≡ length (head_of text.now) }
    requires lines { lines ≡ lines_before text.now }
    ensures model { IfOk result (GivesModel F.modulus kind (model_text text.now)) }
    ensures refused { IfErr result (IsWhyNoneBehind F.modulus kind text.now) }
{
    match read_model(alloc, kind, &text[start..]) {
        Ok(model) => Ok(model),
        Err(why) => Err(counted_why(why, lines)),
    }
}

// Why a text that stands behind so many lines is not read.
fn counted_why(why: ReadModel, lines: u32) -> ReadModel
    requires { FitsBehind lines why }
    ensures { result ≡ why_behind lines why }
{
    match why {
        ReadModel::Refused(refused) => ReadModel::Refused(counted_on(refused, lines)),
        ReadModel::NoMemory => ReadModel::NoMemory,
    }
}
