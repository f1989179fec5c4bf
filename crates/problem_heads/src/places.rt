//! What a model has of what a head names.

ghost use Rattle.std.specs.Prelude.{◌≡◌, ◌∷◌, []};
ghost use Rattle.problem_heads.specs.Problems.{is_declared};

use crate::given::HeadNumber;
use mixed_model::Mixed;
use residue_field::Field;

/// Whether a model has what a number was given for: its equation, or an equation and an unknown with a symbol between
/// them.
#[tactic(auto, using(crate::proofs::Declared::position_is_some))]
pub(crate) fn is_declared<F: Field, N: Copy + Drop>(model: &Mixed<F>, given: &HeadNumber<N>) -> bool
    ensures { result ≡ is_declared model.now given.now.names }
{
    match &given.unknown {
        None => model.find_equation(&given.equation).is_some(),
        Some(unknown) => has_symbol_between(model, &given.equation, unknown),
    }
}

fn has_symbol_between<F: Field>(model: &Mixed<F>, equation: &str, unknown: &str) -> bool
    ensures { result ≡ is_declared model.now (equation.now ∷ unknown.now ∷ []) }
{
    match (model.find_equation(equation), model.find_unknown(unknown)) {
        (Some(i), Some(j)) => model.symbol(i, j),
        _ => false,
    }
}
