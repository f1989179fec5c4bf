//! Some equations of a model alone.

ghost use Rattle.std.specs.Prelude.{◌≡◌, ◌≢◌, ◌+◌, ◌∷◌, ◌++◌, ℕ, [], IfNone, IfOk, IfSome, length, slice_index};
ghost use Rattle.cert_text.specs.Ranges.{AreRising};
ghost use Rattle.restricted_models.specs.Restrictions.{restricted};

use mixed_model::Mixed;
use out_of_memory::NoMemory;
use residue_field::Field;

/// The equations of a list alone, with all unknowns. The list rises; equations are counted from 0.
pub fn restrict<F: Field>(model: &Mixed<F>, equations: &[usize]) -> Result<Mixed<F>, NoMemory>
    requires { AreRising (length model.now.equations) equations.now }
    ensures { IfOk result (λ part. part ≡ restricted model.now equations.now) }
{
    model.is_model();
    let mut part = model.copy()?;
    let mut left = equations;
    for k in (0..model.equations()).rev() {
        match without_last(left, k) {
            Some(before) => left = before,
            None => part.remove_equation(k),
        }
    }
    Ok(part)
}

// The list without its last item, where that is k.
fn without_last(list: &[usize], k: usize) -> Option<&[usize]>
    ensures some { IfSome result (λ before. list.now ≡ before.now ++ k ∷ []) }
    ensures none { IfNone result ((place : ℕ) → place + 1 ≡ length list.now → slice_index list.now place ≢ k) }
{
    let (last, before) = list.split_last()?;
    if *last == k { Some(before) } else { None }
}
