//! Terms put into a model.

ghost use Rattle.std.specs.Prelude.{◌≡◌, ◌∷◌, [], All, map, OnOk, IfErr};
ghost use Rattle.term_model.specs.Putting.{CountsAsTerm, LacksRoom, PutsTerms};
ghost use Rattle.netlist_reader.specs.Numbers.{StandsWithin, name_term};

use crate::term::Term;
use mixed_model::{AddError, Mixed};
use residue_field::Field;
use term_model::put_value_at;

/// Puts terms into a model, at whose places nothing stands: memory alone may be wanting.
pub(crate) fn put_terms<F: Field>(model: &mut Mixed<F>, terms: &[Term<F>]) -> Result<(), AddError>
    requires within { All (StandsWithin model.old.equations model.old.unknowns) terms.now }
    requires constants { All CountsAsTerm (map (name_term model.old.equations model.old.unknowns) terms.now) }
    ensures equations { model.new.equations ≡ model.old.equations }
    ensures unknowns { model.new.unknowns ≡ model.old.unknowns }
    ensures says { OnOk result (PutsTerms F.modulus model.old model.new
        (map (name_term model.old.equations model.old.unknowns) terms.now)) }
    ensures refused { IfErr result (LacksRoom F.modulus model.old
        (map (name_term model.old.equations model.old.unknowns) terms.now)) }
{
    for term in terms {
        put_term(model, term)?;
    }
    Ok(())
}

// Puts a term at its place.
fn put_term<F: Field>(model: &mut Mixed<F>, term: &Term<F>) -> Result<(), AddError>
    requires within { StandsWithin model.old.equations model.old.unknowns term.now }
    requires constant { CountsAsTerm (name_term model.old.equations model.old.unknowns term.now) }
    ensures equations { model.new.equations ≡ model.old.equations }
    ensures unknowns { model.new.unknowns ≡ model.old.unknowns }
    ensures says { OnOk result (PutsTerms F.modulus model.old model.new
        (name_term model.old.equations model.old.unknowns term.now ∷ [])) }
    ensures refused { IfErr result (LacksRoom F.modulus model.old
        (name_term model.old.equations model.old.unknowns term.now ∷ [])) }
{
    put_value_at(model, term.equation, term.unknown, term.value)
}
