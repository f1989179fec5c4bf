//! What a unit adds, put into a model.

ghost use Rattle.std.specs.Prelude.{◌≡◌, ◌<◌, ◌⊎◌, ◌++◌, ◌∷◌, [], All, IsTrue, false, length, map, IfErr, OnOk};
ghost use Rattle.std.specs.List.{IsDistinct};
ghost use Rattle.std.specs.Str.{bytes_eq};
ghost use Rattle.std.specs.String.{string_bytes};
ghost use Rattle.limits.specs.Limits.{equation_limit};
ghost use Rattle.refusals.specs.Faults.{OnBroken};
ghost use Rattle.refusals.specs.declared.Why.TheVariants.{TooMany};
ghost use Rattle.mixed_model.specs.Names.{has_name, is_label};
ghost use Rattle.term_model.specs.Putting.{IsPlaced, CountsAsTerm, LacksRoom, PutsTerms};
ghost use Rattle.term_model.specs.Systems.{IsModelOf, System};
ghost use Rattle.unit_equations.specs.Adding.{ArePlaced, AreSummands, IsNewPart};
ghost use Rattle.unit_equations.specs.Growing.{GrowsBy, IsOverLimit, equations_alone, unknowns_alone};
ghost use Rattle.unit_equations.specs.Parts.{equation, system_of, equation_terms, together};

use crate::part::{Summand, UnitEquation, UnitPart};
use mixed_model::{AddError, Mixed};
use refusals::Fault;
use residue_field::Field;
use term_model::put_value;

/// Adds the unknowns and the equations of a unit, whose names are new. Memory may be wanting, or room for them.
pub fn add_part<F: Field>(model: &mut Mixed<F>, part: &UnitPart<F>) -> Result<(), Fault>
    requires { IsNewPart F.modulus model.old.equations model.old.unknowns part.now }
    ensures added { OnOk result ((system : System) → ArePlaced system → IsModelOf F.modulus system model.old
        → IsModelOf F.modulus (together system (system_of part.now)) model.new) }
    ensures full { IfErr result (λ fault. OnBroken fault (λ why. (why ≡ TooMany)
        × ((equation_limit < length (model.old.equations ++ map (λ e. e.name) part.now.equations))
        ⊎ (equation_limit < length (model.old.unknowns ++ part.now.unknowns))))) }
{
    add_unknowns(model, &part.unknowns)?;
    add_equations(model, &part.equations)?;
    model.is_model();
    Ok(())
}

// Adds unknowns of these names.
fn add_unknowns<F: Field>(model: &mut Mixed<F>, names: &[String]) -> Result<(), Fault>
    requires labels { All (λ name. IsTrue (is_label name)) (map string_bytes names.now) }
    requires new { IsDistinct bytes_eq (model.old.unknowns ++ map string_bytes names.now) }
    ensures grown { OnOk result (GrowsBy F.modulus model.old model.new (unknowns_alone (map string_bytes names.now))) }
    ensures full { IfErr result (IsOverLimit (model.old.unknowns ++ map string_bytes names.now)) }
{
    for name in names {
        add_unknown(model, name)?;
    }
    Ok(())
}

// Adds an unknown of this name.
fn add_unknown<F: Field>(model: &mut Mixed<F>, name: &str) -> Result<(), Fault>
    requires label { IsTrue (is_label name.now) }
    requires new { has_name model.old.unknowns name.now ≡ false }
    ensures grown { OnOk result (GrowsBy F.modulus model.old model.new (unknowns_alone (name.now ∷ []))) }
    ensures full { IfErr result (IsOverLimit (model.old.unknowns ++ name.now ∷ [])) }
{
    model.is_model();
    model.add_unknown(name)?;
    Ok(())
}

// Adds equations.
fn add_equations<F: Field>(model: &mut Mixed<F>, equations: &[UnitEquation<F>]) -> Result<(), Fault>
    requires labels { All (λ equation. IsTrue (is_label equation.name)) equations.now }
    requires new { IsDistinct bytes_eq (model.old.equations ++ map (λ equation. equation.name) equations.now) }
    requires summands { All (λ equation. AreSummands F.modulus model.old.unknowns equation.summands) equations.now }
    ensures grown { OnOk result (GrowsBy F.modulus model.old model.new (equations_alone equations.now)) }
    ensures full { IfErr result (IsOverLimit (model.old.equations ++ map (λ equation. equation.name) equations.now)) }
{
    for equation in equations {
        add_equation(model, equation)?;
    }
    Ok(())
}

// Adds an equation.
fn add_equation<F: Field>(model: &mut Mixed<F>, equation: &UnitEquation<F>) -> Result<(), Fault>
    requires label { IsTrue (is_label equation.now.name) }
    requires new { has_name model.old.equations equation.now.name ≡ false }
    requires summands { AreSummands F.modulus model.old.unknowns equation.now.summands }
    ensures grown { OnOk result (GrowsBy F.modulus model.old model.new (equations_alone (equation.now ∷ []))) }
    ensures full { IfErr result (IsOverLimit (model.old.equations ++ equation.now.name ∷ [])) }
{
    model.is_model();
    model.add_equation(&equation.name)?;
    put_summands(model, &equation.name, &equation.summands)?;
    Ok(())
}

// Puts what an equation has, where nothing stands.
fn put_summands<F: Field>(
    model: &mut Mixed<F>,
    name: &str,
    summands: &[Summand<F>],
) -> Result<(), AddError>
    requires placed { All (IsPlaced model.old.equations model.old.unknowns)
        (equation_terms (equation name.now summands.now)) }
    requires constants { All CountsAsTerm (equation_terms (equation name.now summands.now)) }
    ensures equations { model.new.equations ≡ model.old.equations }
    ensures unknowns { model.new.unknowns ≡ model.old.unknowns }
    ensures says { OnOk result (PutsTerms F.modulus model.old model.new
        (equation_terms (equation name.now summands.now))) }
    ensures refused { IfErr result (LacksRoom F.modulus model.old (equation_terms (equation name.now summands.now))) }
{
    for summand in summands {
        put_value(model, name, &summand.unknown, summand.value)?;
    }
    Ok(())
}
