//! What a text gives is one model or one refusal.

ghost use Rattle.std.specs.Prelude.{◌≡◌, ◌⊎◌, ℕ, List};
ghost use Rattle.refusals.specs.declared.Why.{Why};
ghost use Rattle.residue_theory.specs.Residues.{IsPrime};
ghost use Rattle.mixed_model.specs.Models.{MixedModel};
ghost use Rattle.matrix_reader.specs.Models.{GivesModel, IsFirstBroken, IsRefusal};

use refusals::{ReadModel, Refused};

/// A text gives at most one model.
pub fn a_text_gives_one_model()
    ensures { (p : ℕ) (text : List ℕ) (a b : MixedModel) → GivesModel p text a → GivesModel p text b → a ≡ b }
{}

/// A text that gives a model has no first broken rule, and each text has at most one.
pub fn a_text_has_one_first_broken_rule()
    ensures none { (p : ℕ) (text : List ℕ) (model : MixedModel) (n : ℕ) (why : Why)
        → GivesModel p text model → ¬ IsFirstBroken p text n why }
    ensures one { (p : ℕ) (text : List ℕ) (m n : ℕ) (v w : Why)
        → IsFirstBroken p text m v → IsFirstBroken p text n w → (m ≡ n) × (v ≡ w) }
{}

/// Modulo a prime, each text gives a model or is refused.
pub fn each_text_gives_a_model_or_is_refused()
    ensures { (p : ℕ) → IsPrime p → (text : List ℕ)
        → ((model : MixedModel) × GivesModel p text model)
        ⊎ ((refused : Refused) × IsRefusal p text (ReadModel.Refused refused)) }
{}
