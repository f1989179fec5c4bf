//! What a flowsheet gives is one model or one refusal.

ghost use Rattle.std.specs.Prelude.{◌≡◌, ◌<◌, ◌⊎◌, ℕ, List};
ghost use Rattle.mixed_model.specs.Models.{MixedModel};
ghost use Rattle.flowsheet_reader.specs.Models.{GivesModel, IsRefusal};

use refusals::{ReadModel, Refused};

/// A text gives at most one model.
pub fn a_flowsheet_gives_one_model()
    ensures { (p : ℕ) (text : List ℕ) (a b : MixedModel) → GivesModel p text a → GivesModel p text b → a ≡ b }
{}

/// A text that gives a model has no refusal, and each text has at most one.
pub fn a_flowsheet_has_one_refusal()
    ensures none { (p : ℕ) (text : List ℕ) (model : MixedModel) (a : Refused)
        → GivesModel p text model → ¬ IsRefusal p text (ReadModel.Refused a) }
    ensures one { (p : ℕ) (text : List ℕ) (a b : Refused)
        → IsRefusal p text (ReadModel.Refused a) → IsRefusal p text (ReadModel.Refused b) → a ≡ b }
{}

/// Modulo a number above 2, each text gives a model or is refused.
pub fn each_flowsheet_gives_a_model_or_is_refused()
    ensures { (p : ℕ) → 2 < p → (text : List ℕ)
        → ((model : MixedModel) × GivesModel p text model)
        ⊎ ((refused : Refused) × IsRefusal p text (ReadModel.Refused refused)) }
{}
