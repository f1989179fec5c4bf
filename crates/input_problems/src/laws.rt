//! What a text gives is one problem or one refusal.

ghost use Rattle.std.specs.Prelude.{◌≡◌, ◌⊎◌, ◌<◌, ℕ, List};
ghost use Rattle.cert_text.specs.declared.kind.Kind.{Kind};
ghost use Rattle.refusals.specs.declared.Refused.{Refused};
ghost use Rattle.residue_theory.specs.Residues.{IsPrime};
ghost use Rattle.mixed_model.specs.Models.{MixedModel};
ghost use Rattle.problem_heads.specs.Problems.{problem_numbers};
ghost use Rattle.problem_heads.specs.declared.form.Form.{Form};
ghost use Rattle.problem_heads.specs.declared.problem.Problem.{Problem};
ghost use Rattle.input_problems.specs.ProblemTexts.{GivesProblem, HasProblemText, IsProblemRefused};

use residue_field::Field;

/// Modulo a prime above 2, each text gives a problem or is refused.
pub fn each_text_gives_a_problem_or_is_refused()
    ensures { (p : ℕ) → IsPrime p → 2 < p → (kind : Kind) (form : Form) (text : List ℕ)
        → HasProblemText p kind form text ⊎ ((refused : Refused) × IsProblemRefused p kind form text refused) }
{}

/// A text gives at most one model and one problem of it.
pub fn a_text_gives_one_problem<F: Field>()
    ensures model { (kind : Kind) (form : Form) (text : List ℕ) (a b : MixedModel) (problem other : Problem F)
        → GivesProblem F.number F.modulus kind form text a problem
        → GivesProblem F.number F.modulus kind form text b other → a ≡ b }
    ensures problem { (kind : Kind) (form : Form) (text : List ℕ) (a b : MixedModel) (problem other : Problem F)
        → GivesProblem F.number F.modulus kind form text a problem
        → GivesProblem F.number F.modulus kind form text b other
        → problem_numbers F.number problem ≡ problem_numbers F.number other }
{}

/// A text that gives a problem has no refusal, and each text has at most one.
pub fn a_text_with_a_problem_is_not_refused<F: Field>()
    ensures apart { (kind : Kind) (form : Form) (text : List ℕ) (model : MixedModel) (problem : Problem F)
        (refused : Refused) → GivesProblem F.number F.modulus kind form text model problem
        → ¬ IsProblemRefused F.modulus kind form text refused }
    ensures one { (p : ℕ) (kind : Kind) (form : Form) (text : List ℕ) (refused other : Refused)
        → IsProblemRefused p kind form text refused → IsProblemRefused p kind form text other → refused ≡ other }
{}
