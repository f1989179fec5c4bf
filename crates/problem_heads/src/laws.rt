//! Laws of heads.

ghost use Rattle.std.specs.Prelude.{◌≡◌, ◌⊎◌, ◌+◌, ◌++◌, ℕ, List, All, true, take};
ghost use Rattle.std.specs.List.{position_or_len};
ghost use Rattle.line_lexer.specs.Lines.{lines_of};
ghost use Rattle.refusals.specs.declared.Refused.{Refused};
ghost use Rattle.problem_heads.specs.Heads.{head_of, is_model_line, model_text};
ghost use Rattle.problem_heads.specs.HeadNumbers.{HasNoBlank, HeadNumber, are_same_names};
ghost use Rattle.problem_heads.specs.HeadsRead.{HasHead, IsHeadRefused};
ghost use Rattle.problem_heads.specs.Misfits.{IsMisfitBy};
ghost use Rattle.problem_heads.specs.Problems.{HasProblem, IsProblemBy, problem_numbers};
ghost use Rattle.problem_heads.specs.declared.form.Form.{Form};
ghost use Rattle.problem_heads.specs.declared.problem.Problem.{Problem};
ghost use Rattle.mixed_model.specs.Models.{MixedModel};

use residue_field::Field;

/// A text is its head and then the model's part, and so are its lines. The head has the lines up to the first one that
/// is the word `model`, or all.
pub fn a_text_is_its_head_and_the_models_part()
    ensures whole { (text : List ℕ) → text ≡ head_of text ++ model_text text }
    ensures lines { (text : List ℕ) → lines_of text ≡ lines_of (head_of text) ++ lines_of (model_text text) }
    ensures first { (text : List ℕ)
        → lines_of (head_of text) ≡ take (position_or_len is_model_line (lines_of text) + 1) (lines_of text) }
{}

/// Each text has a head or is refused, and not both; and it has one refusal.
pub fn each_text_has_a_head_or_one_refusal()
    ensures each { (p : ℕ) (form : Form) (text : List ℕ)
        → HasHead p form text ⊎ ((refused : Refused) × IsHeadRefused p form text refused) }
    ensures apart { (p : ℕ) (form : Form) (text : List ℕ) (refused : Refused)
        → HasHead p form text → ¬ IsHeadRefused p form text refused }
    ensures one { (p : ℕ) (form : Form) (text : List ℕ) (refused other : Refused)
        → IsHeadRefused p form text refused → IsHeadRefused p form text other → refused ≡ other }
{}

/// Names without blanks are the same where they are so as one text.
pub fn names_without_blanks_are_told_by_their_text()
    ensures { (names others : List (List ℕ)) → All HasNoBlank names → All HasNoBlank others
        → are_same_names names others ≡ true → names ≡ others }
{}

/// A head has a problem at a model or does not fit it, and not both; and it does not fit for one reason.
pub fn each_head_says_a_problem_or_does_not_fit()
    ensures each { (form : Form) (numbers : List (HeadNumber ℕ)) (model : MixedModel)
        → HasProblem form numbers model ⊎ ((refused : Refused) × IsMisfitBy form numbers model refused) }
    ensures apart { (form : Form) (numbers : List (HeadNumber ℕ)) (model : MixedModel) (refused : Refused)
        → HasProblem form numbers model → ¬ IsMisfitBy form numbers model refused }
    ensures one { (form : Form) (numbers : List (HeadNumber ℕ)) (model : MixedModel) (refused other : Refused)
        → IsMisfitBy form numbers model refused → IsMisfitBy form numbers model other → refused ≡ other }
{}

/// A head says one problem of a model.
pub fn a_head_says_one_problem<F: Field>()
    ensures had { (form : Form) (numbers : List (HeadNumber ℕ)) (model : MixedModel) (problem : Problem F)
        → IsProblemBy F.number form numbers model problem → HasProblem form numbers model }
    ensures one { (form : Form) (numbers : List (HeadNumber ℕ)) (model : MixedModel) (problem other : Problem F)
        → IsProblemBy F.number form numbers model problem → IsProblemBy F.number form numbers model other
        → problem_numbers F.number problem ≡ problem_numbers F.number other }
{}
