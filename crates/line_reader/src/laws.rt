//! What a text is refused for.

ghost use Rattle.std.specs.Prelude.{◌≡◌, ◌⊎◌, ℕ, List};
ghost use Rattle.refusals.specs.declared.Why.{Why};
ghost use Rattle.line_reader.specs.LineRules.{Rules, KeepsAll, IsFirstBroken};

/// A text that keeps all rules has no first broken one, and each text has at most one.
pub fn a_text_has_one_first_broken_rule()
    ensures none { (rules : Rules) (text : List ℕ) (n : ℕ) (why : Why)
        → KeepsAll rules text → ¬ IsFirstBroken rules text n why }
    ensures one { (rules : Rules) (text : List ℕ) (m n : ℕ) (v w : Why)
        → IsFirstBroken rules text m v → IsFirstBroken rules text n w → (m ≡ n) × (v ≡ w) }
{}

/// Each text keeps all rules, or has a first broken one.
pub fn each_text_keeps_all_rules_or_has_a_first_broken_one()
    ensures { (rules : Rules) (text : List ℕ)
        → KeepsAll rules text ⊎ ((n : ℕ) × (why : Why) × IsFirstBroken rules text n why) }
{}
