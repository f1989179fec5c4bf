//! Worked examples of flowsheets.

ghost use Rattle.std.specs.Prelude.{ℕ, codes};
ghost use Rattle.flowsheet_reader.specs.Models.{BreaksFirst};
ghost use Rattle.flowsheet_examples.specs.Examples.{IsRefusedFor, ReadsAs, separator_sheet, separator_text, tee_sheet, tee_text};

use refusals::{Place, Why};

/// A feed that a separator splits: its equations, its unknowns, and what stands in each equation.
pub fn a_separator_is_read()
    ensures { (p : ℕ) → ReadsAs p separator_text (separator_sheet p) }
{}

/// A tee with three outlets in version 2: one fraction fewer than outlets, each an equation.
pub fn a_tee_of_version_two_is_read()
    ensures read { ReadsAs 65521 (tee_text (codes "\"1/2\", \"1/3\"")) tee_sheet }
    ensures one_fraction { IsRefusedFor 65521 (tee_text (codes "\"1/2\"")) (Place.Unit 1) Why.BadValue }
{}

/// Texts that break a rule, the first of which is the answer.
pub fn refusals_at_examples()
    ensures not_toml { (p : ℕ) → BreaksFirst p (codes "= 3") (record { place = Place.Document; why = Why.NotToml }) }
    ensures unknown_key { (p : ℕ) → IsRefusedFor p (codes "a = 1") Place.Document Why.UnknownKey }
    ensures version { (p : ℕ) → IsRefusedFor p (codes "version = 3") Place.Document Why.BadVersion }
    ensures stream { (p : ℕ) → IsRefusedFor p (codes "streams = [\"s1\", \"s1\"]") (Place.Stream 2) Why.Twice }
    ensures kind { (p : ℕ) →
        IsRefusedFor p (codes "[[unit]]\nname = \"P\"\nkind = \"pump\"") (Place.Unit 1) Why.BadKind }
{}
