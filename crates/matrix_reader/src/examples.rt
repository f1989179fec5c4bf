//! The rules at worked examples.

ghost use Rattle.std.specs.Prelude.{◌≡◌, ◌∷◌, ◌++◌, [], codes, Some, None};
ghost use Rattle.matrix_reader.specs.EquationLists.{unknowns_in, equation_names};
ghost use Rattle.matrix_reader.specs.Rules.{list_rules};
ghost use Rattle.line_reader.specs.LineRules.{line_rule};
ghost use Rattle.line_lexer.specs.Tokens.{words_of};

use refusals::Why;

/// The rules at worked examples, read modulo 65,521: lines that keep them, and lines that break one.
pub fn rules_at_examples()
    ensures comment { line_rule (list_rules 65521) [] (codes "# any") ≡ None }
    ensures values { line_rule (list_rules 65521) [] (codes "eq a x=-1 y=+1/2 z=0.5") ≡ None }
    ensures unknowns { line_rule (list_rules 65521) [] (codes "unknown x y x") ≡ None }
    ensures byte { line_rule (list_rules 65521) [] (codes "eq a " ++ 128 ∷ []) ≡ Some Why.BadByte }
    ensures word { line_rule (list_rules 65521) [] (codes "sum a") ≡ Some Why.BadWord }
    ensures shape { line_rule (list_rules 65521) [] (codes "eq") ≡ Some Why.BadShape }
    ensures name { line_rule (list_rules 65521) [] (codes "eq 7a") ≡ Some Why.BadName }
    ensures number { line_rule (list_rules 65521) [] (codes "eq a x=.5 y=?") ≡ Some Why.BadNumber }
    ensures vanish { line_rule (list_rules 65521) [] (codes "eq a x=0/65521") ≡ Some Why.Vanish }
    ensures symbols { line_rule (list_rules 65521) [] (codes "eq a x=? y=1+? z=0+?") ≡ None }
    ensures after_symbol { line_rule (list_rules 65521) [] (codes "eq a x=1+? y") ≡ Some Why.BadShape }
    ensures twice_in_line { line_rule (list_rules 65521) [] (codes "eq a x=1 x=2") ≡ Some Why.Twice }
    ensures twice { line_rule (list_rules 65521) (words_of (codes "eq a x=1") ∷ []) (codes "eq a") ≡ Some Why.Twice }
    ensures apart { line_rule (list_rules 65521) (words_of (codes "eq a x=1") ∷ []) (codes "eq x a=1") ≡ None }
{}

/// What lines give at worked examples.
pub fn lists_at_examples()
    ensures equations { equation_names (words_of (codes "unknown y") ∷ words_of (codes "eq a x=0 y=1") ∷ [])
        ≡ codes "a" ∷ [] }
    ensures unknowns { unknowns_in (words_of (codes "unknown y") ∷ words_of (codes "eq a x=0 y=1") ∷ [])
        ≡ codes "y" ∷ codes "x" ∷ [] }
{}
