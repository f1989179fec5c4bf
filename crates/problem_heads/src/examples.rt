//! The rules of heads at worked examples.

ghost use Rattle.std.specs.Prelude.{◌≡◌, ◌∷◌, ◌++◌, [], codes, Some, None};
ghost use Rattle.line_lexer.specs.Tokens.{words_of};
ghost use Rattle.line_reader.specs.LineRules.{line_rule};
ghost use Rattle.problem_heads.specs.HeadRules.{head_rules};
ghost use Rattle.problem_heads.specs.Heads.{head_of, model_text};

use crate::form::Form;
use refusals::Why;

/// The rules of lines at worked examples, read modulo 65,521: lines that keep them, and lines that break one.
pub fn head_rules_at_examples()
    ensures comment { line_rule (head_rules 65521 Form.Solve) [] (codes "# any") ≡ None }
    ensures value { line_rule (head_rules 65521 Form.Solve) [] (codes "value a x -1/2") ≡ None }
    ensures nought { line_rule (head_rules 65521 Form.Solve) [] (codes "right a 0") ≡ None }
    ensures cost { line_rule (head_rules 65521 Form.Repair) [] (codes "cost a 999999999") ≡ None }
    ensures last { line_rule (head_rules 65521 Form.Repair) [] (codes " model # it follows") ≡ None }
    ensures byte { line_rule (head_rules 65521 Form.Solve) [] (codes "model" ++ 128 ∷ []) ≡ Some Why.BadByte }
    ensures form { line_rule (head_rules 65521 Form.Repair) [] (codes "value a x 2") ≡ Some Why.BadWord }
    ensures shape { line_rule (head_rules 65521 Form.Solve) [] (codes "value a 2") ≡ Some Why.BadShape }
    ensures end { line_rule (head_rules 65521 Form.Solve) [] (codes "model it") ≡ Some Why.BadShape }
    ensures number { line_rule (head_rules 65521 Form.Solve) [] (codes "right a .5") ≡ Some Why.BadNumber }
    ensures digits { line_rule (head_rules 65521 Form.Repair) [] (codes "cost a 1234567890") ≡ Some Why.BadNumber }
    ensures vanish { line_rule (head_rules 65521 Form.Solve) [] (codes "right a 65521") ≡ Some Why.Vanish }
    ensures twice { line_rule (head_rules 65521 Form.Solve) (words_of (codes "right a 1") ∷ []) (codes "right a 2")
        ≡ Some Why.Twice }
    ensures apart { line_rule (head_rules 65521 Form.Solve) (words_of (codes "right a 1") ∷ []) (codes "value a a 2")
        ≡ None }
{}

/// A head and the model's part at a worked example: a text that has `model` twice.
pub fn heads_at_examples()
    ensures head { head_of (codes "right a 1" ++ 10 ∷ codes "model" ++ 10 ∷ codes "model")
        ≡ codes "right a 1" ++ 10 ∷ codes "model" ++ 10 ∷ [] }
    ensures model { model_text (codes "right a 1" ++ 10 ∷ codes "model" ++ 10 ∷ codes "model") ≡ codes "model" }
    ensures none { model_text (codes "right a 1") ≡ [] }
{}
