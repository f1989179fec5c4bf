//! That each form and each text has a verdict.

ghost use Rattle.existence_laws.specs.Verdicts.{EachFormHasAVerdict, EachTextHasAVerdict};

/// Each form is right for a model, or there is the first rule that it breaks.
pub fn each_form_has_a_verdict()
    ensures { EachFormHasAVerdict }
{}

/// Each text is that of a certificate that keeps all rules or breaks one first, or has a first line that is refused.
pub fn each_text_has_a_verdict()
    ensures { EachTextHasAVerdict }
{}
