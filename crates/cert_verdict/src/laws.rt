//! That there is one verdict on a text.

ghost use Rattle.cert_verdict.specs.Verdicts.{TextsHaveOneVerdict};

/// A text is accepted, or it breaks one rule first, or one line of it is refused first, and not two of these.
pub fn texts_have_one_verdict()
    ensures { TextsHaveOneVerdict }
{}
