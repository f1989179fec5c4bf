//! When a canonical form that a certificate prints is right.

ghost use Rattle.cert_text.specs.RightLaws.{RightWhereRulesAreKept};

/// A printed form is right for a model exactly where it keeps the rules: then its rank is the structural rank, and its
/// parts are the canonical ones. (Murota, chapters 2 and 4.)
pub fn right_where_rules_are_kept()
    ensures { RightWhereRulesAreKept }
{}
