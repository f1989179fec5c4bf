//! Parts that keep the rules beside a tableau are the canonical parts, and their ideals the minimisers.
ghost use Rattle.mixed_form_laws.specs.CanonicalLaws.{CheckedPartsAreCanonical, CheckedOrderIsCanonical};
ghost use Rattle.mixed_form_laws.specs.CanonicalLaws.{CheckedListsAreCanonical, IdealsAreTheMinimisers};
ghost use Rattle.mixed_form_laws.specs.CanonicalLaws.{EachLayeredMatrixHasACanonicalForm, CanonicalPartsAreOne};
ghost use Rattle.mixed_form_laws.specs.CanonicalLaws.{RulesAreKeptByRightParts};

/// Parts that keep the rules are the canonical parts.
pub fn checked_parts_are_canonical()
    ensures { CheckedPartsAreCanonical }
{}

/// Their order is the canonical one.
pub fn checked_order_is_canonical()
    ensures { CheckedOrderIsCanonical }
{}

/// Their lists are the lower lists.
pub fn checked_lists_are_canonical()
    ensures { CheckedListsAreCanonical }
{}

/// A column set is a minimiser exactly where it is an ideal of the blocks.
pub fn ideals_are_the_minimisers()
    ensures { IdealsAreTheMinimisers }
{}

/// Every layered matrix has its canonical form.
pub fn each_layered_matrix_has_a_canonical_form()
    ensures { EachLayeredMatrixHasACanonicalForm }
{}

/// There is only one choice of canonical parts.
pub fn canonical_parts_are_one()
    ensures { CanonicalPartsAreOne }
{}

/// Parts keep the rules exactly where the tableau's pair is best and they are right.
pub fn rules_are_kept_by_right_parts()
    ensures { RulesAreKeptByRightParts }
{}
