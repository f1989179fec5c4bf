//! Parts that keep the rules beside a tableau are a form, with an order of its blocks.
ghost use Rattle.mixed_form_laws.specs.FormLaws.{CheckedPartsHaveNoWalk, CheckedPartsAreAForm, CheckedPartsAreOrdered, PartsOfTheArcsKeepTheRules};

/// Where parts keep the rules, no end is reached from a free column.
pub fn checked_parts_have_no_walk()
    ensures { CheckedPartsHaveNoWalk }
{}

/// Parts that keep the rules are a form.
pub fn checked_parts_are_a_form()
    ensures { CheckedPartsAreAForm }
{}

/// Its blocks have the order that the lower lists give by chains.
pub fn checked_parts_are_ordered()
    ensures { CheckedPartsAreOrdered }
{}

/// The parts of the arcs keep the rules.
pub fn parts_of_the_arcs_keep_the_rules()
    ensures { PartsOfTheArcsKeepTheRules }
{}
