//! Arcs between numbers: walks, sets closed under arcs, the blocks that closed sets hold together,
//! their order and their one listing. Each law is the contract of a function that does nothing.
#![tactic(auto)]

ghost use Rattle.closed_sets.specs.Laws.{ReachedPlacesAreASet, ReachedSetIsLeast, ClosedSetsAreTold, ClosedSetsAreIdeals};
ghost use Rattle.closed_sets.specs.Laws.{ThereIsOneListing, BelowIsAnOrder, CoversGenerate, RulesMakeParts, PartsKeepRules};
ghost use Rattle.closed_sets.specs.Laws.{ExampleOfClosed, ExampleOfReaching, ExampleOfListing};

/// What is reached from a set is a set.
pub fn reached_places_are_a_set()
    ensures { ReachedPlacesAreASet }
{}

/// What is reached from the starts is the least closed set.
pub fn reached_set_is_least()
    ensures { ReachedSetIsLeast }
{}

/// What every closed set holds, what none holds, what is held with a place, what is held together.
pub fn closed_sets_are_told()
    ensures { ClosedSetsAreTold }
{}

/// The closed sets are the ideals of the blocks.
pub fn closed_sets_are_ideals()
    ensures { ClosedSetsAreIdeals }
{}

/// There is a listing of the blocks, and only one.
pub fn there_is_one_listing()
    ensures { ThereIsOneListing }
{}

/// Being reached orders the blocks.
pub fn below_is_an_order()
    ensures { BelowIsAnOrder }
{}

/// An order is what the chains of its covers tell.
pub fn covers_generate()
    ensures { CoversGenerate }
{}

/// Parts that keep the rules are those of the arcs.
pub fn rules_make_parts()
    ensures { RulesMakeParts }
{}

/// The parts of the arcs, with the covers of their order, keep the rules.
pub fn parts_keep_rules()
    ensures { PartsKeepRules }
{}

/// A closed set, and a set that is not closed.
pub fn example_of_closed()
    ensures { ExampleOfClosed }
{}

/// A place that is reached, and one that is not.
pub fn example_of_reaching()
    ensures { ExampleOfReaching }
{}

/// A listing, and a numbering that is none.
pub fn example_of_listing()
    ensures { ExampleOfListing }
{}
