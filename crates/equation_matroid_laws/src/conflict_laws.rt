//! Conflict sets: the equations that a surplus equation clashes with.
ghost use Rattle.equation_matroid_laws.specs.ConflictLaws.{ConflictSetsAreCircuits, ConflictSetsAreMinimal};
ghost use Rattle.equation_matroid_laws.specs.ConflictLaws.{ConflictSetsOfTheChosen, ConflictSetsOfTheOthers};
ghost use Rattle.equation_matroid_laws.specs.ConflictLaws.{EachRepairMeetsEachConflictSet};
ghost use Rattle.equation_matroid_laws.specs.ConflictLaws.{EachSurplusEquationHasOneConflictSet};
ghost use Rattle.equation_matroid_laws.specs.ConflictLaws.{SurplusAmongAllIsSurplus};

/// An equation is surplus among all exactly where it is surplus in the model.
pub fn surplus_among_all_is_surplus()
    ensures { SurplusAmongAllIsSurplus }
{}

/// A surplus equation has one conflict set.
pub fn each_surplus_equation_has_one_conflict_set()
    ensures { EachSurplusEquationHasOneConflictSet }
{}

/// The conflict set of a surplus equation is its circuit in the greedy choice, by rising number, from the others.
pub fn conflict_sets_are_circuits()
    ensures { ConflictSetsAreCircuits }
{}

/// The rank of a conflict set is one less than its number, and each proper part of it is independent.
pub fn conflict_sets_are_minimal()
    ensures { ConflictSetsAreMinimal }
{}

/// Each repair takes an equation of each conflict set.
pub fn each_repair_meets_each_conflict_set()
    ensures { EachRepairMeetsEachConflictSet }
{}

/// The circuit of an equation outside the greedy choice from all is its conflict set.
pub fn conflict_sets_of_the_others()
    ensures { ConflictSetsOfTheOthers }
{}

/// The conflict set of a surplus equation of the greedy choice from all is the circuit of the first equation outside
/// whose circuit holds it.
pub fn conflict_sets_of_the_chosen()
    ensures { ConflictSetsOfTheChosen }
{}
