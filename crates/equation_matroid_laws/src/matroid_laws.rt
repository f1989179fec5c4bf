//! The rank of a set of equations, over all values of the symbols.
ghost use Rattle.equation_matroid_laws.specs.MatroidLaws.{EachSetOfEquationsHasOneRank, EmptiedLayersShowTheRank};
ghost use Rattle.equation_matroid_laws.specs.MatroidLaws.{IndependentSetsExchange, OneMoreEquationAddsAtMostOne};
ghost use Rattle.equation_matroid_laws.specs.MatroidLaws.{OneValueReachesTwoRanks, RankIsTheLargestSize};
ghost use Rattle.equation_matroid_laws.specs.MatroidLaws.{RankOfAllEquations, RankWithoutAnEquation};
ghost use Rattle.equation_matroid_laws.specs.MatroidLaws.{SubsetsAreIndependent};

/// For two sets of equations, one value of 1, 2 and 3 at the symbols gives both the ranks that they have at best.
pub fn one_value_reaches_two_ranks()
    ensures { OneValueReachesTwoRanks }
{}

/// Each set of equations has one rank.
pub fn each_set_of_equations_has_one_rank()
    ensures { EachSetOfEquationsHasOneRank }
{}

/// The rank of all equations is the structural rank of the model.
pub fn rank_of_all_equations()
    ensures { RankOfAllEquations }
{}

/// The rank of all equations but one is the structural rank of the model without it.
pub fn rank_without_an_equation()
    ensures { RankWithoutAnEquation }
{}

/// Independent equations have independent subsets.
pub fn subsets_are_independent()
    ensures { SubsetsAreIndependent }
{}

/// Of two independent sets some equation of the larger one may join the smaller one.
pub fn independent_sets_exchange()
    ensures { IndependentSetsExchange }
{}

/// The rank of a set of equations is the size of a largest independent subset.
pub fn rank_is_the_largest_size()
    ensures { RankIsTheLargestSize }
{}

/// One more equation keeps the rank of a set, or adds one.
pub fn one_more_equation_adds_at_most_one()
    ensures { OneMoreEquationAddsAtMostOne }
{}

/// The rank of each set of equations is told by one layered matrix of the model, where the others are emptied.
pub fn emptied_layers_show_the_rank()
    ensures { EmptiedLayersShowTheRank }
{}
