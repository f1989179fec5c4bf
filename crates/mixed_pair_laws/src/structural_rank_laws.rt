//! The structural rank of models and of layered matrices (Murota, chapter 4).
ghost use Rattle.mixed_pair_laws.specs.StructuralRankLaws.{EachModelHasOneRank, EachLayeredMatrixHasOneRank};
ghost use Rattle.mixed_pair_laws.specs.StructuralRankLaws.{PairsThatReachTheBoundShowTheRank, PairsWithoutWalkShowTheRank};
ghost use Rattle.mixed_pair_laws.specs.StructuralRankLaws.{BestPairsShowTheRank, MatchingValuesReachThePair};
ghost use Rattle.mixed_pair_laws.specs.StructuralRankLaws.{SameModelsHaveTheSameRank, SameLayersHaveTheSameRank};
ghost use Rattle.mixed_pair_laws.specs.StructuralRankLaws.{EmptiedEquationsAreLeftOut, EmptiedUnknownsAreLeftOut};

/// Every mixed matrix has one structural rank, at most the number of its rows and of its columns.
pub fn each_model_has_one_rank()
    ensures { EachModelHasOneRank }
{}

/// Every layered matrix has one structural rank, at most the number of its rows and of its columns.
pub fn each_layered_matrix_has_one_rank()
    ensures { EachLayeredMatrixHasOneRank }
{}

/// A pair that reaches the bound has the structural rank for its size.
pub fn pairs_that_reach_the_bound_show_the_rank()
    ensures { PairsThatReachTheBoundShowTheRank }
{}

/// Where no end is reached from a free column, the pair's size is the structural rank.
pub fn pairs_without_walk_show_the_rank()
    ensures { PairsWithoutWalkShowTheRank }
{}

/// A best pair has the structural rank for its size.
pub fn best_pairs_show_the_rank()
    ensures { BestPairsShowTheRank }
{}

/// 1 at the places of a matching and 0 elsewhere give a rank of at least the pair's size.
pub fn matching_values_reach_the_pair()
    ensures { MatchingValuesReachThePair }
{}

/// Models with the same entries have the same structural rank.
pub fn same_models_have_the_same_rank()
    ensures { SameModelsHaveTheSameRank }
{}

/// Layered matrices with the same entries have the same structural rank.
pub fn same_layers_have_the_same_rank()
    ensures { SameLayersHaveTheSameRank }
{}

/// A model without an equation has the rank of the model in which that equation is emptied.
pub fn emptied_equations_are_left_out()
    ensures { EmptiedEquationsAreLeftOut }
{}

/// A model without an unknown has the rank of the model in which that unknown is emptied.
pub fn emptied_unknowns_are_left_out()
    ensures { EmptiedUnknownsAreLeftOut }
{}
