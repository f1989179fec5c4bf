//! Pairs, and the bound that the set function p gives for their size (Murota, chapter 2, independent matching).
ghost use Rattle.mixed_pair_laws.specs.PairLaws.{PairsAreBounded, TableausHoldPairs, TransformsKeepTheKernel};
ghost use Rattle.mixed_pair_laws.specs.PairLaws.{ClosedSetsReachTheBound, PairsWithoutWalkAreBest, SomePairReachesTheBound};
ghost use Rattle.mixed_pair_laws.specs.PairLaws.{EachPairHasATableau};

/// No pair is larger than p(X) and the number of columns together, for any column set X.
pub fn pairs_are_bounded()
    ensures { PairsAreBounded }
{}

/// The base and the matched columns of a tableau are a pair.
pub fn tableaus_hold_pairs()
    ensures { TableausHoldPairs }
{}

/// A product with an invertible S keeps the kernel, so a tableau with S is one without.
pub fn transforms_keep_the_kernel()
    ensures { TransformsKeepTheKernel }
{}

/// The pair of a tableau reaches the bound at X exactly where X is closed.
pub fn closed_sets_reach_the_bound()
    ensures { ClosedSetsReachTheBound }
{}

/// The pair of a tableau is best exactly where no end is reached from a free column.
pub fn pairs_without_walk_are_best()
    ensures { PairsWithoutWalkAreBest }
{}

/// Each layered matrix has a pair and a column set at which it reaches the bound.
pub fn some_pair_reaches_the_bound()
    ensures { SomePairReachesTheBound }
{}

/// Row operations bring the independent columns of any pair into unit columns.
pub fn each_pair_has_a_tableau()
    ensures { EachPairHasATableau }
{}
