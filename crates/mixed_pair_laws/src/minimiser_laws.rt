//! The column sets at which p is least, also read from a tableau in which no end is reached from a free column.
ghost use Rattle.mixed_pair_laws.specs.MinimiserLaws.{RankIsTheLeastBound, MinimumIsSizeLessColumns};
ghost use Rattle.mixed_pair_laws.specs.MinimiserLaws.{MinimisersAreTheClosedSets, ReachedColumnsAreTheLeastMinimiser};

/// The structural rank is the least p(X) and the number of columns together.
pub fn rank_is_the_least_bound()
    ensures { RankIsTheLeastBound }
{}

/// The minimum of p is the pair's size less the number of columns.
pub fn minimum_is_size_less_columns()
    ensures { MinimumIsSizeLessColumns }
{}

/// A column set is a minimiser exactly where it is closed.
pub fn minimisers_are_the_closed_sets()
    ensures { MinimisersAreTheClosedSets }
{}

/// What is reached from the free columns is the least minimiser.
pub fn reached_columns_are_the_least_minimiser()
    ensures { ReachedColumnsAreTheLeastMinimiser }
{}
