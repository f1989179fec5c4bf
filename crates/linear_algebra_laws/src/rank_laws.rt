//! Independent columns and the rank of a set of columns.
ghost use Rattle.linear_algebra_laws.specs.RankLaws.{EachSetHasOneRank, IndependentSetsExtend, SpanningSetsShowTheRank};
ghost use Rattle.linear_algebra_laws.specs.RankLaws.{LargestSetsSpan, OtherColumnsJoin, CombinationsAreNoMore};
ghost use Rattle.linear_algebra_laws.specs.RankLaws.{ColumnsAreNoMoreThanRows, RankIsAtMostTheRows, RankIsMonotone};
ghost use Rattle.linear_algebra_laws.specs.RankLaws.{RankIsSubmodular, RankIsSubadditive, OneMoreColumnAddsAtMostOne};
ghost use Rattle.linear_algebra_laws.specs.RankLaws.{TransposesHaveTheRank};

/// Every set of columns has a rank, and only one.
pub fn each_set_has_one_rank()
    ensures { EachSetHasOneRank }
{}

/// An independent set within a set of columns is part of one whose size is the rank.
pub fn independent_sets_extend()
    ensures { IndependentSetsExtend }
{}

/// An independent set that combines to every column of a set shows its rank.
pub fn spanning_sets_show_the_rank()
    ensures { SpanningSetsShowTheRank }
{}

/// An independent set of the rank's size combines to every column of the set.
pub fn largest_sets_span()
    ensures { LargestSetsSpan }
{}

/// A column that is no combination of an independent set may join it.
pub fn other_columns_join()
    ensures { OtherColumnsJoin }
{}

/// An independent set of combinations of k columns has at most k columns.
pub fn combinations_are_no_more()
    ensures { CombinationsAreNoMore }
{}

/// An independent set on which all but k rows are zero has at most k columns.
pub fn columns_are_no_more_than_rows()
    ensures { ColumnsAreNoMoreThanRows }
{}

/// The rank is at most the number of rows that are not zero on the set.
pub fn rank_is_at_most_the_rows()
    ensures { RankIsAtMostTheRows }
{}

/// A larger set has no smaller rank.
pub fn rank_is_monotone()
    ensures { RankIsMonotone }
{}

/// The ranks of the union and of the common part are at most those of the two sets together.
pub fn rank_is_submodular()
    ensures { RankIsSubmodular }
{}

/// The rank of a union is at most the sum of the ranks.
pub fn rank_is_subadditive()
    ensures { RankIsSubadditive }
{}

/// One more column keeps the rank or adds one.
pub fn one_more_column_adds_at_most_one()
    ensures { OneMoreColumnAddsAtMostOne }
{}

/// The rank by rows is the rank by columns.
pub fn transposes_have_the_rank()
    ensures { TransposesHaveTheRank }
{}
