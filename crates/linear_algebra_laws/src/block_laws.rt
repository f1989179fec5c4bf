//! Matrices that are put together from others, and parts of a matrix.
ghost use Rattle.linear_algebra_laws.specs.BlockLaws.{StackedRankIsAtMostTheSum, DiagonalRanksAreAtMostTheRank};
ghost use Rattle.linear_algebra_laws.specs.BlockLaws.{PartsAreTheirRows, PartsHaveAtMostTheRank, ColumnPartsHaveTheirRank};
ghost use Rattle.linear_algebra_laws.specs.BlockLaws.{StackedColumnsAreAtMostRankAndRows};

/// One matrix above another has at most the ranks of both together.
pub fn stacked_rank_is_at_most_the_sum()
    ensures { StackedRankIsAtMostTheSum }
{}

/// The ranks of the diagonal parts of a block triangular matrix add up to at most its rank.
pub fn diagonal_ranks_are_at_most_the_rank()
    ensures { DiagonalRanksAreAtMostTheRank }
{}

/// Columns are independent in a part exactly where they are at the rows of the part.
pub fn parts_are_their_rows()
    ensures { PartsAreTheirRows }
{}

/// A part of a matrix has at most its rank.
pub fn parts_have_at_most_the_rank()
    ensures { PartsHaveAtMostTheRank }
{}

/// A part by columns has the rank of its columns.
pub fn column_parts_have_their_rank()
    ensures { ColumnPartsHaveTheirRank }
{}

/// Of one matrix above another, independent columns are at most the rank of the first and the rows of the second that
/// are not zero on them.
pub fn stacked_columns_are_at_most_rank_and_rows()
    ensures { StackedColumnsAreAtMostRankAndRows }
{}
