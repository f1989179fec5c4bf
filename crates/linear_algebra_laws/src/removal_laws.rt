//! A matrix with one row or one column less, or one more.
ghost use Rattle.linear_algebra_laws.specs.RemovalLaws.{OneMoreRowAddsAtMostOne, OneRowLessTakesAtMostOne};
ghost use Rattle.linear_algebra_laws.specs.RemovalLaws.{RankStaysWithoutRow, RankFallsWithoutRow};
ghost use Rattle.linear_algebra_laws.specs.RemovalLaws.{TableauTellsTheRowsThatMayGo, OneColumnLessTakesAtMostOne};
ghost use Rattle.linear_algebra_laws.specs.RemovalLaws.{RankStaysWithoutColumn, OneColumnBesideAddsAtMostOne};
ghost use Rattle.linear_algebra_laws.specs.RemovalLaws.{RankStaysWithColumnBeside, RankStaysWithoutACombinedRow};
ghost use Rattle.linear_algebra_laws.specs.RemovalLaws.{RankOfASetStaysWithoutACombinedRow};

/// One more row keeps the rank or adds one.
pub fn one_more_row_adds_at_most_one()
    ensures { OneMoreRowAddsAtMostOne }
{}

/// Without a row the rank is the same or one less.
pub fn one_row_less_takes_at_most_one()
    ensures { OneRowLessTakesAtMostOne }
{}

/// Without a row the rank stays exactly where the row's unit column is no combination of the columns.
pub fn rank_stays_without_row()
    ensures { RankStaysWithoutRow }
{}

/// Without a row the rank falls by one exactly where the row's unit column is a combination of the columns.
pub fn rank_falls_without_row()
    ensures { RankFallsWithoutRow }
{}

/// Whether the rank stays without a row can be read from the rows of a tableau that have no base.
pub fn tableau_tells_the_rows_that_may_go()
    ensures { TableauTellsTheRowsThatMayGo }
{}

/// Without a column the rank is the same or one less.
pub fn one_column_less_takes_at_most_one()
    ensures { OneColumnLessTakesAtMostOne }
{}

/// Without a column the rank stays exactly where it is a combination of the others.
pub fn rank_stays_without_column()
    ensures { RankStaysWithoutColumn }
{}

/// With a column beside the matrix the rank is the same or one more.
pub fn one_column_beside_adds_at_most_one()
    ensures { OneColumnBesideAddsAtMostOne }
{}

/// With a column beside the matrix the rank stays exactly where it is a combination of the columns.
pub fn rank_stays_with_column_beside()
    ensures { RankStaysWithColumnBeside }
{}

/// Without a row the rank stays exactly where the row is a combination of the others.
pub fn rank_stays_without_a_combined_row()
    ensures { RankStaysWithoutACombinedRow }
{}

/// Without a row that is a combination of the others on a set of columns the rank of the set stays.
pub fn rank_of_a_set_stays_without_a_combined_row()
    ensures { RankOfASetStaysWithoutACombinedRow }
{}
