//! How far the structural rank changes by one edit, and how many steps a pair then needs to be best again.
ghost use Rattle.mixed_edit_laws.specs.RemovalLaws.{QRowsOutTakeAtMostOne, TRowsOutTakeAtMostOne, EmptyColumnsOutTakeNothing};
ghost use Rattle.mixed_edit_laws.specs.RemovalLaws.{EditsTakeFewSteps, QRowsBesideKeepClosedSets, TRowsBesideKeepClosedSets};

/// Without a Q row the structural rank is the same, or one less.
pub fn q_rows_out_take_at_most_one()
    ensures { QRowsOutTakeAtMostOne }
{}

/// Without a T row the structural rank is the same, or one less.
pub fn t_rows_out_take_at_most_one()
    ensures { TRowsOutTakeAtMostOne }
{}

/// Without an empty column the structural rank is the same.
pub fn empty_columns_out_take_nothing()
    ensures { EmptyColumnsOutTakeNothing }
{}

/// A pair that lacks at most four columns is best again after at most five searches and fourteen steps for each column.
pub fn edits_take_few_steps()
    ensures { EditsTakeFewSteps }
{}

/// A Q row that is zero in P on a closed set leaves it closed.
pub fn q_rows_beside_keep_closed_sets()
    ensures { QRowsBesideKeepClosedSets }
{}

/// A T row without symbols in a closed set leaves it closed.
pub fn t_rows_beside_keep_closed_sets()
    ensures { TRowsBesideKeepClosedSets }
{}
