//! What becomes of S, U and P, with P = S * Q and S * U = 1, and of a base of unit columns of P, where Q gains or loses a
//! row or a column (Murota 2000, chapter 2: pivotal transforms).

ghost use Rattle.tableau_edit_laws.specs.Laws.{BasesKeepAJoinedRow, BasesLeaveRows, BasesLoseAColumnWithARow};
ghost use Rattle.tableau_edit_laws.specs.Laws.{BasesStayIndependentWithoutARow, ColumnsJoinTableaus, ColumnsLeaveTableaus};
ghost use Rattle.tableau_edit_laws.specs.Laws.{PivotsInSClearAColumn, PivotsInSKeepOtherRows, RowsJoinTableaus};
ghost use Rattle.tableau_edit_laws.specs.Laws.{BasesLeaveRowsInAnyOrder, LastRowsTakePlaces, RowsLeaveInAnyOrder};
ghost use Rattle.tableau_edit_laws.specs.Laws.{RowsLeaveTableaus, SomeRowOfSHasAnEntry};

/// A row of S that alone has an entry in a column may go with that column, and with its row of U.
pub fn rows_leave_tableaus()
    ensures { RowsLeaveTableaus }
{}

/// The rows that are left may stand in another order.
pub fn rows_leave_in_any_order()
    ensures { RowsLeaveInAnyOrder }
{}

/// One order is that the last row takes the place of the row that goes.
pub fn last_rows_take_places()
    ensures { LastRowsTakePlaces }
{}

/// The base columns of other rows stay a base.
pub fn bases_leave_rows()
    ensures { BasesLeaveRows }
{}

/// They do so in any order of the rows.
pub fn bases_leave_rows_in_any_order()
    ensures { BasesLeaveRowsInAnyOrder }
{}

/// The base columns stay independent without a row exactly where a row without base column has an entry in its column of S.
pub fn bases_stay_independent_without_a_row()
    ensures { BasesStayIndependentWithoutARow }
{}

/// Without the base column of a row that has an entry there they stay independent in any case.
pub fn bases_lose_a_column_with_a_row()
    ensures { BasesLoseAColumnWithARow }
{}

/// A row joins a tableau as the row less a combination of the others.
pub fn rows_join_tableaus()
    ensures { RowsJoinTableaus }
{}

/// Where it is less its combination at the base columns, the base stays.
pub fn bases_keep_a_joined_row()
    ensures { BasesKeepAJoinedRow }
{}

/// A column of zeros joins a tableau.
pub fn columns_join_tableaus()
    ensures { ColumnsJoinTableaus }
{}

/// A column that is no base column leaves a tableau.
pub fn columns_leave_tableaus()
    ensures { ColumnsLeaveTableaus }
{}

/// A pivot at a column of S leaves one row alone with an entry there.
pub fn pivots_in_s_clear_a_column()
    ensures { PivotsInSClearAColumn }
{}

/// The base columns of other rows stay.
pub fn pivots_in_s_keep_other_rows()
    ensures { PivotsInSKeepOtherRows }
{}

/// Each column of S has an entry.
pub fn some_row_of_s_has_an_entry()
    ensures { SomeRowOfSHasAnEntry }
{}
