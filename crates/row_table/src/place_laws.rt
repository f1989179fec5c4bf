//! What becomes of the places of the columns of [P | S] in one table, in which unit columns are left out, where a row
//! or a column is gained or lost.

ghost use Rattle.row_table.specs.PlaceEdits.{ColumnsJoinPlaces, ColumnsLeavePlaces, LastRowsTakePlaces};
ghost use Rattle.row_table.specs.PlaceEdits.{RowsJoinPlaces, RowsLeavePlaces};

/// A row leaves with its unit column.
pub fn rows_leave_places()
    ensures { RowsLeavePlaces }
{}

/// A row leaves with its unit column, and the last row takes its place.
pub fn last_rows_take_places()
    ensures { LastRowsTakePlaces }
{}

/// A row joins with its unit column.
pub fn rows_join_places()
    ensures { RowsJoinPlaces }
{}

/// A column leaves, and the last slot is moved to its own.
pub fn columns_leave_places()
    ensures { ColumnsLeavePlaces }
{}

/// A column joins in a slot after the others.
pub fn columns_join_places()
    ensures { ColumnsJoinPlaces }
{}
