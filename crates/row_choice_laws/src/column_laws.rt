//! The same searches over the columns.
ghost use Rattle.row_choice_laws.specs.ColumnLaws.{ColumnsInVainTellTheRows, OneRowIsBare, WalksOfColumnsAreWalksBack};

/// A shortest walk of columns is one of rows.
pub fn walks_of_columns_are_walks_back()
    ensures { WalksOfColumnsAreWalksBack }
{}

/// Columns that are reached in vain tell the rows that are.
pub fn columns_in_vain_tell_the_rows()
    ensures { ColumnsInVainTellTheRows }
{}

/// One row of an equation that joins is bare.
pub fn one_row_is_bare()
    ensures { OneRowIsBare }
{}
