//! A pivot as an exchange in one table, and the inverse that it leads to.

ghost use Rattle.row_table.specs.Reductions.{ColumnsOfTheFirstMakeTheInverse, ReductionsArePivots};
ghost use Rattle.row_table.specs.Places.{ExchangesKeepThePlaces, ExchangesReduceTheWhole};

/// After a pivot of P = S * Q at a row and a column, the inverse of S is the one before, with that column of Q in the
/// place of the column with the row's number.
pub fn columns_of_the_first_make_the_inverse()
    ensures { ColumnsOfTheFirstMakeTheInverse }
{}

/// A matrix that is reduced by a column is pivoted there.
pub fn reductions_are_pivots()
    ensures { ReductionsArePivots }
{}

/// An exchange keeps that each column has a place.
pub fn exchanges_keep_the_places()
    ensures { ExchangesKeepThePlaces }
{}

/// An exchange in the one table is a reduction of all columns.
pub fn exchanges_reduce_the_whole()
    ensures { ExchangesReduceTheWhole }
{}
