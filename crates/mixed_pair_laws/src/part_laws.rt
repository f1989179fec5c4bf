//! Parts of a layered matrix, and the parts of its tableau.
ghost use Rattle.mixed_pair_laws.specs.PartLaws.{PartsHaveTableaus, FullRowsShowTheRank, FullColumnsShowTheRank};

/// A part that holds the rows of its base and matched columns has the part of the tableau for a tableau.
pub fn parts_have_tableaus()
    ensures { PartsHaveTableaus }
{}

/// A part whose rows all belong to its base and matched columns has their number for its structural rank.
pub fn full_rows_show_the_rank()
    ensures { FullRowsShowTheRank }
{}

/// A part whose columns are all in the base or matched has their number for its structural rank.
pub fn full_columns_show_the_rank()
    ensures { FullColumnsShowTheRank }
{}
