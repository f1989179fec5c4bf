//! A base of unit columns, as a tableau has one.
ghost use Rattle.linear_algebra_laws.specs.BaseLaws.{BasesAreIndependent, BasesShowTheRank, BasesSpanWhatIsZeroElsewhere};
ghost use Rattle.linear_algebra_laws.specs.BaseLaws.{IndependentColumnsBecomeABase, TableauTellsTheSpan};
ghost use Rattle.linear_algebra_laws.specs.BaseLaws.{TableauTellsTheRank};

/// A base is independent.
pub fn bases_are_independent()
    ensures { BasesAreIndependent }
{}

/// A set that is zero at each row without base in the set has as many columns in its rank as it has base columns.
pub fn bases_show_the_rank()
    ensures { BasesShowTheRank }
{}

/// A column is a combination of the base exactly where it is zero at each row without base.
pub fn bases_span_what_is_zero_elsewhere()
    ensures { BasesSpanWhatIsZeroElsewhere }
{}

/// In a tableau a column is a combination of the base columns exactly where it is zero at each row without base.
pub fn tableau_tells_the_span()
    ensures { TableauTellsTheSpan }
{}

/// In a tableau a set that is zero at each row without base in the set has as many columns in its rank as it has base
/// columns.
pub fn tableau_tells_the_rank()
    ensures { TableauTellsTheRank }
{}

/// Independent columns become a base by row operations, which are a product with an invertible matrix.
pub fn independent_columns_become_a_base()
    ensures { IndependentColumnsBecomeABase }
{}
