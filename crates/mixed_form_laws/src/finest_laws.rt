//! What holds of every form, and that the canonical parts are the finest.
ghost use Rattle.mixed_form_laws.specs.FinestLaws.{DiagonalRanksAddUp, FirstPartsAreMinimisers, CanonicalPartsAreFinest};
ghost use Rattle.mixed_form_laws.specs.FinestLaws.{FormsShowTheRank, RowsStandWithTheirColumns, RowPartsHaveOneSize};

/// The structural ranks of the diagonal parts add up to at most the structural rank.
pub fn diagonal_ranks_add_up()
    ensures { DiagonalRanksAddUp }
{}

/// The first tail and the first blocks of a form are a minimiser.
pub fn first_parts_are_minimisers()
    ensures { FirstPartsAreMinimisers }
{}

/// Canonical parts are at least as fine as every form.
pub fn canonical_parts_are_finest()
    ensures { CanonicalPartsAreFinest }
{}

/// A form shows the structural rank.
pub fn forms_show_the_rank()
    ensures { FormsShowTheRank }
{}

/// In a form with the S of a tableau whose pair is best, rows stand with their base or matched columns, the others
/// last.
pub fn rows_stand_with_their_columns()
    ensures { RowsStandWithTheirColumns }
{}

/// Two forms with the same column parts have row parts of the same sizes.
pub fn row_parts_have_one_size()
    ensures { RowPartsHaveOneSize }
{}
