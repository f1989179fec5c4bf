//! Surplus equations and undetermined unknowns by the minimisers of a layered matrix.
ghost use Rattle.mixed_report_laws.specs.MinimiserTests.{MinimisersTellSurplusRowsOfConstants};
ghost use Rattle.mixed_report_laws.specs.MinimiserTests.{MinimisersTellSurplusRowsOfSymbols};
ghost use Rattle.mixed_report_laws.specs.MinimiserTests.{MinimisersTellUndeterminedUnknowns};

/// An unknown is undetermined exactly where each minimiser holds its column.
pub fn minimisers_tell_undetermined_unknowns()
    ensures { MinimisersTellUndeterminedUnknowns }
{}

/// An equation with symbols is surplus exactly where no minimiser has a symbol in its T row.
pub fn minimisers_tell_surplus_rows_of_symbols()
    ensures { MinimisersTellSurplusRowsOfSymbols }
{}

/// An equation of constants alone is surplus exactly where rho of each minimiser is the same without its Q row.
pub fn minimisers_tell_surplus_rows_of_constants()
    ensures { MinimisersTellSurplusRowsOfConstants }
{}
