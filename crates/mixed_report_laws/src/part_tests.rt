//! Surplus equations and undetermined unknowns by the canonical parts of a layered matrix.
ghost use Rattle.mixed_report_laws.specs.PartTests.{SurplusRowsOfConstantsAreUsedInTheLastTail};
ghost use Rattle.mixed_report_laws.specs.PartTests.{SurplusRowsOfSymbolsAreInTheLastTail};
ghost use Rattle.mixed_report_laws.specs.PartTests.{UndeterminedUnknownsAreInTheFirstTail};

/// An unknown is undetermined exactly where its column is in the first tail.
pub fn undetermined_unknowns_are_in_the_first_tail()
    ensures { UndeterminedUnknownsAreInTheFirstTail }
{}

/// An equation with symbols is surplus exactly where its T row is in the last tail.
pub fn surplus_rows_of_symbols_are_in_the_last_tail()
    ensures { SurplusRowsOfSymbolsAreInTheLastTail }
{}

/// An equation of constants alone is surplus exactly where a row of the last tail is made with its Q row.
pub fn surplus_rows_of_constants_are_used_in_the_last_tail()
    ensures { SurplusRowsOfConstantsAreUsedInTheLastTail }
{}
