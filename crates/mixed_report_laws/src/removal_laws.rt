//! The structural rank of a model without one of its equations or unknowns.
ghost use Rattle.mixed_report_laws.specs.RemovalLaws.{EachEquationHasARow, RemovedEquationsAreEmptiedRowsOfConstants};
ghost use Rattle.mixed_report_laws.specs.RemovalLaws.{RemovedEquationsAreEmptiedRowsOfSymbols};
ghost use Rattle.mixed_report_laws.specs.RemovalLaws.{RemovedUnknownsAreEmptiedColumns};

/// A model without an unknown has the structural rank of its layered matrix without that column, less the split rows.
pub fn removed_unknowns_are_emptied_columns()
    ensures { RemovedUnknownsAreEmptiedColumns }
{}

/// A model without an equation with symbols has that of its layered matrix without the T row, less the split rows.
pub fn removed_equations_are_emptied_rows_of_symbols()
    ensures { RemovedEquationsAreEmptiedRowsOfSymbols }
{}

/// A model without an equation of constants alone has that of its layered matrix without the Q row, less the split
/// rows.
pub fn removed_equations_are_emptied_rows_of_constants()
    ensures { RemovedEquationsAreEmptiedRowsOfConstants }
{}

/// In the layered matrix of a model each equation has a T row, or it has no symbol and a Q row.
pub fn each_equation_has_a_row()
    ensures { EachEquationHasARow }
{}
