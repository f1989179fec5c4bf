//! What a search backwards over the rows reaches in vain.
ghost use Rattle.row_choice_laws.specs.RowLaws.{CircuitsStay, DependentEquationsJoinInVain};
ghost use Rattle.row_choice_laws.specs.RowLaws.{ReachedRowsTellSurplusEquations, RowsWithColumnsAreIndependent};
ghost use Rattle.row_choice_laws.specs.RowLaws.{SearchesInVainShowDependence, SearchesInVainTellTheCircuit};

/// The rows that are reached in vain tell the surplus equations.
pub fn reached_rows_tell_surplus_equations()
    ensures { ReachedRowsTellSurplusEquations }
{}

/// Equations whose rows all have columns are independent.
pub fn rows_with_columns_are_independent()
    ensures { RowsWithColumnsAreIndependent }
{}

/// An equation from whose row no free column is reached depends on the others.
pub fn searches_in_vain_show_dependence()
    ensures { SearchesInVainShowDependence }
{}

/// The rows that are reached tell the circuit of that equation.
pub fn searches_in_vain_tell_the_circuit()
    ensures { SearchesInVainTellTheCircuit }
{}

/// An equation that depends on what is kept joins it in vain.
pub fn dependent_equations_join_in_vain()
    ensures { DependentEquationsJoinInVain }
{}

/// The circuit of an equation is the same in whatever more is kept later.
pub fn circuits_stay()
    ensures { CircuitsStay }
{}
