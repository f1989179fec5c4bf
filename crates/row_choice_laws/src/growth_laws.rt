//! How a pair grows along a walk backwards over the rows.
ghost use Rattle.row_choice_laws.specs.GrowthLaws.{RoutesKeepTheRows, WalksBackAreRoutes};
ghost use Rattle.row_choice_laws.specs.GrowthLaws.{WalksBackGiveTheFirstRowAColumn, WalksBackHaveColumns};

/// Each row of a walk backwards has an entry at a column of the next one.
pub fn walks_back_have_columns()
    ensures { WalksBackHaveColumns }
{}

/// A shortest walk backwards is a route.
pub fn walks_back_are_routes()
    ensures { WalksBackAreRoutes }
{}

/// Along a route each row that has a column keeps one.
pub fn routes_keep_the_rows()
    ensures { RoutesKeepTheRows }
{}

/// After the last move the row from which the search began has a column, and all others have one where they had.
pub fn walks_back_give_the_first_row_a_column()
    ensures { WalksBackGiveTheFirstRowAColumn }
{}
