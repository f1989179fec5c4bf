//! Laws of cheapest repairs.

ghost use Rattle.cheapest_repairs.specs.Laws.{AllAreKeptWhereNoneIsSurplus, CostsOfAProblemAreCosts, KeptEquationsAreOne};

/// The costs that the head of a text says of a model are costs as a cheapest repair takes them.
pub fn costs_of_a_problem_are_costs()
    ensures { CostsOfAProblemAreCosts }
{}

/// By the same costs the same equations are kept.
pub fn kept_equations_are_one()
    ensures { KeptEquationsAreOne }
{}

/// All equations are kept exactly where none is surplus. (Murota, chapter 4.)
pub fn all_are_kept_where_none_is_surplus()
    ensures { AllAreKeptWhereNoneIsSurplus }
{}
