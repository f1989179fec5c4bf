//! The greedy choice of equations, and the cheapest repairs.
ghost use Rattle.equation_matroid_laws.specs.GreedyLaws.{GreedyChoicesLeaveACheapestRepair, GreedyChoicesReachTheRank};
ghost use Rattle.equation_matroid_laws.specs.GreedyLaws.{IndependenceTellsTheGreedyChoice, KeptEquationsReachEachLevel};
ghost use Rattle.equation_matroid_laws.specs.GreedyLaws.{LevelsShowACheapestRepair, ThereIsOneGreedyChoice};

/// Along any order there is one greedy choice.
pub fn there_is_one_greedy_choice()
    ensures { ThereIsOneGreedyChoice }
{}

/// At each step along a line what is kept is independent, and as many as the rank tells.
pub fn greedy_choices_reach_the_rank()
    ensures { GreedyChoicesReachTheRank }
{}

/// Along a line a greedy choice is told by independence alone.
pub fn independence_tells_the_greedy_choice()
    ensures { IndependenceTellsTheGreedyChoice }
{}

/// By falling cost, of the equations that cost at least c as many are kept as their rank tells.
pub fn kept_equations_reach_each_level()
    ensures { KeptEquationsReachEachLevel }
{}

/// Where independent equations reach the rank at the cost of each of the others, these are a cheapest repair.
pub fn levels_show_a_cheapest_repair()
    ensures { LevelsShowACheapestRepair }
{}

/// What the greedy choice by falling cost leaves out is a cheapest repair.
pub fn greedy_choices_leave_a_cheapest_repair()
    ensures { GreedyChoicesLeaveACheapestRepair }
{}
