//! A loop that keeps the equations which may join.
ghost use Rattle.row_choice_laws.specs.StateLaws.{EquationsWithOneRowJoin, GrowthKeepsTheEquation};
ghost use Rattle.row_choice_laws.specs.StateLaws.{KeptEquationsAreIndependent, LoopsKeepTheGreedyChoice};
ghost use Rattle.row_choice_laws.specs.StateLaws.{MatchesAreGivenUp, NothingIsKept, PivotsKeepTheOtherColumns};
ghost use Rattle.row_choice_laws.specs.StateLaws.{SplitEquationsJoin, ToldEquationsAreTheConflictSet};

/// At first nothing is kept.
pub fn nothing_is_kept()
    ensures { NothingIsKept }
{}

/// What is kept is independent.
pub fn kept_equations_are_independent()
    ensures { KeptEquationsAreIndependent }
{}

/// An equation with one row joins as it is.
pub fn equations_with_one_row_join()
    ensures { EquationsWithOneRowJoin }
{}

/// A split equation joins once its T row is matched with its auxiliary column.
pub fn split_equations_join()
    ensures { SplitEquationsJoin }
{}

/// Where its match is given up, all is as before.
pub fn matches_are_given_up()
    ensures { MatchesAreGivenUp }
{}

/// The pivots of an equation that joins keep the columns of S of other equations.
pub fn pivots_keep_the_other_columns()
    ensures { PivotsKeepTheOtherColumns }
{}

/// After its growth an equation is kept.
pub fn growth_keeps_the_equation()
    ensures { GrowthKeepsTheEquation }
{}

/// The loop keeps the greedy choice.
pub fn loops_keep_the_greedy_choice()
    ensures { LoopsKeepTheGreedyChoice }
{}

/// By rising number the equations that are told are the conflict set.
pub fn told_equations_are_the_conflict_set()
    ensures { ToldEquationsAreTheConflictSet }
{}
