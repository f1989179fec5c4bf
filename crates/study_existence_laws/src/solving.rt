//! That each model with values is solved.

ghost use Rattle.study_existence_laws.specs.Solved.{EachProblemIsSolved};

/// Each model with a value for each symbol and a right side for each equation is open, or singular, or has a solution.
/// (Murota, chapters 2 and 4.)
pub fn each_problem_is_solved()
    ensures { EachProblemIsSolved }
{}
