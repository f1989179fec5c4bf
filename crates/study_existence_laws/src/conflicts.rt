//! That each model has conflicts.

ghost use Rattle.study_existence_laws.specs.HasConflicts.{EachModelHasConflicts};

/// Each model has its surplus equations, each with its conflict set. (Murota, chapters 2 and 4.)
pub fn each_model_has_conflicts()
    ensures { EachModelHasConflicts }
{}
