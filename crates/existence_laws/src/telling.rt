//! That each model has a report, and each right form a plan.

ghost use Rattle.existence_laws.specs.Telling.{EachModelHasAReport, EachRightFormHasAPlan};

/// Each model has a report: its rank, its surplus equations and its undetermined unknowns. (Murota, chapter 4.)
pub fn each_model_has_a_report()
    ensures { EachModelHasAReport }
{}

/// Each right form of a model has a plan to solve the model. (Murota, chapters 2 and 4.)
pub fn each_right_form_has_a_plan()
    ensures { EachRightFormHasAPlan }
{}
