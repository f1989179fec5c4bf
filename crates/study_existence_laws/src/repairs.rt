//! That each model has a cheapest repair.

ghost use Rattle.study_existence_laws.specs.HasRepairs.{EachModelHasARepair};

/// Each model whose equations have costs has a cheapest repair, with forms that show that none costs less. (Murota,
/// chapters 2 and 4.)
pub fn each_model_has_a_repair()
    ensures { EachModelHasARepair }
{}
