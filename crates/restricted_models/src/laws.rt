//! The structural rank of some equations of a model (Murota, chapters 2 and 4).

ghost use Rattle.restricted_models.specs.Laws.{RestrictedModelsHaveTheRankOfTheirEquations};

/// R of the equations of a list, as a set of rows of the model, is the structural rank of the model that has these alone.
pub fn restricted_models_have_the_rank_of_their_equations()
    ensures { RestrictedModelsHaveTheRankOfTheirEquations }
{}
