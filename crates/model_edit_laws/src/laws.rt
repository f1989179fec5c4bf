//! What the calls that edit a model make of its mixed matrix.

ghost use Rattle.model_edit_laws.specs.Laws.{EditedModelsAreChanged, ModelsGainAnEquation, ModelsLoseAnEquation};

/// A model that is edited at one equation is changed there, and gains unknowns behind its own.
pub fn edited_models_are_changed()
    ensures { EditedModelsAreChanged }
{}

/// A model with an equation more, which is edited then, has it as its last one.
pub fn models_gain_an_equation()
    ensures { ModelsGainAnEquation }
{}

/// A model from which an equation is taken out is without it.
pub fn models_lose_an_equation()
    ensures { ModelsLoseAnEquation }
{}
