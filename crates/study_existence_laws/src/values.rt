//! That each model has values.

ghost use Rattle.study_existence_laws.specs.HasValues.{EachModelHasValues};

/// Each model has values with which it reaches its structural rank, each at its place. (Murota, chapter 4.)
pub fn each_model_has_values()
    ensures { EachModelHasValues }
{}
