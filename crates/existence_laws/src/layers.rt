//! That each model has layers.

ghost use Rattle.existence_laws.specs.Layerings.{EachModelHasLayers};

/// Each model has layers, with what the type of layers keeps. (Murota, chapter 4.)
pub fn each_model_has_layers()
    ensures { EachModelHasLayers }
{}
