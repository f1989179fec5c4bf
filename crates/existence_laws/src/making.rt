//! That each size has a made model.

ghost use Rattle.existence_laws.specs.Making.{EachSizeHasAMadeModel};

/// Each size has a made model, over each field of more than 65,520 elements.
pub fn each_size_has_a_made_model()
    ensures { EachSizeHasAMadeModel }
{}
