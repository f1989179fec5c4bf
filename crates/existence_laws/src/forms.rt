//! That each model has a right canonical form.

ghost use Rattle.existence_laws.specs.Forms.{EachModelHasARightForm};

/// Each model has a right canonical form, for each of its layered matrices. (Murota, chapters 2 and 4.)
pub fn each_model_has_a_right_form()
    ensures { EachModelHasARightForm }
{}
