//! What several models on one desk have to do with one another: nothing.

ghost use Rattle.desk_laws.specs.Laws.{LinesHaveOneDialogue, OneThingIsTold, OtherModelsDoNotMatter};
ghost use Rattle.desk_laws.specs.Laws.{OwnCommandsAreADialogue};
ghost use Rattle.desk_laws.specs.Printed.{WhatIsToldIsPrinted};

/// The commands of one model are a dialogue by themselves.
pub fn own_commands_are_a_dialogue()
    ensures { OwnCommandsAreADialogue }
{}

/// The same lines have the same replies.
pub fn lines_have_one_dialogue()
    ensures { LinesHaveOneDialogue }
{}

/// Commands of other models do not change a reply.
pub fn other_models_do_not_matter()
    ensures { OtherModelsDoNotMatter }
{}

/// One thing is told of a model.
pub fn one_thing_is_told()
    ensures { OneThingIsTold }
{}

/// A right certificate of a model prints what is told of the model: its rank and its canonical parts.
pub fn what_is_told_is_printed()
    ensures { WhatIsToldIsPrinted }
{}
