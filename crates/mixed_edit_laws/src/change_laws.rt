//! How far the structural rank of a layered matrix rises by an edit of its model.
ghost use Rattle.mixed_edit_laws.specs.ChangeLaws.{WiderModelsHaveTheRank, AddedEquationsRaiseByAtMostTwo};
ghost use Rattle.mixed_edit_laws.specs.ChangeLaws.{RemovedEquationsRaiseNothing, ChangedEquationsRaiseByAtMostTwo, WiderModelsHaveWiderLayers};

/// New unknowns without entries change no rank.
pub fn wider_models_have_the_rank()
    ensures { WiderModelsHaveTheRank }
{}

/// An added equation raises it by at most two.
pub fn added_equations_raise_by_at_most_two()
    ensures { AddedEquationsRaiseByAtMostTwo }
{}

/// A removed equation raises it by nothing.
pub fn removed_equations_raise_nothing()
    ensures { RemovedEquationsRaiseNothing }
{}

/// A changed equation raises it by at most two.
pub fn changed_equations_raise_by_at_most_two()
    ensures { ChangedEquationsRaiseByAtMostTwo }
{}

/// New unknowns without entries are empty columns.
pub fn wider_models_have_wider_layers()
    ensures { WiderModelsHaveWiderLayers }
{}
