//! Where the rows and the auxiliary column of an equation stand in a layered matrix, and what is left without them.
ghost use Rattle.mixed_edit_laws.specs.RestLaws.{MembersAreLeft, LayeringsLeaveAnEquation, RestsAreEdits};
ghost use Rattle.mixed_edit_laws.specs.RestLaws.{LayeringsAreTheSame, LayeringsLeaveAnEmptyUnknown, RestsAreNear};

/// The members of a set of which one number is taken out, listed.
pub fn members_are_left()
    ensures { MembersAreLeft }
{}

/// Without the rows and the auxiliary column of an equation a layering is one of the model without it.
pub fn layerings_leave_an_equation()
    ensures { LayeringsLeaveAnEquation }
{}

/// They go one after another: the Q row, the T row, and then the auxiliary column, which is empty.
pub fn rests_are_edits()
    ensures { RestsAreEdits }
{}

/// Two layerings of a model with the same rows have the same entries.
pub fn layerings_are_the_same()
    ensures { LayeringsAreTheSame }
{}

/// Without an empty unknown, the last one, a layering is one of the model without it.
pub fn layerings_leave_an_empty_unknown()
    ensures { LayeringsLeaveAnEmptyUnknown }
{}

/// Without the rows and the auxiliary column of an equation the structural rank is at most two less.
pub fn rests_are_near()
    ensures { RestsAreNear }
{}
