//! What any two solvings of one problem share.

ghost use Rattle.study_answers.specs.Solvings.{SolvingsEndAlike};

/// Of one model, with the same values and right sides, each solving is a solution or none is, whatever its layered matrix is.
pub fn solvings_end_alike()
    ensures { SolvingsEndAlike }
{}
