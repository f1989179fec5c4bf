//! What the answers of solving tell.

ghost use Rattle.block_solver.specs.SolvingLaws.{SolutionsTellRegularModels};

use residue_field::Field;

/// Where the structural rank is the number of equations and of unknowns, a solution is answered exactly where the matrix of
/// the model is regular.
pub fn solutions_tell_regular_models<F: Field>()
    ensures { SolutionsTellRegularModels F.number F.modulus }
{}
