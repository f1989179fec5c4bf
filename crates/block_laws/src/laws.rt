//! A model with numbers for its symbols, beside the blocks of a form whose tails are empty (Murota, chapters 2 and 4).
ghost use Rattle.block_laws.specs.BlockLaws.{BlocksTellWhetherTheModelIsRegular, LayersHaveTheSolutions};
ghost use Rattle.block_laws.specs.BlockLaws.{SingularBlocksMakeTheModelSingular, SolvedBlocksSolveTheModel};
ghost use Rattle.block_laws.specs.BlockLaws.{TransformsKeepTheSolutions};

/// The matrix of the model is regular exactly where each block has the rank of its size.
pub fn blocks_tell_whether_the_model_is_regular()
    ensures { BlocksTellWhetherTheModelIsRegular }
{}

/// One block whose rank is below its size makes the matrix of the model singular.
pub fn singular_blocks_make_the_model_singular()
    ensures { SingularBlocksMakeTheModelSingular }
{}

/// What solves the model are the solutions of its layered matrix, at the unknowns.
pub fn layers_have_the_solutions()
    ensures { LayersHaveTheSolutions }
{}

/// A transform of the Q rows keeps the solutions.
pub fn transforms_keep_the_solutions()
    ensures { TransformsKeepTheSolutions }
{}

/// Where each block is solved, the model is.
pub fn solved_blocks_solve_the_model()
    ensures { SolvedBlocksSolveTheModel }
{}
