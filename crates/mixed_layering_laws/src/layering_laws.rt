//! The rank of a layered matrix beside that of its model (Murota, chapter 4).
ghost use Rattle.mixed_layering_laws.specs.LayeringLaws.{EachModelHasALayeredMatrix, LayeredMatricesShowTheRank};
ghost use Rattle.mixed_layering_laws.specs.LayeringLaws.{LayeringsAddTheSplitRows, MinusOnesAddTheSplitRows};

/// With -1 at the auxiliary places a layered matrix has the rank of the model's value, and one more for each split row.
pub fn minus_ones_add_the_split_rows()
    ensures { MinusOnesAddTheSplitRows }
{}

/// A layered matrix has the structural rank of its model, and one more for each split row,
/// also of those that need not be split.
pub fn layerings_add_the_split_rows()
    ensures { LayeringsAddTheSplitRows }
{}

/// The structural rank of the layered matrix of a model, less the number of its split rows, is that of the model.
pub fn layered_matrices_show_the_rank()
    ensures { LayeredMatricesShowTheRank }
{}

/// Every model has a layered matrix.
pub fn each_model_has_a_layered_matrix()
    ensures { EachModelHasALayeredMatrix }
{}
