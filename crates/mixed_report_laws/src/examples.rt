//! The laws of layering and of the report at worked examples: the split entry (1 and a symbol in one place), x + y over
//! x and a symbol at y, two equations of one unknown, and one equation of two unknowns.
ghost use Rattle.std.specs.Prelude.{◌+◌};
ghost use Rattle.linear_algebra.specs.Columns.{IsRank};
ghost use Rattle.residue_theory.specs.Sets.{everything, without};
ghost use Rattle.mixed_matrices.specs.Examples.{split_matrix, split_model, split_origins, stacked_matrix, stacked_model};
ghost use Rattle.mixed_matrices.specs.Examples.{stacked_origins, tall_model, tall_symbols};
ghost use Rattle.mixed_matrices.specs.LayeredMatrices.{layered_part};
ghost use Rattle.mixed_matrices.specs.Layerings.{IsLayeredMatrixOf};
ghost use Rattle.mixed_matrices.specs.Models.{value};
ghost use Rattle.mixed_matrices.specs.Removals.{IsSurplus, IsUndetermined, without_equation, without_unknown};
ghost use Rattle.mixed_matrices.specs.StructuralRanks.{IsLayeredRank, IsStructuralRank};
ghost use Rattle.mixed_report_laws.specs.Examples.{plain_origins, tall_constants, tall_symbol_model, wide_model, wide_symbols};

/// The split entry has rank 1 and its layered matrix rank 2; without its equation, or without its unknown, each has one
/// less. So the equation is not surplus, and the unknown not undetermined.
pub fn split_entry_at_examples()
    ensures model { IsStructuralRank 65521 split_model 1 }
    ensures layered { IsLayeredRank 65521 split_matrix (1 + split_origins.split) }
    ensures without_equation { IsStructuralRank 65521 (without_equation 0 split_model) 0 }
    ensures without_row { IsLayeredRank 65521 (layered_part everything (without everything 0)
        everything split_matrix) 1 }
    ensures without_unknown { IsStructuralRank 65521 (without_unknown 0 split_model) 0 }
    ensures without_column { IsLayeredRank 65521 (layered_part everything everything (without everything 0)
        split_matrix) 1 }
    ensures not_surplus { IsSurplus 65521 split_model 0 → ⊥ }
    ensures not_undetermined { IsUndetermined 65521 split_model 0 → ⊥ }
{}

/// x + y over x and a symbol at y: the rank is 2, and 3 in the layered matrix, where one row is split. With 1 for its
/// symbol the rank is 1, and with 2 it is 2.
pub fn stacked_values_at_examples()
    ensures model { IsStructuralRank 65521 stacked_model 2 }
    ensures layered { IsLayeredRank 65521 stacked_matrix (2 + stacked_origins.split) }
    ensures one { IsRank 65521 (value stacked_model (λ i j. 1)) 2 2 everything 1 }
    ensures two { IsRank 65521 (value stacked_model (λ i j. 2)) 2 2 everything 2 }
{}

/// Without the equation of constants its Q row goes from the layered matrix, and without the split one its T row; the
/// rank of the model is then 1. No equation is surplus, and no unknown undetermined.
pub fn stacked_removals_at_examples()
    ensures without_constants { IsStructuralRank 65521 (without_equation 0 stacked_model) 1 }
    ensures without_q_row { IsLayeredRank 65521 (layered_part (without everything 0) everything everything
        stacked_matrix) 2 }
    ensures without_split { IsStructuralRank 65521 (without_equation 1 stacked_model) 1 }
    ensures without_t_row { IsLayeredRank 65521 (layered_part everything (without everything 0) everything
        stacked_matrix) 2 }
    ensures constants_not_surplus { IsSurplus 65521 stacked_model 0 → ⊥ }
    ensures split_not_surplus { IsSurplus 65521 stacked_model 1 → ⊥ }
    ensures first_not_undetermined { IsUndetermined 65521 stacked_model 0 → ⊥ }
    ensures second_not_undetermined { IsUndetermined 65521 stacked_model 1 → ⊥ }
{}

/// Of two equations with a symbol at one unknown each is surplus, and so is each of two equal equations of constants.
pub fn surplus_equations_at_examples()
    ensures layered_symbols { IsLayeredMatrixOf tall_symbol_model tall_symbols plain_origins }
    ensures symbols { IsSurplus 65521 tall_symbol_model 0 }
    ensures layered_constants { IsLayeredMatrixOf tall_model tall_constants plain_origins }
    ensures first_constants { IsSurplus 65521 tall_model 0 }
    ensures second_constants { IsSurplus 65521 tall_model 1 }
{}

/// Of one equation with a symbol at each of two unknowns both unknowns are undetermined.
pub fn undetermined_unknowns_at_examples()
    ensures layered { IsLayeredMatrixOf wide_model wide_symbols plain_origins }
    ensures first { IsUndetermined 65521 wide_model 0 }
    ensures second { IsUndetermined 65521 wide_model 1 }
{}
