//! The words and laws of layering at the split entry: one row with the constant 1 and a symbol in its one place.
ghost use Rattle.std.specs.Prelude.{◌+◌, ◌*◌, cond, eqb};
ghost use Rattle.linear_algebra.specs.Columns.{IsRank};
ghost use Rattle.residue_theory.specs.Sets.{everything};
ghost use Rattle.mixed_matrices.specs.Examples.{split_matrix, split_model, split_origins};
ghost use Rattle.mixed_matrices.specs.LayeredMatrices.{layered_value};
ghost use Rattle.mixed_matrices.specs.Models.{value};
ghost use Rattle.mixed_matrices.specs.StructuralRanks.{IsLayeredRank, IsStructuralRank};
ghost use Rattle.mixed_layering_laws.specs.LayeredValues.{AreFreeOfZeros, AreScaledValues, AreValuesFor, IsOneOrTwo};

/// The values 2 and -1 of the T row stand for the value 2 of the symbol, and 2 and 2 do not;
/// they may be scaled by 2, and not by 0.
pub fn values_at_examples()
    ensures holds { AreValuesFor 65521 split_model split_matrix split_origins (λ i j.
        2) (λ i j. cond (eqb j 0) 2 65520) }
    ensures fails { AreValuesFor 65521 split_model split_matrix split_origins (λ i j. 2) (λ i j. 2) → ⊥ }
    ensures holds_free { AreFreeOfZeros 65521 split_model split_matrix split_origins (λ i j. j) }
    ensures fails_free { AreFreeOfZeros 65521 split_model split_matrix split_origins (λ i j. 0) → ⊥ }
    ensures holds_scaled { AreScaledValues 65521 split_matrix (λ i. 2) (λ i j. j) (λ i j. 2 * j) }
    ensures fails_scaled { AreScaledValues 65521 split_matrix (λ i. 0) (λ i j. j) (λ i j. 0) → ⊥ }
    ensures holds_small { IsOneOrTwo 2 }
    ensures fails_small { IsOneOrTwo 0 → ⊥ }
{}

/// The split entry has rank 1, and its layered matrix, with one row split, rank 2.
/// With -1 for its symbol the entry is zero, and the layered matrix with -1 and -1 in the T row has rank 1.
pub fn layering_at_examples()
    ensures model { IsStructuralRank 65521 split_model 1 }
    ensures layered { IsLayeredRank 65521 split_matrix (1 + split_origins.split) }
    ensures zero_entry { IsRank 65521 (value split_model (λ i j. 65520)) 1 1 everything 0 }
    ensures layered_zero { IsRank 65521 (layered_value split_matrix (λ i j.
        65520)) 2 2 everything (0 + split_origins.split) }
{}
