//! Each definition of mixed matrices up to minimisers at two worked examples: one where it holds, and one where it
//! fails.
ghost use Rattle.std.specs.Prelude.{◌≡◌, ◌-◌, true, false};
ghost use Rattle.residue_theory.specs.Sets.{everything, nothing, only};
ghost use Rattle.linear_algebra.specs.Products.{identity};
ghost use Rattle.mixed_matrices.specs.Arcs.{HasNoWalk, IsClosedIn, IsFromFree, IsOfMiddle, IsReachedFromFree, ReachesEnd};
ghost use Rattle.mixed_matrices.specs.Arcs.{ReachesIn, has_base, has_match, is_end, is_free, leads_to};
ghost use Rattle.mixed_matrices.specs.Examples.{cancelling_model, empty_tableau, split_matrix, split_model, split_origins};
ghost use Rattle.mixed_matrices.specs.Examples.{split_tableau, symbol_triangle, tall_model, triangle_tableau};
ghost use Rattle.mixed_matrices.specs.LayeredMatrices.{AreSameLayers, layered_part, layered_value};
ghost use Rattle.mixed_matrices.specs.Layerings.{AreMembers, IsLayeredMatrixOf};
ghost use Rattle.mixed_matrices.specs.Models.{AreSameModels, value};
ghost use Rattle.mixed_matrices.specs.Pairs.{IsBest, IsMatching, IsPair, matching_values, pair_size};
ghost use Rattle.mixed_matrices.specs.Removals.{IsSurplus, IsUndetermined, mixed_part};
ghost use Rattle.mixed_matrices.specs.SetFunctions.{IsMinimiser, IsNoGreater, IsRho, gamma, touches_set};
ghost use Rattle.mixed_matrices.specs.StructuralRanks.{IsLayeredRank, IsStructuralRank};
ghost use Rattle.mixed_matrices.specs.Tableaus.{HasTableau, IsTableau, tableau_part};

/// With 2 for its symbol, the entry of 1 and a symbol is 3; with 0 it is 1.
pub fn values_at_examples()
    ensures holds { value split_model (λ i j. 2) 0 0 ≡ 3 }
    ensures other { value split_model (λ i j. 0) 0 0 ≡ 1 }
    ensures no_symbol { value tall_model (λ i j. 2) 0 0 ≡ 1 }
{}

/// A constant may change by the modulus, and not by 1.
pub fn same_entries_at_examples()
    ensures holds { AreSameModels 65521 split_model (record split_model { constant = λ i j. 65522 }) }
    ensures fails { AreSameModels 65521 split_model (record split_model { constant = λ i j. 2 }) → ⊥ }
    ensures holds_for_layers { AreSameLayers 65521 split_matrix (record split_matrix { q = λ i j. 65522 }) }
    ensures fails_for_layers { AreSameLayers 65521 split_matrix symbol_triangle → ⊥ }
{}

/// The structural rank of one entry is 1 and not 0; that of 2 by 2 constants 1 is 1 and not 2.
pub fn structural_ranks_at_examples()
    ensures holds { IsStructuralRank 65521 split_model 1 }
    ensures fails { IsStructuralRank 65521 split_model 0 → ⊥ }
    ensures holds_for_constants { IsStructuralRank 65521 cancelling_model 1 }
    ensures fails_for_constants { IsStructuralRank 65521 cancelling_model 2 → ⊥ }
{}

/// The structural rank of a row 1 1 above two symbols is 2 and not 1.
pub fn layered_ranks_at_examples()
    ensures holds { IsLayeredRank 65521 split_matrix 2 }
    ensures fails { IsLayeredRank 65521 split_matrix 1 → ⊥ }
    ensures top { layered_value split_matrix (λ i j. 2) 0 1 ≡ 1 }
    ensures low { layered_value split_matrix (λ i j. 2) 1 1 ≡ 2 }
{}

/// The part of Q row 0 and column 1 has the entry there, and none in column 0 or T row 0.
pub fn parts_at_examples()
    ensures holds { (layered_part (only 0) nothing (only 1) split_matrix).q 0 1 ≡ 1 }
    ensures fails { (layered_part (only 0) nothing (only 1) split_matrix).q 0 0 ≡ 0 }
    ensures fails_below { (layered_part (only 0) nothing (only 1) split_matrix).t 0 1 ≡ false }
    ensures holds_for_models { (mixed_part (only 0) everything tall_model).constant 0 0 ≡ 1 }
    ensures fails_for_models { (mixed_part (only 0) everything tall_model).constant 1 0 ≡ 0 }
{}

/// One of two equal equations is surplus, and a lone one is not.
pub fn surplus_at_examples()
    ensures holds { IsSurplus 65521 tall_model 0 }
    ensures fails { IsSurplus 65521 split_model 0 → ⊥ }
{}

/// Of two unknowns that always cancel one is undetermined, and a lone one is not.
pub fn undetermined_at_examples()
    ensures holds { IsUndetermined 65521 cancelling_model 0 }
    ensures fails { IsUndetermined 65521 split_model 0 → ⊥ }
{}

/// An entry with a constant and a symbol gives a Q row, a T row and an auxiliary column; two T rows are not its layered
/// matrix.
pub fn layered_matrices_at_examples()
    ensures holds { IsLayeredMatrixOf split_model split_matrix split_origins }
    ensures fails { IsLayeredMatrixOf split_model symbol_triangle split_origins → ⊥ }
    ensures holds_of_members { AreMembers (only 1) 2 (λ k. 1) 1 }
    ensures fails_of_members { AreMembers (only 1) 2 (λ k. 0) 1 → ⊥ }
{}

/// Column 0 of the split entry touches one T row, and no column touches none.
pub fn gamma_at_examples()
    ensures holds { gamma split_matrix (only 0) ≡ 1 }
    ensures fails { gamma split_matrix nothing ≡ 0 }
    ensures touched { touches_set symbol_triangle (only 1) 0 ≡ true }
    ensures untouched { touches_set symbol_triangle (only 1) 1 ≡ false }
{}

/// The rank of the Q row 1 1 on both columns is 1, and not 2.
pub fn rho_at_examples()
    ensures holds { IsRho 65521 split_matrix everything 1 }
    ensures fails { IsRho 65521 split_matrix everything 2 → ⊥ }
{}

/// Of the split entry p is 0 on no column and 1 on column 0.
pub fn set_functions_at_examples()
    ensures holds { IsNoGreater 65521 split_matrix nothing (only 0) }
    ensures fails { IsNoGreater 65521 split_matrix (only 0) nothing → ⊥ }
{}

/// Both columns of the split entry are a minimiser, and so is no column; column 0 alone is none.
pub fn minimisers_at_examples()
    ensures holds { IsMinimiser 65521 split_matrix everything }
    ensures holds_of_none { IsMinimiser 65521 split_matrix nothing }
    ensures fails { IsMinimiser 65521 split_matrix (only 0) → ⊥ }
{}

/// The triangle's columns are matched with rows 1 and 0, and not with rows 0 and 1.
pub fn matchings_at_examples()
    ensures holds { IsMatching symbol_triangle everything (λ j. 1 - j) }
    ensures fails { IsMatching symbol_triangle everything (λ j. j) → ⊥ }
    ensures one { matching_values everything (λ j. 1 - j) 0 1 ≡ 1 }
    ensures zero_elsewhere { matching_values everything (λ j. 1 - j) 0 0 ≡ 0 }
{}

/// Column 0 in Q and column 1 in T are a pair, and a best one; both in Q beside column 1 are none, and column 0 alone
/// is not best.
pub fn pairs_at_examples()
    ensures holds { IsPair 65521 split_matrix (only 0) (only 1) (λ j. 0) }
    ensures fails { IsPair 65521 split_matrix everything (only 1) (λ j. 0) → ⊥ }
    ensures size { pair_size split_matrix (only 0) (only 1) ≡ 2 }
    ensures holds_for_best { IsBest 65521 split_matrix (only 0) (only 1) }
    ensures fails_for_best { IsBest 65521 split_matrix (only 0) nothing → ⊥ }
{}

/// With S = U = 1 the split entry has a tableau, and not with S = 2; nor has it one whose P is 0.
pub fn tableaus_at_examples()
    ensures holds { IsTableau 65521 split_matrix identity identity split_tableau }
    ensures fails { IsTableau 65521 split_matrix (λ i j. 2) identity split_tableau → ⊥ }
    ensures holds_without { HasTableau 65521 split_matrix split_tableau }
    ensures fails_without { HasTableau 65521 split_matrix (record split_tableau { P = λ i j. 0 }) → ⊥ }
    ensures part { (tableau_part everything (only 0) split_tableau).base 0 ≡ true }
    ensures no_part { (tableau_part everything (only 0) split_tableau).matched 1 ≡ false }
{}

/// The tests on a tableau: with column 0 in the base and column 1 matched there is no free column and no end,
/// and column 0 leads to column 1 but not to itself; with nothing in the base or matched column 0 is free and an end.
pub fn arcs_at_examples()
    ensures holds_for_base { has_base split_matrix split_tableau 0 ≡ true }
    ensures fails_for_base { has_base split_matrix empty_tableau 0 ≡ false }
    ensures holds_for_match { has_match split_matrix split_tableau 0 ≡ true }
    ensures fails_for_match { has_match split_matrix empty_tableau 0 ≡ false }
    ensures holds_for_free { is_free empty_tableau 0 ≡ true }
    ensures fails_for_free { is_free split_tableau 0 ≡ false }
    ensures holds_for_end { is_end 65521 split_matrix empty_tableau 0 ≡ true }
    ensures fails_for_end { is_end 65521 split_matrix split_tableau 0 ≡ false }
    ensures holds_for_arc { leads_to 65521 split_matrix split_tableau 0 1 ≡ true }
    ensures fails_for_arc { leads_to 65521 split_matrix split_tableau 0 0 ≡ false }
{}

/// In the triangle column 1 is closed, and column 0 is not; from no free column of the split entry an end is reached,
/// and with nothing in the base or matched one is.
pub fn closed_sets_at_examples()
    ensures holds { IsClosedIn 65521 symbol_triangle triangle_tableau (only 1) }
    ensures fails { IsClosedIn 65521 symbol_triangle triangle_tableau (only 0) → ⊥ }
    ensures holds_without_walk { HasNoWalk 65521 split_matrix split_tableau }
    ensures fails_with_walk { HasNoWalk 65521 split_matrix empty_tableau → ⊥ }
    ensures holds_reached { IsReachedFromFree 65521 split_matrix split_tableau nothing }
    ensures fails_reached { IsReachedFromFree 65521 split_matrix split_tableau everything → ⊥ }
{}

/// In the triangle column 0 reaches column 1 and not back, no column is reached from a free one or reaches an end, and
/// both are of the middle; with nothing in the base or matched column 0 of the split entry is free and an end itself.
pub fn walks_at_examples()
    ensures holds { ReachesIn 65521 symbol_triangle triangle_tableau 0 1 }
    ensures fails { ReachesIn 65521 symbol_triangle triangle_tableau 1 0 → ⊥ }
    ensures holds_from_free { IsFromFree 65521 split_matrix empty_tableau 0 }
    ensures fails_from_free { IsFromFree 65521 symbol_triangle triangle_tableau 0 → ⊥ }
    ensures holds_to_end { ReachesEnd 65521 split_matrix empty_tableau 0 }
    ensures fails_to_end { ReachesEnd 65521 symbol_triangle triangle_tableau 0 → ⊥ }
    ensures holds_of_middle { IsOfMiddle 65521 symbol_triangle triangle_tableau 0 }
    ensures fails_of_middle { IsOfMiddle 65521 split_matrix empty_tableau 0 → ⊥ }
{}
