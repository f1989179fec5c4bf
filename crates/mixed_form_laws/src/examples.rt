//! Each definition of forms and canonical parts at two worked examples: one where it holds, and one where it fails.
ghost use Rattle.std.specs.Prelude.{◌≡◌, ℕ, Bool, true, false};
ghost use Rattle.residue_theory.specs.Sets.{only};
ghost use Rattle.linear_algebra.specs.Products.{identity};
ghost use Rattle.mixed_matrices.specs.CanonicalParts.{AreCanonical, AreRightParts, IsBlockBelow, IsHeldWith, IsIdealOf};
ghost use Rattle.mixed_matrices.specs.CanonicalParts.{IsLeastColumn, IsLowerBlock, IsOfBlock, IsReadyAt};
ghost use Rattle.mixed_matrices.specs.CheckerRules.{HasRows, IsListingIn, KeepsPartRules, block_of, in_first, in_last};
ghost use Rattle.mixed_matrices.specs.Examples.{loose_parts, loose_symbols, loose_tableau, stacked_inverse, stacked_matrix};
ghost use Rattle.mixed_matrices.specs.Examples.{stacked_model, stacked_origins, stacked_parts, stacked_tableau};
ghost use Rattle.mixed_matrices.specs.Examples.{stacked_transform, symbol_triangle, tall_parts, tall_symbols, tall_tableau};
ghost use Rattle.mixed_matrices.specs.Examples.{triangle_below, triangle_lower, triangle_parts, triangle_tableau};
ghost use Rattle.mixed_matrices.specs.Examples.{turned_parts, whole_parts};
ghost use Rattle.mixed_matrices.specs.Forms.{IsAsFine, IsEmptyAt, IsForm, IsOrdered, IsTriangular, diagonal_part, part_columns, part_rows};
ghost use Rattle.mixed_matrices.specs.Layerings.{IsLayeredMatrixOf};
ghost use Rattle.mixed_matrices.specs.SetFunctions.{IsMinimiser};
ghost use Rattle.mixed_matrices.specs.StructuralRanks.{IsLayeredRank};
ghost use Rattle.mixed_matrices.specs.Tableaus.{IsTableau};

/// Part 1 of the triangle has one column and one row, and as one block it has two of each.
pub fn part_sizes_at_examples()
    ensures columns { part_columns symbol_triangle triangle_parts 1 ≡ 1 }
    ensures rows { part_rows symbol_triangle triangle_parts 1 ≡ 1 }
    ensures whole_columns { part_columns symbol_triangle whole_parts 1 ≡ 2 }
    ensures no_columns { part_columns symbol_triangle triangle_parts 0 ≡ 0 }
{}

/// At the row of block 1 and the column of block 0 the triangle has no entry; the other way round it has one.
pub fn empty_places_at_examples()
    ensures holds { IsEmptyAt 65521 symbol_triangle triangle_parts 2 1 }
    ensures fails { IsEmptyAt 65521 symbol_triangle triangle_parts 1 2 → ⊥ }
{}

/// The triangle's parts are a form, and with the blocks turned round they are none;
/// a column with two symbols is a form with all in the last tail.
pub fn forms_at_examples()
    ensures holds { IsForm 65521 symbol_triangle identity triangle_parts }
    ensures fails { IsForm 65521 symbol_triangle identity turned_parts → ⊥ }
    ensures holds_for_last { IsForm 65521 tall_symbols identity tall_parts }
    ensures triangular { IsTriangular 65521 symbol_triangle triangle_parts }
    ensures not_triangular { IsTriangular 65521 symbol_triangle turned_parts → ⊥ }
    ensures diagonal { (diagonal_part symbol_triangle triangle_parts 1).t 0 1 ≡ true }
    ensures beside { (diagonal_part symbol_triangle triangle_parts 1).t 0 0 ≡ false }
{}

/// The triangle's blocks are ordered with block 0 below block 1, and not with no block below another.
pub fn orders_at_examples()
    ensures holds { IsOrdered 65521 symbol_triangle identity triangle_parts (λ k l. triangle_below k l ≡ true) }
    ensures fails { IsOrdered 65521 symbol_triangle identity triangle_parts (λ k l. ⊥) → ⊥ }
{}

/// Two blocks are at least as fine as one, and not the other way round.
pub fn fineness_at_examples()
    ensures holds { IsAsFine symbol_triangle triangle_parts whole_parts }
    ensures fails { IsAsFine symbol_triangle whole_parts triangle_parts → ⊥ }
{}

/// The triangle's two blocks are its canonical parts; turned round, or as one block, they are not.
pub fn canonical_parts_at_examples()
    ensures holds { AreCanonical 65521 symbol_triangle triangle_parts }
    ensures fails_turned { AreCanonical 65521 symbol_triangle turned_parts → ⊥ }
    ensures fails_whole { AreCanonical 65521 symbol_triangle whole_parts → ⊥ }
    ensures holds_of_block { IsOfBlock symbol_triangle triangle_parts 0 1 }
    ensures fails_of_block { IsOfBlock symbol_triangle triangle_parts 0 0 → ⊥ }
    ensures holds_least { IsLeastColumn symbol_triangle triangle_parts 0 1 }
    ensures fails_least { IsLeastColumn symbol_triangle whole_parts 0 1 → ⊥ }
{}

/// Each minimiser with column 0 holds column 1, and not the other way round; so block 0 is below block 1,
/// is in its lower list, and stands before it.
pub fn lower_blocks_at_examples()
    ensures holds { IsHeldWith 65521 symbol_triangle 0 1 }
    ensures fails { IsHeldWith 65521 symbol_triangle 1 0 → ⊥ }
    ensures holds_below { IsBlockBelow 65521 symbol_triangle triangle_parts 0 1 }
    ensures fails_below { IsBlockBelow 65521 symbol_triangle triangle_parts 1 0 → ⊥ }
    ensures holds_lower { IsLowerBlock 65521 symbol_triangle triangle_parts 0 1 }
    ensures fails_lower { IsLowerBlock 65521 symbol_triangle triangle_parts 1 0 → ⊥ }
    ensures holds_ready { IsReadyAt 65521 symbol_triangle triangle_parts 1 1 }
    ensures fails_ready { IsReadyAt 65521 symbol_triangle triangle_parts 0 1 → ⊥ }
{}

/// Column 1 is the ideal of block 0; column 0 alone is no ideal, of any blocks.
pub fn ideals_at_examples()
    ensures holds { IsIdealOf symbol_triangle triangle_parts triangle_below (only 0) (only 1) }
    ensures fails { (B : ℕ → Bool) → IsIdealOf symbol_triangle triangle_parts triangle_below B (only 0) → ⊥ }
{}

/// The triangle's parts keep the rules; with empty lists, or turned round, they do not.
/// Two symbols in one column keep them with all in the last tail.
pub fn rules_at_examples()
    ensures holds { KeepsPartRules 65521 symbol_triangle triangle_tableau triangle_parts triangle_below triangle_lower }
    ensures fails { KeepsPartRules 65521 symbol_triangle triangle_tableau triangle_parts triangle_below
        (λ l k. false) → ⊥ }
    ensures fails_turned { (below : ℕ → ℕ → Bool) → (lower : ℕ → ℕ → Bool) →
        KeepsPartRules 65521 symbol_triangle triangle_tableau turned_parts below lower → ⊥ }
    ensures holds_for_last { KeepsPartRules 65521 tall_symbols tall_tableau tall_parts (λ k l. false) (λ l k. false) }
    ensures holds_for_rows { HasRows symbol_triangle triangle_tableau triangle_parts }
    ensures fails_for_rows { HasRows symbol_triangle triangle_tableau (record triangle_parts { t_row = λ i. 1 }) → ⊥ }
    ensures holds_for_listing { IsListingIn 65521 symbol_triangle triangle_tableau triangle_parts }
    ensures fails_for_listing { IsListingIn 65521 symbol_triangle triangle_tableau turned_parts → ⊥ }
    ensures last { in_last tall_parts 0 ≡ true }
    ensures no_last { in_last triangle_parts 0 ≡ false }
    ensures no_first { in_first triangle_parts 0 ≡ false }
    ensures block { block_of triangle_parts 0 ≡ 1 }
{}

/// The triangle's parts are right with their lower list, and not with empty lists.
pub fn right_parts_at_examples()
    ensures holds { AreRightParts 65521 symbol_triangle identity triangle_parts triangle_below triangle_lower }
    ensures fails { AreRightParts 65521 symbol_triangle identity triangle_parts triangle_below (λ l k. false) → ⊥ }
{}

/// Of two loose symbols every column set is a minimiser, so each column is a block of its own, and both are not one
/// block.
pub fn loose_symbols_at_examples()
    ensures holds { (X : ℕ → Bool) → IsMinimiser 65521 loose_symbols X }
    ensures canonical { AreCanonical 65521 loose_symbols loose_parts }
    ensures fails { AreCanonical 65521 loose_symbols whole_parts → ⊥ }
    ensures kept { KeepsPartRules 65521 loose_symbols loose_tableau loose_parts (λ k l. false) (λ l k. false) }
{}

/// The equation x + y over x and a symbol at y: its layered matrix has rank 3, and with an S that is no permutation
/// it has a form with two blocks. Column 0 is a minimiser, and column 1 is none.
pub fn stacked_equations_at_examples()
    ensures layered { IsLayeredMatrixOf stacked_model stacked_matrix stacked_origins }
    ensures rank { IsLayeredRank 65521 stacked_matrix 3 }
    ensures transformed_by { IsTableau 65521 stacked_matrix stacked_transform stacked_inverse stacked_tableau }
    ensures form { IsForm 65521 stacked_matrix stacked_transform stacked_parts }
    ensures no_form { IsForm 65521 stacked_matrix identity stacked_parts → ⊥ }
    ensures canonical { AreCanonical 65521 stacked_matrix stacked_parts }
    ensures kept { KeepsPartRules 65521 stacked_matrix stacked_tableau stacked_parts triangle_below triangle_lower }
    ensures minimiser { IsMinimiser 65521 stacked_matrix (only 0) }
    ensures no_minimiser { IsMinimiser 65521 stacked_matrix (only 1) → ⊥ }
{}
