//! Each definition of linear algebra at two worked examples: one where it holds, and one where it fails.
ghost use Rattle.std.specs.Prelude.{ℕ, ◌+◌, ◌≡◌};
ghost use Rattle.residue_theory.specs.Sets.{everything, only};
ghost use Rattle.linear_algebra.specs.Columns.{IsIndependent, IsRank, Combines, IsCombination};
ghost use Rattle.linear_algebra.specs.Kernels.{SameKernel};
ghost use Rattle.linear_algebra.specs.Products.{product, identity, transposed, Agree, IsInverse};
ghost use Rattle.linear_algebra.specs.Bases.{IsBase, HasNoBase};
ghost use Rattle.linear_algebra.specs.RowOperations.{IsRowAdded, IsRowScaled, IsPivoted};
ghost use Rattle.linear_algebra.specs.Parts.{part, above, with_column, without_row, without_column, with_entry, diagonal, IsBlockTriangular};
ghost use Rattle.linear_algebra_laws.specs.Examples.{all_ones, one_row, triangle, stairs, stairs_inverse, all_zero};

/// One column of ones is independent; two are not.
pub fn independence_at_examples()
    ensures holds { IsIndependent 65521 all_ones 2 2 (only 0) }
    ensures fails { IsIndependent 65521 all_ones 2 2 everything → ⊥ }
{}

/// The rank of the 2 by 2 matrix of all ones is 1, and not 2.
pub fn rank_at_examples()
    ensures holds { IsRank 65521 all_ones 2 2 everything 1 }
    ensures fails { IsRank 65521 all_ones 2 2 everything 2 → ⊥ }
{}

/// Column 1 of all ones is a combination of column 0, and that of the identity matrix is not; likewise for columns
/// beside the matrix.
pub fn combinations_at_examples()
    ensures holds { IsCombination 65521 all_ones 2 2 (only 0) 1 }
    ensures fails { IsCombination 65521 identity 2 2 (only 0) 1 → ⊥ }
    ensures holds_beside { Combines 65521 all_ones 2 2 everything (λ i. 3) }
    ensures fails_beside { Combines 65521 all_ones 2 2 everything (λ i. i) → ⊥ }
{}

/// Twice the matrix of all ones has its kernel; the identity matrix has another.
pub fn kernels_at_examples()
    ensures holds { SameKernel 65521 2 2 all_ones (λ i j. 2) }
    ensures fails { SameKernel 65521 2 2 all_ones identity → ⊥ }
{}

/// The square of all ones has 2 at each place, and not 1.
pub fn products_at_examples()
    ensures holds { Agree 65521 2 2 (product 2 all_ones all_ones) (λ i j. 2) }
    ensures fails { Agree 65521 2 2 (product 2 all_ones all_ones) all_ones → ⊥ }
{}

/// Rows 1 1 and 0 1 transposed are rows 1 0 and 1 1, and not themselves.
pub fn transposes_at_examples()
    ensures holds { Agree 65521 2 2 (transposed triangle) (with_entry all_ones 0 1 0) }
    ensures fails { Agree 65521 2 2 (transposed triangle) triangle → ⊥ }
{}

/// Rows 0 1 and 1 2 have the inverse with rows -2 1 and 1 0; all ones has none.
pub fn inverses_at_examples()
    ensures holds { IsInverse 65521 2 stairs stairs_inverse }
    ensures fails { (U : ℕ → ℕ → ℕ) → IsInverse 65521 2 all_ones U → ⊥ }
{}

/// The columns of the identity matrix are a base; a column of two ones is none, at any row.
pub fn bases_at_examples()
    ensures holds { IsBase 65521 identity 2 2 everything (λ b. b) }
    ensures fails { (row : ℕ → ℕ) → IsBase 65521 all_ones 2 2 (only 0) row → ⊥ }
    ensures holds_without { HasNoBase 2 (only 0) (λ b. b) 1 }
    ensures fails_without { HasNoBase 2 (only 0) (λ b. b) 0 → ⊥ }
{}

/// Row 1 of the triangle with row 0 added once is that of rows 1 1 and 1 2, and not with it added twice.
pub fn added_rows_at_examples()
    ensures holds { IsRowAdded 65521 2 2 triangle (with_entry all_ones 1 1 2) 1 0 1 }
    ensures fails { IsRowAdded 65521 2 2 triangle (with_entry all_ones 1 1 2) 1 0 2 → ⊥ }
{}

/// Row 1 of all ones multiplied by 0 is that of rows 1 1 and 0 0, and not multiplied by 2.
pub fn scaled_rows_at_examples()
    ensures holds { IsRowScaled 65521 2 2 all_ones one_row 1 0 }
    ensures fails { IsRowScaled 65521 2 2 all_ones one_row 1 2 → ⊥ }
{}

/// A pivot at row 0 and column 0 of all ones gives rows 1 1 and 0 0, and does not leave all ones.
pub fn pivots_at_examples()
    ensures holds { IsPivoted 65521 2 2 all_ones one_row 0 0 }
    ensures fails { IsPivoted 65521 2 2 all_ones all_ones 0 0 → ⊥ }
{}

/// The part of row 0 of all ones has rows 1 1 and 0 0, and is not all ones.
pub fn parts_at_examples()
    ensures holds { Agree 65521 2 2 (part (only 0) everything all_ones) one_row }
    ensures fails { Agree 65521 2 2 (part (only 0) everything all_ones) all_ones → ⊥ }
{}

/// A row of ones above a row of zeros has rows 1 1 and 0 0; the other way round it has not.
pub fn stacks_at_examples()
    ensures holds { Agree 65521 2 2 (above 1 all_ones all_zero) one_row }
    ensures fails { Agree 65521 2 2 (above 1 all_zero all_ones) one_row → ⊥ }
{}

/// A column of ones with the column 1 2 beside it is rows 1 1 and 1 2, and not all ones.
pub fn columns_beside_at_examples()
    ensures holds { Agree 65521 2 2 (with_column 1 all_ones (λ i. i + 1)) (with_entry all_ones 1 1 2) }
    ensures fails { Agree 65521 2 2 (with_column 1 all_ones (λ i. i + 1)) all_ones → ⊥ }
{}

/// Rows 0 1 and 1 2 without row 0 are the row 1 2, and not the row 0 1.
pub fn row_removal_at_examples()
    ensures holds { Agree 65521 1 2 (without_row 0 stairs) (λ i j. j + 1) }
    ensures fails { Agree 65521 1 2 (without_row 0 stairs) stairs → ⊥ }
{}

/// Rows 0 1 and 1 2 without column 0 are the column 1 2, and not the column 0 1.
pub fn column_removal_at_examples()
    ensures holds { Agree 65521 2 1 (without_column 0 stairs) (λ i j. i + 1) }
    ensures fails { Agree 65521 2 1 (without_column 0 stairs) stairs → ⊥ }
{}

/// All ones with 0 at row 1 and column 0 is rows 1 1 and 0 1; with 0 at row 0 and column 1 it is not.
pub fn changed_entries_at_examples()
    ensures holds { Agree 65521 2 2 (with_entry all_ones 1 0 0) triangle }
    ensures fails { Agree 65521 2 2 (with_entry all_ones 0 1 0) triangle → ⊥ }
{}

/// Rows 1 1 and 0 1 are block triangular with a part for each row and column, and all ones is not;
/// the first diagonal part is the one entry at the top left, and not the row.
pub fn block_triangles_at_examples()
    ensures holds { IsBlockTriangular 65521 triangle 2 2 (λ i. i) (λ j. j) }
    ensures fails { IsBlockTriangular 65521 all_ones 2 2 (λ i. i) (λ j. j) → ⊥ }
    ensures holds_diagonal { Agree 65521 2 2 (diagonal (λ i. i) (λ j. j) triangle 0) (part (only 0) (only 0) all_ones) }
    ensures fails_diagonal { Agree 65521 2 2 (diagonal (λ i. i) (λ j. j) triangle 0) one_row → ⊥ }
{}
