//! The definitions at two equations of one unknown, each with the constant 1: equation 0 is kept, and equation 1 joins it
//! in vain; and at one entry with a constant and a symbol, which joins by its auxiliary column.
ghost use Rattle.std.specs.Prelude.{◌≡◌, true, false};
ghost use Rattle.residue_theory.specs.Sets.{everything, nothing, only, with_one};
ghost use Rattle.linear_algebra.specs.Products.{identity};
ghost use Rattle.mixed_matrices.specs.Examples.{empty_tableau, split_matrix, split_model, split_origins, tall_model};
ghost use Rattle.mixed_report_laws.specs.Examples.{plain_origins, tall_constant_tableau, tall_constants};
ghost use Rattle.mixed_report_laws.specs.Examples.{tall_transform};
ghost use Rattle.equation_matroid_laws.specs.Conflicts.{IsInCircuit};
ghost use Rattle.row_choice_laws.specs.Examples.{joining_tableau};
ghost use Rattle.row_choice_laws.specs.RowSearches.{IsJoining, AreRowsReachedInVain, is_bare_row, is_open, row_leads};
ghost use Rattle.row_choice_laws.specs.States.{KeepsEquations};

/// Row 0 has the column, to which row 1 has no entry left; before, row 0 has an entry at a free column.
pub fn rows_at_examples()
    ensures holds_bare { is_bare_row tall_constants tall_constant_tableau 1 ≡ true }
    ensures fails_bare { is_bare_row tall_constants tall_constant_tableau 0 ≡ false }
    ensures holds_open { is_open 65521 split_matrix empty_tableau 0 ≡ true }
    ensures fails_open { is_open 65521 tall_constants tall_constant_tableau 0 ≡ false }
    ensures holds_leads { row_leads 65521 tall_constants tall_constant_tableau 0 0 ≡ true }
    ensures fails_leads { row_leads 65521 tall_constants tall_constant_tableau 1 0 ≡ false }
{}

/// Equation 0 is kept, and not both; equation 1 joins it, and equation 0 does not join nothing, since its row has a column.
/// The split equation joins nothing once its auxiliary column is matched, and not before.
pub fn states_at_examples()
    ensures holds_kept { KeepsEquations 65521 tall_constants plain_origins tall_transform tall_constant_tableau
        (only 0) }
    ensures fails_kept { KeepsEquations 65521 tall_constants plain_origins tall_transform tall_constant_tableau
        everything → ⊥ }
    ensures holds_joining { IsJoining 65521 tall_model everything tall_constants plain_origins tall_transform
        tall_constant_tableau (only 0) 1 }
    ensures fails_joining { IsJoining 65521 tall_model everything tall_constants plain_origins tall_transform
        tall_constant_tableau nothing 0 → ⊥ }
    ensures holds_split { IsJoining 65521 split_model everything split_matrix split_origins identity joining_tableau
        nothing 0 }
    ensures fails_split { IsJoining 65521 split_model everything split_matrix split_origins identity empty_tableau
        nothing 0 → ⊥ }
{}

/// Row 1 alone is reached in vain; so equation 0 is in the circuit of equation 1.
pub fn searches_at_examples()
    ensures holds { AreRowsReachedInVain 65521 tall_constants plain_origins tall_constant_tableau (with_one (only 0) 1)
        (only 1) }
    ensures fails { AreRowsReachedInVain 65521 tall_constants plain_origins tall_constant_tableau (with_one (only 0) 1)
        nothing → ⊥ }
    ensures circuit { IsInCircuit 65521 tall_model (only 0) 1 0 }
{}
