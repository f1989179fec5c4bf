//! Each definition of the crate at three equations of one unknown, each with the constant 1, or at one entry with a
//! constant and a symbol: one case where it holds, and one where it fails.
ghost use Rattle.std.specs.Prelude.{true};
ghost use Rattle.residue_theory.specs.Sets.{everything, nothing, only};
ghost use Rattle.mixed_matrices.specs.Examples.{split_matrix, split_model, split_origins};
ghost use Rattle.mixed_matrices.specs.StructuralRanks.{IsLayeredRank};
ghost use Rattle.equation_matroid_laws.specs.Conflicts.{IsCircuitOf, IsConflictSet, IsInCircuit, IsSurplusAmong};
ghost use Rattle.equation_matroid_laws.specs.EquationRanks.{AreIndependent, IsLargestSize, IsOneToThree, IsRankAt};
ghost use Rattle.equation_matroid_laws.specs.EquationRanks.{IsRankOf, emptied_layers};
ghost use Rattle.equation_matroid_laws.specs.Examples.{first_and_last, rising, three_model};
ghost use Rattle.equation_matroid_laws.specs.GreedyChoices.{IsCheapestRepair, IsGreedyChoice, IsIndependentChoice};
ghost use Rattle.equation_matroid_laws.specs.GreedyChoices.{IsLine, IsPrefix, IsRepair, by_cost, by_number, outside};

/// All three have rank 1, and not 2; one of them is independent, and all three are not.
pub fn ranks_at_examples()
    ensures holds { IsRankOf 65521 three_model everything 1 }
    ensures fails { IsRankOf 65521 three_model everything 2 → ⊥ }
    ensures holds_at { IsRankAt 65521 three_model (λ i j. 0) everything 1 }
    ensures fails_at { IsRankAt 65521 three_model (λ i j. 0) everything 2 → ⊥ }
    ensures holds_independent { AreIndependent 65521 three_model (only 1) }
    ensures fails_independent { AreIndependent 65521 three_model everything → ⊥ }
    ensures holds_largest { IsLargestSize 65521 three_model everything 1 }
    ensures fails_largest { IsLargestSize 65521 three_model everything 0 → ⊥ }
    ensures holds_small { IsOneToThree 3 }
    ensures fails_small { IsOneToThree 4 → ⊥ }
{}

/// By rising number equation 0 is chosen, and equation 1 is not.
pub fn choices_at_examples()
    ensures holds_line { IsLine by_number }
    ensures fails_line { IsLine (λ d e. true) → ⊥ }
    ensures holds_prefix { IsPrefix 3 by_number everything (only 0) }
    ensures fails_prefix { IsPrefix 3 by_number everything (only 1) → ⊥ }
    ensures holds { IsGreedyChoice 65521 three_model by_number everything (only 0) }
    ensures fails { IsGreedyChoice 65521 three_model by_number everything (only 1) → ⊥ }
    ensures holds_independent { IsIndependentChoice 65521 three_model by_number everything (only 0) }
    ensures fails_independent { IsIndependentChoice 65521 three_model by_number everything (only 1) → ⊥ }
{}

/// Where each costs its number, equation 2 is chosen by cost, and to leave out the others is a cheapest repair; to keep
/// equation 0 is a repair, and not a cheapest one. To leave out none is no repair.
pub fn repairs_at_examples()
    ensures holds { IsGreedyChoice 65521 three_model (by_cost rising) everything (only 2) }
    ensures fails { IsGreedyChoice 65521 three_model (by_cost rising) everything (only 0) → ⊥ }
    ensures holds_repair { IsRepair 65521 three_model (outside (only 0)) }
    ensures fails_repair { IsRepair 65521 three_model nothing → ⊥ }
    ensures holds_cheapest { IsCheapestRepair 65521 three_model rising (outside (only 2)) }
    ensures fails_cheapest { IsCheapestRepair 65521 three_model rising (outside (only 0)) → ⊥ }
{}

/// Equation 2 is surplus among all, and not alone. It clashes with equation 0, and not with equation 1, which is left
/// out first.
pub fn conflicts_at_examples()
    ensures holds_surplus { IsSurplusAmong 65521 three_model everything 2 }
    ensures fails_surplus { IsSurplusAmong 65521 three_model (only 2) 2 → ⊥ }
    ensures holds { IsConflictSet 65521 three_model 2 first_and_last }
    ensures fails { IsConflictSet 65521 three_model 2 everything → ⊥ }
    ensures holds_member { IsInCircuit 65521 three_model (only 0) 2 0 }
    ensures fails_member { IsInCircuit 65521 three_model (only 0) 2 1 → ⊥ }
    ensures holds_circuit { IsCircuitOf 65521 three_model (only 0) 2 first_and_last }
    ensures fails_circuit { IsCircuitOf 65521 three_model (only 0) 2 everything → ⊥ }
{}

/// The layered matrix of one entry with a constant and a symbol has rank 1 where the equation is emptied, for the one
/// split row, and not 2.
pub fn emptied_layers_at_examples()
    ensures holds { IsLayeredRank 65521 (emptied_layers split_model split_origins nothing split_matrix) 1 }
    ensures fails { IsLayeredRank 65521 (emptied_layers split_model split_origins nothing split_matrix) 2 → ⊥ }
{}
