//! Each definition of the crate at one entry with the constant -1 and a symbol: one case where it holds, and one where it
//! fails.
ghost use Rattle.std.specs.Prelude.{◌≡◌, ◌∷◌, []};
ghost use Rattle.residue_theory.specs.Sets.{everything, nothing};
ghost use Rattle.value_list_laws.specs.Examples.{always, minus_model};
ghost use Rattle.value_list_laws.specs.FixedSymbols.{HaveNumbersAt, IsRankWith, IsSymbolPlace, KeepsRank, LowersRank};
ghost use Rattle.value_list_laws.specs.FixedSymbols.{PutsNumberAt, ReachesRank, fixed_at, place};
ghost use Rattle.value_list_laws.specs.KeptInverses.{ShowsALowering};
ghost use Rattle.value_list_laws.specs.ListedValues.{IsFirstReachingList, IsReachingList, ListComesBefore};
ghost use Rattle.value_list_laws.specs.ListedValues.{symbol_count};
ghost use Rattle.value_list_laws.specs.Paths.{HasPath};
ghost use Rattle.value_list_laws.specs.ValueLists.{ComesBefore, IsFirstList, IsGreedyList, IsValueList, IsWitness};

/// The symbol may be fixed to 2, and 1 in its place lowers the rank.
pub fn fixed_symbols_at_examples()
    ensures holds_place { IsSymbolPlace minus_model 0 0 }
    ensures fails_place { IsSymbolPlace minus_model 1 0 → ⊥ }
    ensures holds_numbers { HaveNumbersAt 65521 minus_model (place 0 0) (always 2) (always 65523) }
    ensures fails_numbers { HaveNumbersAt 65521 minus_model (place 0 0) (always 2) (always 1) → ⊥ }
    ensures holds_reaches { ReachesRank 65521 minus_model (always 2) }
    ensures fails_reaches { ReachesRank 65521 minus_model (always 1) → ⊥ }
    ensures holds_keeps { KeepsRank 65521 minus_model (fixed_at 0 0 2 minus_model) }
    ensures fails_keeps { KeepsRank 65521 minus_model (fixed_at 0 0 1 minus_model) → ⊥ }
    ensures holds_lowers { LowersRank 65521 minus_model (fixed_at 0 0 1 minus_model) }
    ensures fails_lowers { LowersRank 65521 minus_model (fixed_at 0 0 2 minus_model) → ⊥ }
    ensures holds_with { IsRankWith 65521 minus_model (place 0 0) (always 2) 1 }
    ensures fails_with { IsRankWith 65521 minus_model (place 0 0) (always 1) 1 → ⊥ }
    ensures holds_puts { PutsNumberAt 65521 minus_model (fixed_at 0 0 2 minus_model) 0 0 2 }
    ensures fails_puts { PutsNumberAt 65521 minus_model minus_model 0 0 2 → ⊥ }
{}

/// The first list has a 2.
pub fn lists_at_examples()
    ensures holds_list { IsValueList minus_model (always 2) }
    ensures fails_list { IsValueList minus_model (always 3) → ⊥ }
    ensures holds_before { ComesBefore minus_model (always 1) (always 2) }
    ensures fails_before { ComesBefore minus_model (always 2) (always 1) → ⊥ }
    ensures holds { IsFirstList 65521 minus_model (always 2) }
    ensures fails { IsFirstList 65521 minus_model (always 1) → ⊥ }
    ensures holds_greedy { IsGreedyList 65521 minus_model (always 2) }
    ensures fails_greedy { IsGreedyList 65521 minus_model (always 1) → ⊥ }
    ensures holds_witness { IsWitness 65521 minus_model (always 2) 0 0 (always 7) }
    ensures fails_witness { IsWitness 65521 minus_model (always 2) 0 0 (always 1) → ⊥ }
{}

/// As data it is the list of one 2.
pub fn listed_values_at_examples()
    ensures count { symbol_count minus_model ≡ 1 }
    ensures holds_reaching { IsReachingList 65521 minus_model (2 ∷ []) }
    ensures fails_reaching { IsReachingList 65521 minus_model (1 ∷ []) → ⊥ }
    ensures holds_before { ListComesBefore (1 ∷ []) (2 ∷ []) }
    ensures fails_before { ListComesBefore (2 ∷ []) (1 ∷ []) → ⊥ }
    ensures holds { IsFirstReachingList 65521 minus_model (2 ∷ []) }
    ensures fails { IsFirstReachingList 65521 minus_model (1 ∷ []) → ⊥ }
{}

/// The inverse of 1, which is kept for the value 2, shows it; no path leads through another symbol.
pub fn kept_inverses_at_examples()
    ensures holds { ShowsALowering 65521 minus_model (always 2) (always 1) 0 0 65520 nothing }
    ensures fails { ShowsALowering 65521 minus_model (always 2) (always 1) 0 0 65520 everything → ⊥ }
    ensures holds_path { HasPath 65521 minus_model (always 1) 0 0 0 0 }
    ensures fails_path { HasPath 65521 minus_model (always 1) 0 0 1 0 → ⊥ }
{}
