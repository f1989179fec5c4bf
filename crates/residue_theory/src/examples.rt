//! Each definition of residues, sets and sums at worked examples: one where it holds, and one where it fails.
ghost use Rattle.std.specs.Prelude.{◌≡◌, ◌*◌, true, false};
ghost use Rattle.residue_theory.specs.Residues.{IsPrime};
ghost use Rattle.residue_theory.specs.Sets.{everything, nothing, only, without, with_one, both, either, some_below, IsWithin, IsApart};
ghost use Rattle.residue_theory.specs.Sums.{sum_on, size_on, sum_below};

/// 7 is a prime; 9 and 1 are none.
pub fn primes_at_examples()
    ensures holds { IsPrime 7 }
    ensures fails { IsPrime 9 → ⊥ }
    ensures fails_at_one { IsPrime 1 → ⊥ }
{}

/// The numbers without 1 hold 0 and not 1; 2 with 1 put in holds 1 and not 0;
/// of {1} and everything both hold 1 and not 0; {1} or {2} holds 2 and not 0.
pub fn sets_at_examples()
    ensures without_holds { without everything 1 0 ≡ true }
    ensures without_fails { without everything 1 1 ≡ false }
    ensures with_one_holds { with_one (only 2) 1 1 ≡ true }
    ensures with_one_fails { with_one (only 2) 1 0 ≡ false }
    ensures both_holds { both (only 1) everything 1 ≡ true }
    ensures both_fails { both (only 1) everything 0 ≡ false }
    ensures either_holds { either (only 1) (only 2) 2 ≡ true }
    ensures either_fails { either (only 1) (only 2) 0 ≡ false }
{}

/// Below 2, {1} is within everything and not the other way round; {1} is apart from {0} and not from itself;
/// below 2 the set {1} has a member, and below 1 none.
pub fn relations_of_sets_at_examples()
    ensures within_holds { IsWithin 2 (only 1) everything }
    ensures within_fails { IsWithin 2 everything (only 1) → ⊥ }
    ensures apart_holds { IsApart 2 (only 1) (only 0) }
    ensures apart_fails { IsApart 2 (only 1) (only 1) → ⊥ }
    ensures some_holds { some_below 2 (only 1) ≡ true }
    ensures some_fails { some_below 1 (only 1) ≡ false }
{}

/// Below 4 and without 1 there are three numbers, and the sum of their squares is 13; of all it is 14.
pub fn sums_at_examples()
    ensures size { size_on (without everything 1) 4 ≡ 3 }
    ensures no_size { size_on nothing 4 ≡ 0 }
    ensures sum { sum_on (without everything 1) 4 (λ j. j * j) ≡ 13 }
    ensures whole_sum { sum_below 4 (λ j. j * j) ≡ 14 }
{}
