//! Numbers modulo a prime: sets of numbers, sums over a set, residues, and their laws. No code.
#![tactic(auto)]

pub mod examples;

ghost use Rattle.residue_theory.specs.Residues.{IsPrime};
ghost use Rattle.residue_theory.specs.Laws.{EachNonZeroHasAnInverse, ProductVanishesOnlyByAFactor};

/// 65,521 is a prime.
pub fn prime_below_sixteen_bits()
    ensures { IsPrime 65521 }
{}

/// 2,147,483,647 is a prime.
pub fn prime_below_thirty_one_bits()
    ensures { IsPrime 2147483647 }
{}

/// Modulo a prime, each number that is not zero has an inverse.
pub fn each_non_zero_has_an_inverse()
    ensures { EachNonZeroHasAnInverse }
{}

/// Modulo a prime, a product is zero only where a factor is.
pub fn product_vanishes_only_by_a_factor()
    ensures { ProductVanishesOnlyByAFactor }
{}
