//! Rising lists of numbers, which are short.

ghost use Rattle.std.specs.Prelude.{◌≡◌};
ghost use Rattle.std.specs.List.Sorted.{IsStrictlyIncreasing};
ghost use Rattle.residue_theory.specs.Sets.{has};

use smallvec::SmallVec;

// Most rows and columns have few symbol places.
pub type Numbers = SmallVec<u32, 6>;

/// Whether a rising list holds a number.
pub fn holds(list: &[u32], number: usize) -> bool
    requires { IsStrictlyIncreasing list.now }
    ensures { result ≡ has list.now number }
{
    match u32::try_from(number) {
        Ok(number) => list.binary_search(&number).is_ok(),
        Err(_) => false,
    }
}
