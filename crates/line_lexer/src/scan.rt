//! The first byte that passes a test, sought many at a time.

ghost use Rattle.std.specs.Prelude.{◌≡◌, ◌<◌, ◌≤◌, ◌+◌, ℕ, Bool, true, false, map, length, position, slice_index, MatchOption};
ghost use Rattle.std.specs.Simd.Lanes.{mask_l};

use std::simd::prelude::*;

/// A test of a byte.
pub(crate) trait ByteTest {
    ghost holds: { ℕ → Bool };

    fn passes(byte: u8) -> bool
        ensures { result ≡ holds byte };
}

/// The same test of N bytes.
pub(crate) trait LaneTest<const N: usize>: ByteTest {
    // A bit for each lane that passes.
    fn marks(lanes: Simd<u8, N>) -> u64
        requires { N ≤ 64 }
        ensures { result ≡ mask_l (map Self.holds lanes.entry) };
}

/// The place of the first byte that passes.
pub(crate) fn first_place<T: LaneTest<8> + LaneTest<16>>(bytes: &[u8]) -> Option<usize>
    ensures { result ≡ position T.holds bytes.now }
{
    if bytes.len() >= 16 {
        first_by::<16, T>(bytes)
    } else if bytes.len() >= 8 {
        first_by::<8, T>(bytes)
    } else {
        bytes.iter().position(|byte| T::passes(*byte))
    }
}

// The same, sought N bytes at a time.
#[inline(always)]
fn first_by<const N: usize, T: LaneTest<N>>(bytes: &[u8]) -> Option<usize>
    requires lanes { (0 < N) × (N ≤ 16) }
    requires whole { N ≤ length bytes.now }
    ensures { result ≡ position T.holds bytes.now }
{
    let mut place = 0;
    while bytes.len() - place >= N {
        if let Some(found) = first_marked::<N, T>(bytes, place) {
            return Some(found);
        }
        place += N;
    }
    // the last bytes, with some before them again
    first_marked::<N, T>(bytes, bytes.len() - N)
}

// The place of the first of N bytes that passes.
#[inline(always)]
fn first_marked<const N: usize, T: LaneTest<N>>(bytes: &[u8], place: usize) -> Option<usize>
    requires lanes { N ≤ 16 }
    requires within { place + N ≤ length bytes.now }
    ensures { MatchOption result
        ((k : ℕ) → place ≤ k → k < place + N → T.holds (slice_index bytes.now k) ≡ false)
        (λ found. (found < place + N) × (T.holds (slice_index bytes.now found) ≡ true)
        × ((k : ℕ) → place ≤ k → k < found → T.holds (slice_index bytes.now k) ≡ false)) }
{
    let marks = T::marks(Simd::<u8, N>::from_slice(&bytes[place..]));
    if marks == 0 {
        return None;
    }
    Some(place + marks.trailing_zeros() as usize)
}
