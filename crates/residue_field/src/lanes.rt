//! Rows of residues modulo 65,521, sixteen places at a time in lanes of 32 bits.

ghost use Rattle.std.specs.Prelude.{◌≡◌, ℕ, ◌+◌, ◌*◌, ◌%◌, ◌<◌, ◌≤◌, length, slice_index};
ghost use Rattle.residue_field.specs.Lanes.{AreBelow, HasLanes, IsAddedLane, AreLanesStored, folded};

use crate::field::Field;
use crate::res::{MODULUS, Res};
use std::simd::prelude::*;

// How many places are taken at a time.
const LANES: usize = 16;

/// Adds c times the value at the same place of `src` to each value of `dst`.
pub(crate) fn add_scaled(dst: &mut [Res], src: &[Res], c: Res)
    requires { length dst.old ≡ length src.now }
    ensures { IsAddedLane 65521 c 0 (length dst.old) dst.old src.now dst.new }
{
    let blocks = dst.len() / LANES;
    for block in 0..blocks {
        add_block(dst, src, c, block * LANES);
    }
    add_rest(dst, src, c, blocks * LANES);
}

// The same at sixteen places.
#[inline(always)]
fn add_block(dst: &mut [Res], src: &[Res], c: Res, at: usize)
    requires equal { length dst.old ≡ length src.now }
    requires room { at + 16 ≤ length dst.old }
    ensures { IsAddedLane 65521 c at (at + 16) dst.old src.now dst.new }
{
    let values = load(dst, at);
    let others = load(src, at);
    store(dst, at, sums(values, others, c));
}

// The same at the places from this one on.
fn add_rest(dst: &mut [Res], src: &[Res], c: Res, from: usize)
    requires equal { length dst.old ≡ length src.now }
    requires room { from ≤ length dst.old }
    ensures { IsAddedLane 65521 c from (length dst.old) dst.old src.now dst.new }
{
    for i in from..dst.len() {
        dst[i] = dst[i].plus_multiple(c, src[i]);
    }
}

// The values at sixteen places.
#[inline(always)]
fn load(row: &[Res], at: usize) -> u32x16
    requires { at + 16 ≤ length row.now }
    ensures lanes { HasLanes result (λ i. slice_index row.now (at + i)) }
    ensures below { AreBelow 65521 result }
{
    let mut values = [0; LANES];
    for i in 0..LANES {
        let residue = row[at + i];
        values[i] = residue.value;
    }
    u32x16::from_array(values)
}

// Puts values at sixteen places.
#[inline(always)]
fn store(row: &mut [Res], at: usize, lanes: u32x16)
    requires room { at + 16 ≤ length row.old }
    requires below { AreBelow 65521 lanes }
    ensures { AreLanesStored 16 at lanes row.old row.new }
{
    let values = lanes.to_array();
    for i in 0..LANES {
        row[at + i] = Res { value: values[i] };
    }
}

// Each value with c times the other one added. Sum and product fit a lane together without a fold between them, as
// 65,520 + 65,520 * 65,520 = 4,292,935,920.
#[inline(always)]
fn sums(values: u32x16, others: u32x16, c: Res) -> u32x16
    requires values { AreBelow 65521 values }
    requires others { AreBelow 65521 others }
    ensures lanes { HasLanes result (λ i. (slice_index values i + c * slice_index others i) % 65521) }
    ensures below { AreBelow 65521 result }
{
    let twice = fold(fold(values + others * u32x16::splat(c.value)));
    twice.simd_min(twice - u32x16::splat(MODULUS))
}

// As 65,536 is 15 modulo 65,521, the high half comes down 15-fold.
#[inline(always)]
fn fold(lanes: u32x16) -> u32x16
    ensures { HasLanes result (λ i. folded (slice_index lanes i)) }
{
    (lanes >> u32x16::splat(16)) * u32x16::splat(15) + (lanes & u32x16::splat(65_535))
}
