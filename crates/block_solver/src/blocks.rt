//! The blocks of a form, solved from the last to the first.

ghost use Rattle.std.specs.Prelude.{◌≡◌, ℕ, ◌<◌, ◌≤◌, true, false, length, map, replicate, slice_index, IfOk};
ghost use Rattle.std.specs.List.{All};
ghost use Rattle.limits.specs.Limits.{column_limit};
ghost use Rattle.block_solver.specs.Blocks.{ChangesPart, FitBlocks, FitsSystem, IsOutcomeOf, IsRegularPart, PartHolds};
ghost use Rattle.block_solver.specs.Blocks.{block_system};

use crate::answer::Outcome;
use crate::sides::{part_sides, put_numbers};
use crate::tables::part_table;
use cert_text::{CcfBlock, CcfPart, Items};
use out_of_memory::NoMemory;
use residue_field::Field;
use square_systems::solve_square;
use std::alloc::Global;

// So many zeros.
fn zeros<F: Field>(alloc: Global, n: usize) -> Result<Vec<F>, NoMemory>
    ensures { IfOk result (λ x. map F.number x.items ≡ replicate n 0) }
{
    let mut x = Vec::with_capacity(alloc, n)?;
    for _column in 0..n {
        x.push(F::zero())?;
    }
    Ok(x)
}

// Solves the rows of a part for its columns, whose numbers in x are 0, and puts their numbers into x. False where the
// columns of the part are dependent.
fn solve_part<F: Field>(
    alloc: Global,
    p: &[Items<(usize, F)>],
    t: &[Items<(usize, F)>],
    p_right: &[F],
    t_right: &[F],
    part: &CcfPart,
    x: &mut [F],
) -> Result<bool, NoMemory>
    requires fits { FitsSystem (block_system F.number p.now t.now p_right.now t_right.now) (length x.old) part.now }
    requires narrow { length part.now.columns ≤ column_limit }
    requires p_rows { All (λ row. All (λ entry. entry.0 < length x.old) row) p.now }
    requires t_rows { All (λ row. All (λ entry. entry.0 < length x.old) row) t.now }
    requires p_right { length p_right.now ≡ length p.now }
    requires t_right { length t_right.now ≡ length t.now }
    requires zero { (c : ℕ) → c < length part.now.columns →
        slice_index (map F.number x.old) (slice_index part.now.columns c) ≡ 0 }
    ensures changed { ChangesPart part.now (map F.number x.old) (map F.number x.new) }
    ensures regular { IfOk result (λ regular. regular ≡ true → IsRegularPart F.modulus
        (block_system F.number p.now t.now p_right.now t_right.now) part.now) }
    ensures solved { IfOk result (λ regular. regular ≡ true → PartHolds F.modulus
        (block_system F.number p.now t.now p_right.now t_right.now) part.now (map F.number x.new)) }
    ensures singular { IfOk result (λ regular. regular ≡ false → IsRegularPart F.modulus
        (block_system F.number p.now t.now p_right.now t_right.now) part.now → ⊥) }
{
    let table = part_table(alloc, p, t, part)?;
    let sides = part_sides(alloc, p, t, p_right, t_right, part, x)?;
    let Some(numbers) = solve_square(alloc, &table, &sides)? else {
        return Ok(false);
    };
    put_numbers(x, part.columns.as_slice(), &numbers);
    Ok(true)
}

/// Solves the blocks of a form from the last to the first, for `n` columns: `p` and `t` are the rows of P and of T with
/// their numbers, `p_right` and `t_right` the right sides.
pub fn solve_blocks<F: Field>(
    alloc: Global,
    n: usize,
    p: &[Items<(usize, F)>],
    t: &[Items<(usize, F)>],
    p_right: &[F],
    t_right: &[F],
    blocks: &[CcfBlock],
) -> Result<Outcome<F>, NoMemory>
    requires narrow { n ≤ column_limit }
    requires p_rows { All (λ row. All (λ entry. entry.0 < n) row) p.now }
    requires t_rows { All (λ row. All (λ entry. entry.0 < n) row) t.now }
    requires p_right { length p_right.now ≡ length p.now }
    requires t_right { length t_right.now ≡ length t.now }
    requires blocks { FitBlocks (block_system F.number p.now t.now p_right.now t_right.now) n blocks.now }
    ensures { IfOk result (IsOutcomeOf F.number F.modulus (block_system F.number p.now t.now p_right.now t_right.now) n
        blocks.now) }
{
    let mut x = zeros(alloc, n)?;
    for k in (0..blocks.len()).rev() {
        if !solve_part(alloc, p, t, p_right, t_right, &blocks[k].part, &mut x)? {
            return Ok(Outcome::Dependent(k + 1));
        }
    }
    Ok(Outcome::Solved(Items::from_vec(x)))
}
