//! What is left of the right sides of a block, and the numbers that solve it put to its columns.

ghost use Rattle.std.specs.Prelude.{◌≡◌, ◌+◌, ◌<◌, ◌≤◌, IfOk, OnOk, length, map};
ghost use Rattle.std.specs.List.{All};
ghost use Rattle.std.specs.List.Sorted.{IsStrictlyIncreasing};
ghost use Rattle.cert_text.specs.Contents.{numbered_rows};
ghost use Rattle.block_solver.specs.Blocks.{LeavesPart, PutsNumbers, block_system};
ghost use Rattle.block_solver.specs.Rows.{PutsSides};

use crate::rows::row_sum;
use cert_text::{CcfPart, Items};
use out_of_memory::NoMemory;
use residue_field::Field;
use std::alloc::Global;

// Puts what the numbers x leave of the right sides of the members of a block among some rows.
fn put_sides<F: Field>(
    sides: &mut Vec<F>,
    rows: &[Items<(usize, F)>],
    right: &[F],
    members: &[usize],
    x: &[F],
) -> Result<(), NoMemory>
    requires rows { All (λ row. All (λ entry. entry.0 < length x.now) row) rows.now }
    requires members { All (λ member. member < length rows.now) members.now }
    requires right { length right.now ≡ length rows.now }
    ensures { OnOk result (PutsSides F.modulus (map F.number sides.old.items) (map F.number sides.new.items)
        (length members.now) (numbered_rows F.number rows.now) (map F.number right.now) members.now
        (map F.number x.now)) }
{
    for member in members {
        let sum = row_sum(rows[*member].as_slice(), x);
        sides.push(right[*member].sub(sum))?;
    }
    Ok(())
}

/// What the numbers x leave of the right sides of a part: those of its Q rows, and then those of its T rows.
pub fn part_sides<F: Field>(
    alloc: Global,
    p: &[Items<(usize, F)>],
    t: &[Items<(usize, F)>],
    p_right: &[F],
    t_right: &[F],
    part: &CcfPart,
    x: &[F],
) -> Result<Vec<F>, NoMemory>
    requires p_rows { All (λ row. All (λ entry. entry.0 < length x.now) row) p.now }
    requires t_rows { All (λ row. All (λ entry. entry.0 < length x.now) row) t.now }
    requires p_right { length p_right.now ≡ length p.now }
    requires t_right { length t_right.now ≡ length t.now }
    requires q_members { All (λ row. row < length p.now) part.now.q_rows }
    requires t_members { All (λ row. row < length t.now) part.now.t_rows }
    requires square { length part.now.q_rows + length part.now.t_rows ≡ length part.now.columns }
    ensures { IfOk result (λ sides. LeavesPart F.modulus (block_system F.number p.now t.now p_right.now t_right.now)
        part.now (map F.number x.now) (map F.number sides.items)) }
{
    let mut sides = Vec::with_capacity(alloc, part.columns.as_slice().len())?;
    put_sides(&mut sides, p, p_right, part.q_rows.as_slice(), x)?;
    put_sides(&mut sides, t, t_right, part.t_rows.as_slice(), x)?;
    Ok(sides)
}

/// Puts numbers at their columns.
pub fn put_numbers<F: Field>(x: &mut [F], columns: &[usize], numbers: &[F])
    requires columns { All (λ column. column < length x.old) columns.now }
    requires rising { IsStrictlyIncreasing columns.now }
    requires numbers { length columns.now ≤ length numbers.now }
    ensures { PutsNumbers columns.now (map F.number x.old) (map F.number x.new) (map F.number numbers.now)
        (length columns.now) }
{
    for place in 0..columns.len() {
        x[columns[place]] = numbers[place];
    }
}
