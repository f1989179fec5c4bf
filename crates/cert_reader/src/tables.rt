//! The lines of matrices, and of the parts behind the first tail.

ghost use Rattle.std.specs.Prelude.{◌≡◌, ◌<◌, ◌≤◌, ◌+◌, ◌^◌, ℕ, codes, length, IfOk};
ghost use Rattle.limits.specs.Limits.{equation_limit};
ghost use Rattle.cert_text.specs.Contents.{numbered_rows};
ghost use Rattle.cert_text.specs.Ranges.{IsShape};
ghost use Rattle.cert_reader.specs.Fronts.{GivesReading};
ghost use Rattle.cert_reader.specs.Limits.{certificate_limit};
ghost use Rattle.cert_reader.specs.LineReading.{entries_line_at, columns_line_at};
ghost use Rattle.cert_reader.specs.CertReading.{rows_at, closing_at, all_blocks_at};

use crate::fault::ReadCert;
use crate::fronts::{begins, text_at};
use crate::linewise::{block_at, columns_line_at, entries_line_at, tail_at};
use cert_text::{CcfBlock, CcfPart, Items, Shape};
use residue_field::Field;
use std::alloc::Global;

/// The lines of S, U or P: so many rows of entries in n columns.
pub fn matrix_at<'a, F: Field>(
    alloc: Global,
    line: u32,
    word: &[u8],
    n: usize,
    count: usize,
    bytes: &'a [u8],
) -> Result<(Vec<Items<(usize, F)>>, &'a [u8]), ReadCert>
    requires few { count ≤ equation_limit }
    requires room { line + count < 2 ^ 32 }
    ensures { GivesReading (λ x. (numbered_rows F.number x.0.items, x.1.now)) result
        (rows_at (entries_line_at F.modulus word.now n) count 1 line bytes.now) }
{
    let mut rows = Vec::new(alloc);
    let mut rest = bytes;
    for row in 0..count {
        let (entries, after) = entries_line_at(alloc, line + row as u32, word, n, row + 1, rest)?;
        rows.push(Items::from_vec(entries))?;
        rest = after;
    }
    Ok((rows, rest))
}

/// The lines of T: so many rows of symbols in n columns.
pub fn pattern_at<'a>(
    alloc: Global,
    line: u32,
    word: &[u8],
    n: usize,
    count: usize,
    bytes: &'a [u8],
) -> Result<(Vec<Items<usize>>, &'a [u8]), ReadCert>
    requires few { count ≤ equation_limit }
    requires room { line + count < 2 ^ 32 }
    ensures { GivesReading (λ x. (x.0.items, x.1.now)) result
        (rows_at (columns_line_at word.now n) count 1 line bytes.now) }
{
    let mut rows = Vec::new(alloc);
    let mut rest = bytes;
    for row in 0..count {
        let (columns, after) = columns_line_at(alloc, line + row as u32, word, n, row + 1, rest)?;
        rows.push(Items::from_vec(columns))?;
        rest = after;
    }
    Ok((rows, rest))
}

// The last tail, the last line, and no byte behind it.
#[tactic(auto, unfolding(crate::specs::CertReading::closing_at))]
fn closing_at(
    alloc: Global,
    line: u32,
    shape: Shape,
    bytes: &[u8],
) -> Result<(CcfPart, &[u8]), ReadCert>
    requires { line + 2 < 2 ^ 32 }
    ensures { GivesReading (λ x. (x.0, x.1.now)) result (closing_at shape line bytes.now) }
{
    let (last, rest) = tail_at(alloc, line, b"last", shape, bytes)?;
    let rest = text_at(line + 1, b"end\n", rest)?;
    if !rest.is_empty() {
        return Err(ReadCert::Refused { line: line + 2 });
    }
    Ok((last, rest))
}

/// The blocks, and the last tail, which closes the certificate.
pub fn blocks_at(
    alloc: Global,
    line: u32,
    shape: Shape,
    bytes: &[u8],
) -> Result<((Vec<CcfBlock>, CcfPart), &[u8]), ReadCert>
    requires shape { IsShape shape }
    requires short { length bytes.now ≤ certificate_limit }
    requires room { line + certificate_limit + 2 < 2 ^ 32 }
    ensures { GivesReading (λ x. ((x.0.0.items, x.0.1), x.1.now)) result (all_blocks_at shape line bytes.now) }
{
    let mut blocks = Vec::new(alloc);
    let mut at = line;
    let mut rest = bytes;
    while begins(b"block", rest) {
        let (block, after) = block_at(alloc, at, shape, blocks.len(), rest)?;
        blocks.push(block)?;
        at += 1;
        rest = after;
    }
    let (last, rest) = closing_at(alloc, at, shape, rest)?;
    Ok(((blocks, last), rest))
}
