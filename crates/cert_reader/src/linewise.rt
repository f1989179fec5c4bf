//! Lines of a certificate at the front of bytes.

ghost use Rattle.std.specs.Prelude.{◌≡◌, ◌<◌, ◌≤◌, ◌+◌, ◌^◌, ℕ, codes, length, IfOk};
ghost use Rattle.cert_text.specs.Contents.{numbered};
ghost use Rattle.cert_text.specs.Ranges.{IsShape};
ghost use Rattle.cert_text.specs.Texts.{head_text};
ghost use Rattle.cert_reader.specs.Fronts.{GivesReading, text_at};
ghost use Rattle.cert_reader.specs.LineReading.{kind_at, count_at, echo_at, spaced_at, head_at, shape_at, pairs_line_at};
ghost use Rattle.cert_reader.specs.LineReading.{entries_line_at, columns_line_at, part_at, tail_at, block_at};

use crate::fault::ReadCert;
use crate::fronts::{behind, number_at, text_at};
use crate::listing::{entries_at, letters_at, numbers_at, pairs_at};
use cert_text::{CcfBlock, CcfPart, Items, Kind, Shape};
use limits::{COLUMN_LIMIT, EQUATION_LIMIT};
use residue_field::Field;
use std::alloc::Global;

/// The line of the kind.
#[tactic(auto, unfolding(crate::specs::LineReading::kind_at))]
pub fn kind_at(line: u32, bytes: &[u8]) -> Result<(Kind, &[u8]), ReadCert>
    ensures { GivesReading (λ x. (x.0, x.1.now)) result (kind_at line bytes.now) }
{
    if let Some(rest) = behind(b"kind matrix\n", bytes) {
        return Ok((Kind::Matrix, rest));
    }
    if let Some(rest) = behind(b"kind netlist\n", bytes) {
        return Ok((Kind::Netlist, rest));
    }
    if let Some(rest) = behind(b"kind flowsheet\n", bytes) {
        return Ok((Kind::Flowsheet, rest));
    }
    Err(ReadCert::Refused { line })
}

/// The line of a number behind a word.
#[tactic(auto, unfolding(crate::specs::LineReading::count_at))]
pub fn count_at<'a>(
    line: u32,
    word: &[u8],
    limit: usize,
    bytes: &'a [u8],
) -> Result<(usize, &'a [u8]), ReadCert>
    ensures within { IfOk result (λ x. x.0 ≤ limit) }
    ensures number { GivesReading (λ x. (x.0, x.1.now)) result (count_at word.now limit line bytes.now) }
{
    let rest = text_at(line, word, bytes)?;
    let (number, rest) = number_at(line, limit, rest)?;
    let rest = text_at(line, b"\n", rest)?;
    Ok((number, rest))
}

/// The echo, and what follows its line.
#[tactic(auto, unfolding(crate::specs::LineReading::echo_at, crate::specs::LineReading::bytes_at))]
pub fn echo_at(line: u32, count: usize, bytes: &[u8]) -> Result<(&[u8], &[u8]), ReadCert>
    ensures { GivesReading (λ x. (x.0.now, x.1.now)) result (echo_at count line bytes.now) }
{
    if bytes.len() < count {
        return Err(ReadCert::Refused { line });
    }
    let (echo, rest) = bytes.split_at(count);
    let rest = text_at(line, b"\n", rest)?;
    Ok((echo, rest))
}

// A number behind a space.
#[tactic(auto, unfolding(crate::specs::LineReading::spaced_at))]
fn spaced_at(line: u32, limit: usize, bytes: &[u8]) -> Result<(usize, &[u8]), ReadCert>
    ensures within { IfOk result (λ x. x.0 ≤ limit) }
    ensures number { GivesReading (λ x. (x.0, x.1.now)) result (spaced_at limit line bytes.now) }
{
    let rest = text_at(line, b" ", bytes)?;
    number_at(line, limit, rest)
}

/// The line of the shape.
#[tactic(auto, unfolding(crate::specs::LineReading::shape_at))]
pub fn shape_at(line: u32, bytes: &[u8]) -> Result<(Shape, &[u8]), ReadCert>
    ensures fits { IfOk result (λ x. IsShape x.0) }
    ensures shape { GivesReading (λ x. (x.0, x.1.now)) result (shape_at line bytes.now) }
{
    let rest = text_at(line, b"shape", bytes)?;
    let (equations, rest) = spaced_at(line, EQUATION_LIMIT, rest)?;
    let (unknowns, rest) = spaced_at(line, EQUATION_LIMIT, rest)?;
    let (q_rows, rest) = spaced_at(line, EQUATION_LIMIT, rest)?;
    let (t_rows, rest) = spaced_at(line, EQUATION_LIMIT, rest)?;
    let (columns, rest) = spaced_at(line, COLUMN_LIMIT, rest)?;
    let rest = text_at(line, b"\n", rest)?;
    let shape = Shape {
        equations,
        unknowns,
        q_rows,
        t_rows,
        columns,
    };
    Ok((shape, rest))
}

/// The line of the base, or of the match.
#[tactic(auto, unfolding(crate::specs::LineReading::pairs_line_at))]
pub fn pairs_line_at<'a>(
    alloc: Global,
    line: u32,
    word: &[u8],
    m: usize,
    n: usize,
    bytes: &'a [u8],
) -> Result<(Vec<(usize, usize)>, &'a [u8]), ReadCert>
    ensures { GivesReading (λ x. (x.0.items, x.1.now)) result (pairs_line_at word.now m n line bytes.now) }
{
    let rest = text_at(line, word, bytes)?;
    let (pairs, rest) = pairs_at(alloc, line, m, n, rest)?;
    let rest = text_at(line, b"\n", rest)?;
    Ok((pairs, rest))
}

// How a numbered line begins, as a text.
fn head_at<'a>(line: u32, word: &[u8], number: usize, bytes: &'a [u8]) -> Result<&'a [u8], ReadCert>
    requires { number < 10 ^ 10 }
    ensures { GivesReading (λ x. (tt, x.now)) result (text_at (head_text word.now number) line bytes.now) }
{
    number_head(line, word, number, bytes)
}

// How a numbered line begins, its number read as a number.
#[tactic(auto, unfolding(crate::specs::LineReading::head_at, crate::specs::LineReading::exact_at))]
fn number_head<'a>(
    line: u32,
    word: &[u8],
    number: usize,
    bytes: &'a [u8],
) -> Result<&'a [u8], ReadCert>
    ensures { GivesReading (λ x. (tt, x.now)) result (head_at word.now number line bytes.now) }
{
    let rest = text_at(line, word, bytes)?;
    let (found, rest) = spaced_at(line, number, rest)?;
    if found != number {
        return Err(ReadCert::Refused { line });
    }
    let rest = text_at(line, b":", rest)?;
    Ok(rest)
}

/// The line of a row of S, U or P.
#[tactic(auto, unfolding(crate::specs::LineReading::entries_line_at))]
pub fn entries_line_at<'a, F: Field>(
    alloc: Global,
    line: u32,
    word: &[u8],
    n: usize,
    number: usize,
    bytes: &'a [u8],
) -> Result<(Vec<(usize, F)>, &'a [u8]), ReadCert>
    requires { number < 10 ^ 10 }
    ensures { GivesReading (λ x. (numbered F.number x.0.items, x.1.now)) result
        (entries_line_at F.modulus word.now n number line bytes.now) }
{
    let rest = head_at(line, word, number, bytes)?;
    let (entries, rest) = entries_at(alloc, line, n, rest)?;
    let rest = text_at(line, b"\n", rest)?;
    Ok((entries, rest))
}

/// The line of a row of T.
#[tactic(auto, unfolding(crate::specs::LineReading::columns_line_at))]
pub fn columns_line_at<'a>(
    alloc: Global,
    line: u32,
    word: &[u8],
    n: usize,
    number: usize,
    bytes: &'a [u8],
) -> Result<(Vec<usize>, &'a [u8]), ReadCert>
    requires { number < 10 ^ 10 }
    ensures { GivesReading (λ x. (x.0.items, x.1.now)) result (columns_line_at word.now n number line bytes.now) }
{
    let rest = head_at(line, word, number, bytes)?;
    let (columns, rest) = numbers_at(alloc, line, n, rest)?;
    let rest = text_at(line, b"\n", rest)?;
    Ok((columns, rest))
}

// The columns of a part, a bar, and its rows.
#[tactic(auto, unfolding(crate::specs::LineReading::part_at))]
fn part_at(
    alloc: Global,
    line: u32,
    shape: Shape,
    bytes: &[u8],
) -> Result<(CcfPart, &[u8]), ReadCert>
    ensures { GivesReading (λ x. (x.0, x.1.now)) result (part_at shape line bytes.now) }
{
    let (columns, rest) = numbers_at(alloc, line, shape.columns, bytes)?;
    let rest = text_at(line, b" |", rest)?;
    let (q_rows, rest) = letters_at(alloc, line, b" q", shape.q_rows, rest)?;
    let (t_rows, rest) = letters_at(alloc, line, b" t", shape.t_rows, rest)?;
    let part = CcfPart {
        columns: Items::from_vec(columns),
        q_rows: Items::from_vec(q_rows),
        t_rows: Items::from_vec(t_rows),
    };
    Ok((part, rest))
}

/// The line of a tail.
#[tactic(auto, unfolding(crate::specs::LineReading::tail_at))]
pub fn tail_at<'a>(
    alloc: Global,
    line: u32,
    word: &[u8],
    shape: Shape,
    bytes: &'a [u8],
) -> Result<(CcfPart, &'a [u8]), ReadCert>
    ensures { GivesReading (λ x. (x.0, x.1.now)) result (tail_at word.now shape line bytes.now) }
{
    let rest = text_at(line, word, bytes)?;
    let (part, rest) = part_at(alloc, line, shape, rest)?;
    let rest = text_at(line, b"\n", rest)?;
    Ok((part, rest))
}

/// The line of block k, counted from 0.
#[tactic(auto, unfolding(crate::specs::LineReading::block_at))]
pub fn block_at(
    alloc: Global,
    line: u32,
    shape: Shape,
    k: usize,
    bytes: &[u8],
) -> Result<(CcfBlock, &[u8]), ReadCert>
    requires { k + 1 < 10 ^ 10 }
    ensures { GivesReading (λ x. (x.0, x.1.now)) result (block_at shape k line bytes.now) }
{
    let rest = head_at(line, b"block", k + 1, bytes)?;
    let (part, rest) = part_at(alloc, line, shape, rest)?;
    let rest = text_at(line, b" |", rest)?;
    let (lower, rest) = numbers_at(alloc, line, k, rest)?;
    let rest = text_at(line, b"\n", rest)?;
    if part.columns.as_slice().is_empty() {
        return Err(ReadCert::Refused { line });
    }
    let block = CcfBlock {
        part,
        lower: Items::from_vec(lower),
    };
    Ok((block, rest))
}
