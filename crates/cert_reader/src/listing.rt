//! Lists of items at the front of bytes.

ghost use Rattle.std.specs.Prelude.{◌≡◌, ◌<◌, ◌≤◌, ◌+◌, ◌^◌, ℕ, codes, length, IfOk};
ghost use Rattle.cert_text.specs.Contents.{numbered};
ghost use Rattle.cert_reader.specs.Fronts.{GivesReading, begins_with};
ghost use Rattle.cert_reader.specs.Items.{goes_on, numbers_at, letters_at, pairs_at, entries_at};

use crate::fault::ReadCert;
use crate::fronts::begins;
use crate::pieces::{entry_at, goes_on, marked_at, pair_at};
use residue_field::Field;
use std::alloc::Global;

/// The rising columns or blocks below n.
pub fn numbers_at(
    alloc: Global,
    line: u32,
    n: usize,
    bytes: &[u8],
) -> Result<(Vec<usize>, &[u8]), ReadCert>
    ensures { GivesReading (λ x. (x.0.items, x.1.now)) result (numbers_at n line bytes.now) }
{
    let mut numbers = Vec::new(alloc);
    let mut low = 0;
    let mut rest = bytes;
    while goes_on(rest) {
        let (number, after) = marked_at(line, b" ", n, low, rest)?;
        numbers.push(number)?;
        low = number + 1;
        rest = after;
    }
    Ok((numbers, rest))
}

/// The rising rows below n, each behind its mark.
pub fn letters_at<'a>(
    alloc: Global,
    line: u32,
    mark: &[u8],
    n: usize,
    bytes: &'a [u8],
) -> Result<(Vec<usize>, &'a [u8]), ReadCert>
    requires { 0 < length mark.now }
    ensures { GivesReading (λ x. (x.0.items, x.1.now)) result (letters_at mark.now n line bytes.now) }
{
    let mut rows = Vec::new(alloc);
    let mut low = 0;
    let mut rest = bytes;
    while begins(mark, rest) {
        let (row, after) = marked_at(line, mark, n, low, rest)?;
        rows.push(row)?;
        low = row + 1;
        rest = after;
    }
    Ok((rows, rest))
}

/// Rising rows below m and their columns below n.
pub fn pairs_at(
    alloc: Global,
    line: u32,
    m: usize,
    n: usize,
    bytes: &[u8],
) -> Result<(Vec<(usize, usize)>, &[u8]), ReadCert>
    ensures { GivesReading (λ x. (x.0.items, x.1.now)) result (pairs_at m n line bytes.now) }
{
    let mut pairs = Vec::new(alloc);
    let mut low = 0;
    let mut rest = bytes;
    while goes_on(rest) {
        let (pair, after) = pair_at(line, m, n, low, rest)?;
        pairs.push(pair)?;
        low = pair.0 + 1;
        rest = after;
    }
    Ok((pairs, rest))
}

/// Rising columns below n, and the values there.
pub fn entries_at<F: Field>(
    alloc: Global,
    line: u32,
    n: usize,
    bytes: &[u8],
) -> Result<(Vec<(usize, F)>, &[u8]), ReadCert>
    ensures { GivesReading (λ x. (numbered F.number x.0.items, x.1.now)) result
        (entries_at F.modulus n line bytes.now) }
{
    let mut entries = Vec::new(alloc);
    let mut low = 0;
    let mut rest = bytes;
    while goes_on(rest) {
        let (entry, after) = entry_at(line, n, low, rest)?;
        entries.push(entry)?;
        low = entry.0 + 1;
        rest = after;
    }
    Ok((entries, rest))
}
