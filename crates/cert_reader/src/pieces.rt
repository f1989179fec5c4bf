//! Items at the front of bytes.

ghost use Rattle.std.specs.Prelude.{◌≡◌, ◌<◌, ◌≤◌, ◌+◌, ◌-◌, ◌^◌, ℕ, codes, length, IfOk};
ghost use Rattle.cert_reader.specs.Fronts.{GivesReading, begins_with};
ghost use Rattle.cert_reader.specs.Items.{index_at, positive_at, marked_at, pair_at, entry_at, goes_on};

use crate::fault::ReadCert;
use crate::fronts::{begins, number_at, text_at};
use residue_field::Field;

// The index of a number from 1 to n that is greater than `low`.
#[tactic(auto, unfolding(crate::specs::Items::index_at))]
fn index_at(line: u32, n: usize, low: usize, bytes: &[u8]) -> Result<(usize, &[u8]), ReadCert>
    ensures below { IfOk result (λ x. x.0 < n) }
    ensures index { GivesReading (λ x. (x.0, x.1.now)) result (index_at n low line bytes.now) }
{
    let (number, rest) = number_at(line, n, bytes)?;
    if number <= low {
        return Err(ReadCert::Refused { line });
    }
    Ok((number - 1, rest))
}

// A number from 1 to the limit.
#[tactic(auto, unfolding(crate::specs::Items::positive_at))]
fn positive_at(line: u32, limit: usize, bytes: &[u8]) -> Result<(usize, &[u8]), ReadCert>
    ensures within { IfOk result (λ x. x.0 ≤ limit) }
    ensures number { GivesReading (λ x. (x.0, x.1.now)) result (positive_at limit line bytes.now) }
{
    let (number, rest) = number_at(line, limit, bytes)?;
    if number == 0 {
        return Err(ReadCert::Refused { line });
    }
    Ok((number, rest))
}

// The value of a number from 1 on below the modulus.
fn value_at<F: Field>(line: u32, bytes: &[u8]) -> Result<(F, &[u8]), ReadCert>
    ensures { GivesReading (λ x. (F.number x.0, x.1.now)) result (positive_at (F.modulus - 1) line bytes.now) }
{
    let (number, rest) = positive_at(line, F::MODULUS as usize - 1, bytes)?;
    Ok((F::of(number as u64), rest))
}

/// The index, from `low` on, of a number behind a mark.
#[tactic(auto, unfolding(crate::specs::Items::marked_at))]
pub fn marked_at<'a>(
    line: u32,
    mark: &[u8],
    n: usize,
    low: usize,
    bytes: &'a [u8],
) -> Result<(usize, &'a [u8]), ReadCert>
    ensures below { IfOk result (λ x. x.0 < n) }
    ensures index { GivesReading (λ x. (x.0, x.1.now)) result (marked_at mark.now n low line bytes.now) }
{
    let rest = text_at(line, mark, bytes)?;
    index_at(line, n, low, rest)
}

/// A row, from `low` on, and its column.
#[tactic(auto, unfolding(crate::specs::Items::pair_at))]
pub fn pair_at(
    line: u32,
    m: usize,
    n: usize,
    low: usize,
    bytes: &[u8],
) -> Result<((usize, usize), &[u8]), ReadCert>
    ensures below { IfOk result (λ x. x.0.0 < m) }
    ensures pair { GivesReading (λ x. (x.0, x.1.now)) result (pair_at m n low line bytes.now) }
{
    let rest = text_at(line, b" ", bytes)?;
    let (row, rest) = index_at(line, m, low, rest)?;
    let rest = text_at(line, b"=", rest)?;
    let (column, rest) = index_at(line, n, 0, rest)?;
    Ok(((row, column), rest))
}

/// A column, from `low` on, and the value there.
#[tactic(auto, unfolding(crate::specs::Items::entry_at))]
pub fn entry_at<F: Field>(
    line: u32,
    n: usize,
    low: usize,
    bytes: &[u8],
) -> Result<((usize, F), &[u8]), ReadCert>
    ensures below { IfOk result (λ x. x.0.0 < n) }
    ensures entry { GivesReading (λ x. ((x.0.0, F.number x.0.1), x.1.now)) result
        (entry_at F.modulus n low line bytes.now) }
{
    let rest = text_at(line, b" ", bytes)?;
    let (column, rest) = index_at(line, n, low, rest)?;
    let rest = text_at(line, b"=", rest)?;
    let (value, rest) = value_at(line, rest)?;
    Ok(((column, value), rest))
}

/// Whether a space follows, and no bar behind it.
pub fn goes_on(bytes: &[u8]) -> bool
    ensures { result ≡ goes_on bytes.now }
{
    begins(b" ", bytes) && !begins(b" |", bytes)
}
