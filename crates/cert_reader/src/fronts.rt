//! Texts and numbers at the front of bytes.

ghost use Rattle.std.specs.Prelude.{◌≡◌, ◌<◌, ◌≤◌, ℕ, true, false, length, drop, IfOk, MatchOption};
ghost use Rattle.cert_reader.specs.Fronts.{AreFrontDigits, GivesReading, begins_with, text_at, number_at, is_plain};

use crate::fault::ReadCert;

/// The bytes after this text, if they begin with it.
pub fn behind<'a>(text: &[u8], bytes: &'a [u8]) -> Option<&'a [u8]>
    ensures { MatchOption result (begins_with text.now bytes.now ≡ false) (λ rest.
        (begins_with text.now bytes.now ≡ true) × (rest.now ≡ drop (length text.now) bytes.now)) }
{
    bytes.strip_prefix(text)
}

/// Whether the bytes begin with this text.
pub fn begins(text: &[u8], bytes: &[u8]) -> bool
    ensures { result ≡ begins_with text.now bytes.now }
{
    behind(text, bytes).is_some()
}

/// The bytes after this text, with which they begin.
#[tactic(auto, unfolding(crate::specs::Fronts::text_at))]
pub fn text_at<'a>(line: u32, text: &[u8], bytes: &'a [u8]) -> Result<&'a [u8], ReadCert>
    ensures { GivesReading (λ x. (tt, x.now)) result (text_at text.now line bytes.now) }
{
    match behind(text, bytes) {
        Some(rest) => Ok(rest),
        None => Err(ReadCert::Refused { line }),
    }
}

// Whether there is a digit, there are at most ten, and a zero stands in front only alone.
fn is_plain(digits: &[u8]) -> bool
    ensures { result ≡ is_plain digits.now }
{
    match digits.split_first() {
        None => false,
        Some((first, others)) => digits.len() <= 10 && (*first != b'0' || others.is_empty()),
    }
}

// How many of the bytes are looked through for digits. Eleven digits are too many.
fn looked_through(bytes: &[u8]) -> usize
    ensures within { result ≤ length bytes.now }
    ensures few { result ≤ 11 }
    ensures all { result < 11 → result ≡ length bytes.now }
{
    if bytes.len() < 11 { bytes.len() } else { 11 }
}

// How many digits stand in front, but at most eleven, and their value, in one pass.
fn front_value(bytes: &[u8]) -> (usize, usize)
    ensures { AreFrontDigits bytes.now result.0 result.1 }
{
    let most = looked_through(bytes);
    let mut count = 0;
    let mut value: usize = 0;
    while count < most && bytes[count].is_ascii_digit() {
        value = value * 10 + (bytes[count] - b'0') as usize;
        count += 1;
    }
    (count, value)
}

/// The number in front, up to this limit, and what follows it.
pub fn number_at(line: u32, limit: usize, bytes: &[u8]) -> Result<(usize, &[u8]), ReadCert>
    ensures within { IfOk result (λ x. x.0 ≤ limit) }
    ensures number { GivesReading (λ x. (x.0, x.1.now)) result (number_at limit line bytes.now) }
{
    let (count, value) = front_value(bytes);
    let (digits, rest) = bytes.split_at(count);
    if !is_plain(digits) {
        return Err(ReadCert::Refused { line });
    }
    if value > limit {
        return Err(ReadCert::Refused { line });
    }
    Ok((value, rest))
}
