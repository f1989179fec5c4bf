//! Lines cut into tokens.

ghost use Rattle.std.specs.Simd.Lanes.{mask_l};
ghost use Rattle.std.specs.Prelude.{◌≤◌, map, ◌≡◌, true, false, position, MatchOption, MatchResult};
ghost use Rattle.line_lexer.specs.Tokens.{is_comment_sign, is_odd, is_clean, tokens_of, uncommented};

use crate::line::Line;
use crate::scan::{ByteTest, LaneTest, first_place};
use crate::token::Tokens;
use refusals::Why;
use std::simd::prelude::*;
use std::str;

/// The tokens of a line: the longest runs of bytes that are no space and no tab, up to a `#`, which starts a
/// comment. Outside the comment each byte is a tab or from 32 to 126, else the line is `Why::BadByte`.
#[tactic(auto, using(crate::proofs::TokenLaws::text_is_utf8))]
pub fn tokens<'a>(line: Line<'a>) -> Result<Tokens<'a>, Why>
    ensures { MatchResult result
        (λ left. (is_clean line.entry.bytes.now ≡ true) × (left ≡ tokens_of line.entry.bytes.now))
        (λ why. (is_clean line.entry.bytes.now ≡ false) × (why ≡ Why.BadByte)) }
{
    let Some(text) = clean_text(line.bytes) else {
        return Err(Why::BadByte);
    };
    match str::from_utf8(text) {
        Ok(text) => Ok(Tokens::new(text)),
        Err(_) => unreachable!(),
    }
}

/// What stands in a line before its comment: the whole line where it has none.
#[tactic(auto, using(crate::proofs::TokenLaws::uncommented_is))]
pub fn before_comment(line: &[u8]) -> &[u8]
    ensures { result.now ≡ uncommented line.now }
{
    match comment_sign(line) {
        Some(end) => &line[..end],
        None => line,
    }
}

fn comment_sign(line: &[u8]) -> Option<usize>
    ensures { result ≡ position is_comment_sign line.now }
{
    line.iter().position(|byte| *byte == b'#')
}

// What stands in a line before its comment, where no byte of that is bad.
fn clean_text(line: &[u8]) -> Option<&[u8]>
    ensures { MatchOption result
        (is_clean line.now ≡ false)
        (λ text. (is_clean line.now ≡ true) × (text.now ≡ uncommented line.now)) }
{
    let Some(end) = first_odd(line) else {
        return Some(line);
    };
    if line[end] == b'#' {
        Some(&line[..end])
    } else {
        None
    }
}

// Where the text of a line ends: at the sign of a comment, or at a byte that may stand in a comment alone.
fn first_odd(line: &[u8]) -> Option<usize>
    ensures { result ≡ position is_odd line.now }
{
    first_place::<Odd>(line)
}

struct Odd;

impl ByteTest for Odd {
    ghost use Rattle.line_lexer.specs.Tokens.{is_odd};

    ghost holds = { is_odd };

    // Letters, digits and most signs lie above the sign of a comment, and take one comparison.
    fn passes(byte: u8) -> bool {
        if byte > b'#' {
            byte > b'~'
        } else {
            byte == b'#' || byte < b' ' && byte != b'\t'
        }
    }
}

impl<const N: usize> LaneTest<N> for Odd {
    fn marks(lanes: Simd<u8, N>) -> u64
        requires { N ≤ 64 }
        ensures { result ≡ mask_l (map is_odd lanes.entry) }
    {
        let signs = lanes.simd_eq(Simd::splat(b'#'));
        let controls = lanes.simd_lt(Simd::splat(b' ')) & lanes.simd_ne(Simd::splat(b'\t'));
        let others = lanes.simd_gt(Simd::splat(b'~'));
        (signs | controls | others).to_bitmask()
    }
}
