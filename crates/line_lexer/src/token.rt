//! The tokens of a line.

ghost use Rattle.std.specs.Simd.Lanes.{mask_l};
ghost use Rattle.std.specs.Prelude.{map, ◌≡◌, ◌∷◌, [], ℕ, ◌+◌, ◌<◌, ◌≤◌, ◌^◌, length, not, position, MatchOption};
ghost use Rattle.std.specs.Iterator.{YieldsFirstBy, item_count};
ghost use Rattle.std.specs.Str.{IsAscii};
ghost use Rattle.line_lexer.specs.Tokens.{is_blank, tokens_from};
ghost use Rattle.line_lexer.specs.Cuts.{CutsToken};

use crate::scan::{ByteTest, LaneTest, first_place};
use std::marker::Model;
use std::simd::prelude::*;

/// A token of a line: a longest run of bytes that are no blank, and the place in the line where it begins.
#[derive(Clone, Copy, Debug)]
pub struct Token<'a> {
    pub start: usize,
    pub text: &'a str,
}

/// The tokens of a line that are left, seen by contracts as the list of their places and bytes.
#[derive(Drop)]
pub struct Tokens<'a> {
    start: usize,
    rest: &'a str,
}

impl<'a> Model for Tokens<'a> {
    ghost use Rattle.std.specs.Prelude.{ℕ, ◌+◌, ◌<◌, ◌^◌, List, length};
    ghost use Rattle.std.specs.Str.{IsAscii};
    ghost use Rattle.line_lexer.specs.Tokens.{tokens_from};

    ghost Value = { List (ℕ × List ℕ) };

    ghost view = { λ t. tokens_from t.start t.rest.now };

    ghost invariant = { λ t. IsAscii t.rest.now × (t.start + length t.rest.now < 2 ^ 64) };
}

impl<'a> Tokens<'a> {
    // The tokens of a text that begins its line.
    pub(crate) fn new(text: &'a str) -> Self
        requires { IsAscii text.now }
        ensures { result ≡ tokens_from 0 text.now }
    {
        Tokens {
            start: 0,
            rest: text,
        }
    }
}

impl<'a> Iterator for Tokens<'a> {
    type Item = Token<'a>;

    ghost next_gives = { YieldsFirstBy (λ token. (token.start, token.text.now)) (λ left. left) };

    ghost remaining = { item_count (λ left. left) };

    fn next(&mut self) -> Option<Token<'a>> {
        let (skipped, text, rest) = cut_token(self.rest)?;
        let start = self.start + skipped;
        self.start = start + text.len();
        self.rest = rest;
        Some(Token { start, text })
    }
}

// How many blanks stand before the first token, that token, and what follows it.
fn cut_token(text: &str) -> Option<(usize, &str, &str)>
    requires { IsAscii text.now }
    ensures { MatchOption result
        ((i : ℕ) → tokens_from i text.now ≡ [])
        (λ cut. CutsToken text.now cut.0 cut.1.now cut.2.now) }
{
    let skipped = first_of_token(text)?;
    let (_blanks, text) = text.split_at(skipped);
    let length = first_blank(text).unwrap_or(text.len());
    let (token, rest) = text.split_at(length);
    Some((skipped, token, rest))
}

fn first_of_token(text: &str) -> Option<usize>
    ensures { result ≡ position (λ byte. not (is_blank byte)) text.now }
{
    text.as_bytes().iter().position(|byte| !is_blank(*byte))
}

fn first_blank(text: &str) -> Option<usize>
    ensures { result ≡ position is_blank text.now }
{
    first_place::<Blank>(text.as_bytes())
}

struct Blank;

impl ByteTest for Blank {
    ghost use Rattle.line_lexer.specs.Tokens.{is_blank};

    ghost holds = { is_blank };

    fn passes(byte: u8) -> bool {
        is_blank(byte)
    }
}

impl<const N: usize> LaneTest<N> for Blank {
    fn marks(lanes: Simd<u8, N>) -> u64
        requires { N ≤ 64 }
        ensures { result ≡ mask_l (map is_blank lanes.entry) }
    {
        let spaces = lanes.simd_eq(Simd::splat(b' '));
        let tabs = lanes.simd_eq(Simd::splat(b'\t'));
        (spaces | tabs).to_bitmask()
    }
}

/// Whether a byte is a blank: a space or a tab.
pub fn is_blank(byte: u8) -> bool
    ensures { result ≡ is_blank byte }
{
    byte == b' ' || byte == b'\t'
}
