//! Lines of a text, with their numbers.

ghost use Rattle.std.specs.Simd.Lanes.{mask_l};
ghost use Rattle.std.specs.Prelude.{◌≤◌, map, ◌≡◌, position};
ghost use Rattle.std.specs.Str.Lines.{strip_carriage_return};
ghost use Rattle.line_lexer.specs.Lines.{is_line_feed};

use crate::scan::{ByteTest, LaneTest, first_place};
use std::simd::prelude::*;

/// A line of a text, without its line feed and without one carriage return before that, and its number from 1.
#[derive(Clone, Copy, Debug)]
pub struct Line<'a> {
    pub number: u32,
    pub bytes: &'a [u8],
}

/// Where the first line of a text ends, if a line feed ends it.
pub fn first_line_feed(bytes: &[u8]) -> Option<usize>
    ensures { result ≡ position is_line_feed bytes.now }
{
    first_place::<LineFeed>(bytes)
}

struct LineFeed;

impl ByteTest for LineFeed {
    ghost use Rattle.line_lexer.specs.Lines.{is_line_feed};

    ghost holds = { is_line_feed };

    fn passes(byte: u8) -> bool {
        byte == b'\n'
    }
}

impl<const N: usize> LaneTest<N> for LineFeed {
    fn marks(lanes: Simd<u8, N>) -> u64
        requires { N ≤ 64 }
        ensures { result ≡ mask_l (map is_line_feed lanes.entry) }
    {
        lanes.simd_eq(Simd::splat(b'\n')).to_bitmask()
    }
}

/// A line without the one carriage return at its end, if it has one.
pub fn without_return(line: &[u8]) -> &[u8]
    ensures { result.now ≡ strip_carriage_return line.now }
{
    match line.split_last() {
        Some((b'\r', line)) => line,
        _ => line,
    }
}
