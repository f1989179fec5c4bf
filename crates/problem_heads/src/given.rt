//! Numbers that lines of a head give.

use std::marker::Model;

/// A number that a line of a head gives: the number of the line, from 1, the name of an equation and perhaps that of an
/// unknown, and the number. Contracts see the bytes of the names.
#[derive(Drop)]
pub(crate) struct HeadNumber<N: Copy + Drop> {
    pub line: u32,
    pub equation: String,
    pub unknown: Option<String>,
    pub number: N,
}

impl<N: Copy + Drop> Model for HeadNumber<N> {
    ghost use Rattle.std.specs.Prelude.{option_map};
    ghost use Rattle.std.specs.String.{string_bytes};
    ghost use Rattle.problem_heads.specs.HeadNumbers.{HeadNumber, names_of};

    ghost Value = { HeadNumber N };

    ghost view = { λ g. record {
      line = g.line;
      names = names_of (string_bytes g.equation) (option_map string_bytes g.unknown);
      number = g.number;
    } };
}
