//! How large an input, a model and its matrices may be, and how their room grows.
#![tactic(auto)]

ghost use Rattle.std.specs.Prelude.{◌≡◌, ◌≤◌};
ghost use Rattle.limits.specs.Limits.{column_limit, equation_limit, grown, input_limit};

/// How many bytes an input has at most.
pub const INPUT_LIMIT: usize = 8_388_608;

/// How many equations a model has at most, and how many unknowns.
pub const EQUATION_LIMIT: usize = 4_096;

/// How many columns a layered matrix has at most: one for each unknown, and one for each split equation. No matrix has
/// more rows or more columns.
pub const COLUMN_LIMIT: usize = 8_192;

/// The constants are the numbers that contracts name.
pub fn constants_are_the_limits()
    ensures input { INPUT_LIMIT ≡ input_limit }
    ensures equation { EQUATION_LIMIT ≡ equation_limit }
    ensures column { COLUMN_LIMIT ≡ column_limit }
{}

/// The room for rows or columns that is taken where there was so much and so much is asked for: where it grows, it grows by an
/// eighth at least, as far as `COLUMN_LIMIT`, so that one more now and then does not copy all that is there each time.
pub fn grown(had: usize, asked: usize) -> usize
    ensures grown { result ≡ grown had asked }
    ensures asked { asked ≤ result }
    ensures had { had ≤ result }
{
    if asked <= had {
        had
    } else {
        asked.max(had.saturating_add(had / 8).min(COLUMN_LIMIT))
    }
}
