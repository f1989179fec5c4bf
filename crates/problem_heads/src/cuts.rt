//! Where the head of a text ends.

ghost use Rattle.std.specs.Prelude.{◌≡◌, ◌≤◌, [], length, MatchOption};
ghost use Rattle.problem_heads.specs.Cuts.{IsFirstLine};
ghost use Rattle.problem_heads.specs.Heads.{has_model, head_of};

use crate::end_word::is_model_line;
use line_lexer::{first_line_feed, without_return};

/// Where the head of a text ends, and whether a line of the text ends it.
#[derive(Clone, Copy)]
pub(crate) struct Cut {
    pub start: usize,
    pub has_model: bool,
}

// The first line of a text, and what follows it.
#[derive(Clone, Copy)]
struct FirstLine<'a> {
    line: &'a [u8],
    others: &'a [u8],
}

/// Cuts a text behind its first line that is the word `model`, or at its end.
pub(crate) fn cut_head(text: &[u8]) -> Cut
    ensures start { result.start ≡ length (head_of text.now) }
    ensures within { result.start ≤ length text.now }
    ensures model { result.has_model ≡ has_model text.now }
{
    let mut rest = text;
    while let Some(first) = first_line(rest) {
        rest = first.others;
        if is_model_line(first.line) {
            return Cut {
                start: text.len() - rest.len(),
                has_model: true,
            };
        }
    }
    Cut {
        start: text.len(),
        has_model: false,
    }
}

// The first line of a text that has one.
fn first_line<'a>(text: &'a [u8]) -> Option<FirstLine<'a>>
    ensures { MatchOption result (text.now ≡ [])
        (λ first. IsFirstLine text.now first.line.now first.others.now) }
{
    if text.is_empty() {
        return None;
    }
    let Some(end) = first_line_feed(text) else {
        return Some(FirstLine {
            line: without_return(text),
            others: &text[text.len()..],
        });
    };
    Some(FirstLine {
        line: without_return(&text[..end]),
        others: &text[end + 1..],
    })
}
