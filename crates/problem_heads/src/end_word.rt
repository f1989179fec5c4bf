//! The line that ends a head.

ghost use Rattle.std.specs.Prelude.{◌≡◌, map};
ghost use Rattle.problem_heads.specs.Heads.{is_model_line, is_model_word};

use line_lexer::{Line, Tokens, tokens};

/// Whether a line ends a head: its one word is `model`.
pub(crate) fn is_model_line(line: &[u8]) -> bool
    ensures { result ≡ is_model_line line.now }
{
    match tokens(Line {
        number: 0,
        bytes: line,
    }) {
        Ok(words) => is_model_word(words),
        Err(_) => false,
    }
}

// Whether the words of a line are the one word `model`.
fn is_model_word(mut words: Tokens<'_>) -> bool
    ensures { result ≡ is_model_word (map (λ word. word.1) words.entry) }
{
    match (words.next(), words.next()) {
        (Some(word), None) => word.text == "model",
        _ => false,
    }
}
