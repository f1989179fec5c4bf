//! The words after the first one of a line.

ghost use Rattle.std.specs.Prelude.{◌≡◌, ◌≢◌, ◌∷◌, [], length, map, MatchOption};

use line_lexer::Tokens;

/// Two words, where there are just two.
pub(crate) fn two<'a>(mut words: Tokens<'a>) -> Option<(&'a str, &'a str)>
    ensures { MatchOption result (length words.entry ≢ 2)
        (λ both. map (λ word. word.1) words.entry ≡ both.0.now ∷ both.1.now ∷ []) }
{
    let first = words.next()?;
    let second = words.next()?;
    match words.next() {
        None => Some((first.text, second.text)),
        Some(_) => None,
    }
}

/// Three words, where there are just three.
pub(crate) fn three<'a>(mut words: Tokens<'a>) -> Option<(&'a str, &'a str, &'a str)>
    ensures { MatchOption result (length words.entry ≢ 3)
        (λ all. map (λ word. word.1) words.entry ≡ all.0.now ∷ all.1.now ∷ all.2.now ∷ []) }
{
    let first = words.next()?;
    let (second, third) = two(words)?;
    Some((first.text, second, third))
}
