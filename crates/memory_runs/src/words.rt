//! The words of a command line.

ghost use Rattle.std.specs.Prelude.{◌≡◌, map, IfOk};
ghost use Rattle.std.specs.String.{string_bytes};

use std::alloc::{AllocError, Global};

/// The same words, each of its own.
pub(crate) fn words_of(alloc: Global, words: &[&str]) -> Result<Vec<String>, AllocError>
    ensures { IfOk result (λ all. map string_bytes all.items ≡ map (λ word. word.now) words.now) }
{
    let mut all = Vec::with_capacity(alloc, words.len())?;
    for word in words {
        all.push(String::from_str(alloc, word)?)?;
    }
    Ok(all)
}
