//! Names behind a word and a point.

ghost use Rattle.std.specs.Prelude.{◌≡◌, IfOk};
ghost use Rattle.std.specs.String.{string_bytes};
ghost use Rattle.term_model.specs.Terms.{dotted};

use out_of_memory::NoMemory;
use std::alloc::Global;

/// A word, a point and a name.
pub fn dotted(alloc: Global, word: &str, name: &str) -> Result<String, NoMemory>
    ensures { IfOk result (λ text. string_bytes text ≡ dotted word.now name.now) }
{
    let mut text = String::from_str(alloc, word)?;
    text.push('.')?;
    text.push_str(name)?;
    Ok(text)
}
