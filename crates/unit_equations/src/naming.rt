//! The names of a unit's equations and of the unknowns in them.

ghost use Rattle.std.specs.Prelude.{◌≡◌, codes, IfOk};
ghost use Rattle.std.specs.String.{string_bytes};
ghost use Rattle.unit_equations.specs.Kinds.{flow, own_for, outlet_word};

use crate::version::Version;
use out_of_memory::NoMemory;
use std::alloc::Global;
use term_model::dotted;

/// The unknown of a component in a stream.
pub fn flow(alloc: Global, stream: &str, component: &str) -> Result<String, NoMemory>
    ensures { IfOk result (λ name. string_bytes name ≡ flow stream.now component.now) }
{
    own_for(alloc, "f", stream, component)
}

/// The name of a unit's equation for a component.
pub(crate) fn own_for(
    alloc: Global,
    word: &str,
    unit: &str,
    component: &str,
) -> Result<String, NoMemory>
    ensures { IfOk result (λ name. string_bytes name ≡ own_for word.now unit.now component.now) }
{
    dotted(alloc, word, &dotted(alloc, unit, component)?)
}

/// The name of an equation for an outlet of this number, which version 1 does not tell.
pub(crate) fn numbered(
    alloc: Global,
    version: Version,
    name: String,
    number: usize,
) -> Result<String, NoMemory>
    ensures { IfOk result (λ text. string_bytes text ≡ outlet_word version (string_bytes name) number) }
{
    match version {
        Version::One => Ok(name),
        Version::Two => dotted(alloc, &name, &number.to_string(alloc)?),
    }
}
