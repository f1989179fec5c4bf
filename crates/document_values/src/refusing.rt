//! Broken rules at their places.

ghost use Rattle.std.specs.Prelude.{◌≡◌};
ghost use Rattle.document_values.specs.Answers.{fault_at, refused_at};

use refusals::{Fault, Place, ReadModel, Refused, Why};

/// What a rule gives, with the place where it is broken.
pub fn at<T>(place: Place, given: Result<T, Why>) -> Result<T, ReadModel>
    ensures { result ≡ refused_at place given }
{
    match given {
        Ok(value) => Ok(value),
        Err(why) => Err(ReadModel::Refused(Refused { place, why })),
    }
}

/// What a call gives that may lack memory, with the place where a rule is broken.
pub fn at_or_memory<T>(place: Place, given: Result<T, Fault>) -> Result<T, ReadModel>
    ensures { result ≡ fault_at place given }
{
    match given {
        Ok(value) => Ok(value),
        Err(Fault::Broken(why)) => Err(ReadModel::Refused(Refused { place, why })),
        Err(Fault::NoMemory) => Err(ReadModel::NoMemory),
    }
}
