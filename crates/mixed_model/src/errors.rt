//! Why nothing was added to a model.

use refusals::{Fault, Why};
use std::alloc::{AllocError, AllocFailed};
use thiserror::Error;

/// Why nothing was added to a model.
#[derive(Clone, Copy, Debug, PartialEq, Eq, Error)]
pub enum AddError {
    #[error("it is there already")]
    Twice,
    #[error("the model is full")]
    TooMany,
    #[error("out of memory")]
    NoMemory,
}

impl From<AllocError> for AddError {
    ghost use Rattle.std.specs.Prelude.{◌≡◌};
    ghost use Rattle.mixed_model.specs.declared.errors.AddError.TheVariants.{NoMemory};

    ghost from_gives = { λ _ error. error ≡ NoMemory };

    fn from(_error: AllocError) -> AddError {
        AddError::NoMemory
    }
}

impl<T: Drop> From<AllocFailed<T>> for AddError {
    ghost use Rattle.std.specs.Prelude.{◌≡◌};
    ghost use Rattle.mixed_model.specs.declared.errors.AddError.TheVariants.{NoMemory};

    ghost from_gives = { λ _ error. error ≡ NoMemory };

    fn from(_error: AllocFailed<T>) -> AddError {
        AddError::NoMemory
    }
}

impl From<AddError> for Fault {
    ghost use Rattle.std.specs.Prelude.{◌≡◌};
    ghost use Rattle.mixed_model.specs.Faults.{fault_of};

    ghost from_gives = { λ error fault. fault ≡ fault_of error };

    fn from(error: AddError) -> Fault {
        match error {
            AddError::Twice => Fault::Broken(Why::Twice),
            AddError::TooMany => Fault::Broken(Why::TooMany),
            AddError::NoMemory => Fault::NoMemory,
        }
    }
}
