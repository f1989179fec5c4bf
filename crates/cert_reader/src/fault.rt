//! Why no certificate is read.

ghost use Rattle.std.specs.Prelude.{◌≡◌};
ghost use Rattle.cert_reader.specs.declared.fault.ReadCert.TheVariants.{NoMemory};

use std::alloc::{AllocError, AllocFailed};

/// Why no certificate was read.
#[derive(Clone, Copy, Debug, PartialEq, Eq)]
pub enum ReadCert {
    NoMemory,
    /// The text has no line of a certificate at the place of this one, which counts from 1. The echo is one line.
    Refused { line: u32 },
}

impl From<AllocError> for ReadCert {
    ghost from_gives = { λ _ e. e ≡ NoMemory };

    fn from(_error: AllocError) -> ReadCert {
        ReadCert::NoMemory
    }
}

impl<T: Drop> From<AllocFailed<T>> for ReadCert {
    ghost from_gives = { λ _ e. e ≡ NoMemory };

    fn from(_error: AllocFailed<T>) -> ReadCert {
        ReadCert::NoMemory
    }
}
