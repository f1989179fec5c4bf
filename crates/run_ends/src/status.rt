//! How a run ends.

ghost use Rattle.std.specs.Prelude.{◌≡◌};
ghost use Rattle.run_ends.specs.Numbers.{status_number};
ghost use Rattle.run_ends.specs.Statuses.{status_of_error};

use limits::INPUT_LIMIT;
use out_of_memory::NoMemory;
use port_io::ReadError;
use refusals::ReadModel;
use std::alloc::AllocError;

/// How a run ends.
#[derive(Clone, Copy, Debug, PartialEq, Eq)]
pub enum Status {
    /// The input was read to its end, and the whole text was written and flushed.
    Done,
    /// The same, and what was written tells of less: a rank below the number of equations, or of unknowns, a problem
    /// without one solution, a model that needs no repair.
    NotRegular,
    /// The words ask for no command.
    Usage,
    /// The first rule of its format that the input breaks.
    Refused(refusals::Refused),
    /// The input has more bytes than this limit.
    TooLong(u64),
    /// The input is the text of no certificate: the first line that is refused.
    BadCertificate(u32),
    /// The source failed.
    ReadFault,
    /// The sink failed: a prefix of the text was written.
    WriteFault,
    /// Memory ran out, before anything was written.
    Memory,
    /// The first rule that the certificate in the input breaks.
    Rejected(u32),
}

impl Status {
    /// The number that the program ends with.
    pub fn number(self) -> u8
        ensures { result ≡ status_number self }
    {
        match self {
            Status::Done => 0,
            Status::NotRegular => 1,
            Status::Usage => 2,
            Status::Refused(_) | Status::TooLong(_) | Status::BadCertificate(_) => 3,
            Status::ReadFault => 4,
            Status::WriteFault => 5,
            Status::Memory => 6,
            Status::Rejected(_) => 7,
        }
    }

    /// How a run ends whose input, of at most `limit` bytes, was not read.
    pub fn unread(error: ReadError, limit: u64) -> Status
        ensures { result ≡ status_of_error limit error }
    {
        match error {
            ReadError::ReadFault => Status::ReadFault,
            ReadError::TooLong => Status::TooLong(limit),
            ReadError::NoMemory => Status::Memory,
        }
    }
}

// The input is to give a model: it has at most 8,388,608 bytes.
impl From<ReadError> for Status {
    ghost use Rattle.std.specs.Prelude.{◌≡◌};
    ghost use Rattle.limits.specs.Limits.{input_limit};
    ghost use Rattle.run_ends.specs.Statuses.{status_of_error};

    ghost from_gives = { λ error status. status ≡ status_of_error input_limit error };

    fn from(error: ReadError) -> Status {
        Status::unread(error, INPUT_LIMIT as u64)
    }
}

impl From<ReadModel> for Status {
    ghost use Rattle.std.specs.Prelude.{◌≡◌};
    ghost use Rattle.run_ends.specs.Statuses.{status_of_refusal};

    ghost from_gives = { λ why status. status ≡ status_of_refusal why };

    fn from(why: ReadModel) -> Status {
        match why {
            ReadModel::Refused(refused) => Status::Refused(refused),
            ReadModel::NoMemory => Status::Memory,
        }
    }
}

impl From<NoMemory> for Status {
    ghost use Rattle.std.specs.Prelude.{◌≡◌};
    ghost use Rattle.run_ends.specs.declared.status.Status.TheVariants.{Memory};

    ghost from_gives = { λ _ status. status ≡ Memory };

    fn from(_error: NoMemory) -> Status {
        Status::Memory
    }
}

impl From<AllocError> for Status {
    ghost use Rattle.std.specs.Prelude.{◌≡◌};
    ghost use Rattle.run_ends.specs.declared.status.Status.TheVariants.{Memory};

    ghost from_gives = { λ _ status. status ≡ Memory };

    fn from(_error: AllocError) -> Status {
        Status::Memory
    }
}
