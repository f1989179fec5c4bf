//! Why a text is not accepted, by why its certificate is not read, its echo gives no model, or its form is not taken.

use crate::judging::NotAccepted;
use cert_checker::CheckError;
use cert_reader::ReadCert;
use refusals::ReadModel;

impl From<ReadCert> for NotAccepted {
    ghost use Rattle.std.specs.Prelude.{◌≡◌};
    ghost use Rattle.cert_verdict.specs.Judging.{why_unread};

    ghost from_gives = { λ error why. why ≡ why_unread error };

    fn from(error: ReadCert) -> NotAccepted {
        match error {
            ReadCert::Refused { line } => NotAccepted::Refused { line },
            ReadCert::NoMemory => NotAccepted::NoMemory,
        }
    }
}

impl From<ReadModel> for NotAccepted {
    ghost use Rattle.std.specs.Prelude.{◌≡◌};
    ghost use Rattle.cert_verdict.specs.Judging.{why_no_model};

    ghost from_gives = { λ error why. why ≡ why_no_model error };

    fn from(error: ReadModel) -> NotAccepted {
        match error {
            ReadModel::Refused(_) => NotAccepted::Rejected { rule: 1 },
            ReadModel::NoMemory => NotAccepted::NoMemory,
        }
    }
}

impl From<CheckError> for NotAccepted {
    ghost use Rattle.std.specs.Prelude.{◌≡◌};
    ghost use Rattle.cert_verdict.specs.Judging.{why_not_taken};

    ghost from_gives = { λ error why. why ≡ why_not_taken error };

    fn from(error: CheckError) -> NotAccepted {
        match error {
            CheckError::Reject { rule } => NotAccepted::Rejected { rule },
            CheckError::NoMemory => NotAccepted::NoMemory,
        }
    }
}
