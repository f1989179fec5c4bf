//! How a run ends on a text that is not accepted.

use crate::judging::NotAccepted;
use run_ends::Status;

impl From<NotAccepted> for Status {
    ghost use Rattle.std.specs.Prelude.{◌≡◌};
    ghost use Rattle.cert_verdict.specs.Statuses.{status_of_verdict};

    ghost from_gives = { λ why status. status ≡ status_of_verdict why };

    fn from(why: NotAccepted) -> Status {
        match why {
            NotAccepted::Refused { line } => Status::BadCertificate(line),
            NotAccepted::Rejected { rule } => Status::Rejected(rule),
            NotAccepted::NoMemory => Status::Memory,
        }
    }
}
