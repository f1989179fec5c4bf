//! Refusals of a text that stands behind some lines.

ghost use Rattle.std.specs.Prelude.{◌≡◌, ◌+◌, ◌<◌, ◌^◌};
ghost use Rattle.problem_heads.specs.LinesBefore.{line_number, refused_behind};

use refusals::{Place, Refused};

/// The refusal of a text that stands behind so many lines: the number of a line is counted on from them, and another
/// place stays.
pub fn counted_on(refused: Refused, lines: u32) -> Refused
    requires { line_number refused.place + lines < 2 ^ 32 }
    ensures { result ≡ refused_behind lines refused }
{
    let place = match refused.place {
        Place::Line(number) => Place::Line(number + lines),
        place => place,
    };
    Refused {
        place,
        why: refused.why,
    }
}
