//! Lines that are a comment as a whole.

ghost use Rattle.std.specs.Prelude.{◌≡◌, ◌&&◌};
ghost use Rattle.std.specs.List.{list_all};
ghost use Rattle.line_lexer.specs.Tokens.{is_blank};
ghost use Rattle.line_reader.specs.LineRules.{content, first_byte, is_remark};

use crate::format::LineFormat;
use line_lexer::is_blank;

// What of a line is read: nothing where it is a comment as a whole.
pub(crate) fn content<R: LineFormat>(line: &[u8]) -> &[u8]
    ensures { result.now ≡ content R.rules line.now }
{
    if is_remark::<R>(line) {
        &line[..0]
    } else {
        line
    }
}

// Whether a line that begins so, and is no comment as a whole so far, is one by the part that comes next.
pub(crate) fn becomes_remark<R: LineFormat>(start: &[u8], part: &[u8]) -> bool
    ensures { result ≡ (is_remark R.rules.remark part.now && list_all is_blank start.now) }
{
    is_remark::<R>(part) && are_blanks(start)
}

fn is_remark<R: LineFormat>(line: &[u8]) -> bool
    ensures { result ≡ is_remark R.rules.remark line.now }
{
    match (R::remark_sign(), first_byte(line)) {
        (Some(sign), Some(byte)) => byte == sign,
        _ => false,
    }
}

fn first_byte(line: &[u8]) -> Option<u8>
    ensures { result ≡ first_byte line.now }
{
    line.iter().copied().find(|byte| !is_blank(*byte))
}

// From the end, so that no blank of a line that comes in many parts is tested twice.
fn are_blanks(bytes: &[u8]) -> bool
    ensures { result ≡ list_all is_blank bytes.now }
{
    let mut rest = bytes;
    while let Some((last, front)) = rest.split_last() {
        if !is_blank(*last) {
            return false;
        }
        rest = front;
    }
    true
}
