//! The text of an input.

ghost use Rattle.std.specs.Prelude.{◌≡◌, ◌≤◌, IfErr, IfOk};
ghost use Rattle.run_ends.specs.Reading.{IsUntaken, ReadsWhole, TellsOfSource};

use crate::status::Status;
use port_io::{Source, read_all};
use std::alloc::Global;

/// The text of an input of at most `limit` bytes, or how the run ends without it.
pub fn read_text<S: Source>(alloc: Global, source: &mut S, limit: u64) -> Result<Vec<u8>, Status>
    requires { limit ≤ 2147483648 }
    ensures read { IfOk result (λ text.
        ReadsWhole limit (S.left source.old) (S.left source.new) (λ input. input ≡ text.items)) }
    ensures untaken { IfErr result (λ status. IsUntaken limit status (S.left source.old) (S.left source.new)) }
    ensures source { TellsOfSource S.Source limit source.old source.new result }
{
    match read_all(alloc, source, limit) {
        Ok(text) => Ok(text),
        Err(error) => Err(Status::unread(error, limit)),
    }
}
