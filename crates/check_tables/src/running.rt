//! Runs over memory, and what each is to leave.

use memory_runs::{Memory, Streams};
use report_cli::run;
use std::alloc::Global;
use std::process::Abort;
use std::test::Fail;

/// That a run with these words on this input ends with this status and these notes; what it leaves.
pub(crate) fn expect_run(
    rt: &impl Abort,
    alloc: Global,
    words: &[&str],
    input: &[u8],
    status: u8,
    notes: &[u8],
) -> Result<Memory, Fail> {
    let mut memory = Streams::calm(words, input).open(alloc)?;
    let ended = run(
        alloc,
        &memory.words,
        &mut memory.source,
        &mut memory.out,
        &mut memory.notes,
    );
    assert_eq!(rt; memory.notes.bytes(), notes);
    assert_eq!(rt; ended.number(), status);
    Ok(memory)
}

/// That the text is that of a certificate, and accepted.
pub(crate) fn expect_accepted(rt: &impl Abort, alloc: Global, text: &[u8]) -> Result<(), Fail> {
    let left = expect_run(rt, alloc, &["mixed", "check"], text, 0, b"")?;
    assert_eq!(rt; left.out.bytes(), b"accepted\n".as_slice());
    Ok(())
}

/// That the text is not accepted, with this status and this note.
pub(crate) fn expect_refused(
    rt: &impl Abort,
    alloc: Global,
    text: &[u8],
    status: u8,
    notes: &[u8],
) -> Result<(), Fail> {
    let left = expect_run(rt, alloc, &["mixed", "check"], text, status, notes)?;
    assert_eq!(rt; left.out.bytes(), b"".as_slice());
    Ok(())
}
