//! Runs over memory, and what each is to leave.

use memory_runs::{Memory, Streams};
use picture_cli::run;
use std::alloc::Global;
use std::process::Abort;
use std::test::Fail;

/// That a run over these streams ends with this status and these notes; what it leaves.
pub(crate) fn expect_run(
    rt: &impl Abort,
    alloc: Global,
    streams: &Streams,
    status: u8,
    notes: &[u8],
) -> Result<Memory, Fail> {
    let mut memory = streams.open(alloc)?;
    let ended = run(
        alloc,
        &mut memory.source,
        &mut memory.out,
        &mut memory.notes,
    );
    assert_eq!(rt; memory.notes.bytes(), notes);
    assert_eq!(rt; ended.number(), status);
    Ok(memory)
}

/// That the picture of this certificate is this.
pub(crate) fn expect_picture(
    rt: &impl Abort,
    alloc: Global,
    certificate: &str,
    picture: &str,
) -> Result<(), Fail> {
    let streams = Streams::calm(&[], certificate.as_bytes());
    let left = expect_run(rt, alloc, &streams, 0, b"")?;
    assert_eq!(rt; left.out.bytes(), picture.as_bytes());
    Ok(())
}

/// That no picture is drawn of this input, with this status and this note.
pub(crate) fn expect_none(
    rt: &impl Abort,
    alloc: Global,
    input: &str,
    status: u8,
    notes: &[u8],
) -> Result<(), Fail> {
    let streams = Streams::calm(&[], input.as_bytes());
    let left = expect_run(rt, alloc, &streams, status, notes)?;
    assert_eq!(rt; left.out.bytes(), b"".as_slice());
    Ok(())
}
