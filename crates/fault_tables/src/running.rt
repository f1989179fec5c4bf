//! Runs over memory, and what each leaves.

use memory_runs::{Memory, Streams};
use report_cli::run;
use std::alloc::Global;
use std::process::Abort;
use std::test::Fail;

/// How a run ends, and what it leaves.
#[derive(Drop)]
pub(crate) struct Left {
    pub(crate) status: u8,
    pub(crate) memory: Memory,
}

/// Runs over these streams.
pub(crate) fn run_over(alloc: Global, streams: &Streams) -> Result<Left, Fail> {
    let mut memory = streams.open(alloc)?;
    let status = run(
        alloc,
        &memory.words,
        &mut memory.source,
        &mut memory.out,
        &mut memory.notes,
    );
    Ok(Left {
        status: status.number(),
        memory,
    })
}

/// That a run ended with this status, wrote this whole text, and noted this.
pub(crate) fn expect_left(
    rt: &impl Abort,
    left: &Left,
    status: u8,
    text: &[u8],
    notes: &[u8],
) -> Result<(), Fail> {
    assert_eq!(rt; left.memory.notes.bytes(), notes);
    assert_eq!(rt; left.status, status);
    assert_eq!(rt; left.memory.out.bytes(), text);
    Ok(())
}
