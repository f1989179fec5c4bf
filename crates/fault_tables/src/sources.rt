//! Sources of which one call fails: each read of an input in turn.

use crate::running::{expect_left, run_over};
use crate::tasks::{MAKING, READING, Task};
use memory_runs::Streams;
use std::alloc::Global;
use std::process::Abort;
use std::test::Fail;

// That a run ends with 4 where one of the calls that read the input fails, and is none the worse for a call that would
// fail behind them.
fn expect_read_faults(rt: &impl Abort, alloc: Global, task: &Task) -> Result<(), Fail> {
    for call in 1..=task.reads {
        let streams = Streams {
            step: task.step,
            source_fails: &[call],
            ..Streams::calm(task.words, task.input)
        };
        let left = run_over(alloc, &streams)?;
        expect_left(rt, &left, 4, b"", b"mixed: read fault\n")?;
    }
    let streams = Streams {
        step: task.step,
        source_fails: &[task.reads.saturating_add(1)],
        ..Streams::calm(task.words, task.input)
    };
    let left = run_over(alloc, &streams)?;
    expect_left(rt, &left, 0, task.text, b"")
}

#[test]
fn each_read_fails(rt: HostRuntime) -> Result<(), Fail> {
    for task in READING {
        expect_read_faults(&rt, rt.alloc(), &task)?;
    }
    Ok(())
}

#[test]
fn make_has_no_read_that_could_fail(rt: HostRuntime) -> Result<(), Fail> {
    let streams = Streams {
        source_fails: &[1, 2, 3, 4, 5, 6, 7, 8],
        ..Streams::calm(MAKING.words, MAKING.input)
    };
    let left = run_over(rt.alloc(), &streams)?;
    expect_left(&rt, &left, 0, MAKING.text, b"")
}
