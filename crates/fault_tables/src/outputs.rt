//! Outputs of which one call fails: each write of a text in turn, and the flush.

use crate::running::{expect_left, run_over};
use crate::tasks::{MAKING, READING, Task};
use memory_runs::Streams;
use std::alloc::Global;
use std::process::Abort;
use std::test::Fail;

/// The most bytes that a call of `out` takes.
const MOST: usize = 7;

// That a run ends with 5 and a first part of its text where one of the calls of `out` fails, up to the first call that is
// not made. Each call but the flush takes a byte or more, and at most `MOST`: this bounds how many calls there are.
fn expect_write_faults(rt: &impl Abort, alloc: Global, task: &Task) -> Result<(), Fail> {
    let calls = (task.text.len() as u64).saturating_add(1);
    let mut room = 0usize;
    for call in 1..=calls.saturating_add(1) {
        let streams = Streams {
            most: MOST,
            out_fails: &[call],
            ..Streams::calm(task.words, task.input)
        };
        let left = run_over(alloc, &streams)?;
        if left.status == 0 {
            expect_left(rt, &left, 0, task.text, b"")?;
            // so the flush was a call too
            assert!(rt; task.text.len().saturating_add(MOST) <= room);
            return Ok(());
        }
        assert_eq!(rt; left.status, 5);
        assert_eq!(rt;
            left.memory.notes.bytes(),
            b"mixed: write fault\n".as_slice()
        );
        assert!(rt; task.text.starts_with(left.memory.out.bytes()));
        assert!(rt; left.memory.out.bytes().len() <= room);
        room = room.saturating_add(MOST);
    }
    Err(Fail::from("a run ends with 0"))
}

#[test]
fn each_write_fails(rt: HostRuntime) -> Result<(), Fail> {
    for task in READING {
        expect_write_faults(&rt, rt.alloc(), &task)?;
    }
    expect_write_faults(&rt, rt.alloc(), &MAKING)
}
