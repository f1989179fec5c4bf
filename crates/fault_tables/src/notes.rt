//! Notes that fail: each run ends as it would with notes that take all.

use crate::running::{expect_left, run_over};
use crate::tasks::{CERTIFICATE, TRIANGLE};
use memory_runs::Streams;
use std::test::Fail;

const ANALYSE: &[&str] = &["mixed", "analyse", "matrix"];

const CHECK: &[&str] = &["mixed", "check"];

/// The text of a certificate with another rank than the empty input has.
const WRONG: &[u8] =
    b"mixed-certificate 1\nkind matrix\nlength 0\n\nshape 0 0 0 0 0\nrank 1\nbase\nmatch\nfirst |\nlast |\nend\n";

// An analysis of the triangle of which this call of the source fails, or this call of `out`.
fn failing<'a>(source_fails: &'a [u64], out_fails: &'a [u64]) -> Streams<'a> {
    Streams {
        source_fails,
        out_fails,
        ..Streams::calm(ANALYSE, TRIANGLE)
    }
}

#[test]
fn notes_fail(rt: HostRuntime) -> Result<(), Fail> {
    let cases: [(u8, &[u8], Streams); 8] = [
        // nothing is to be noted, so that no call fails
        (0, CERTIFICATE, Streams::calm(ANALYSE, TRIANGLE)),
        (
            2,
            b"",
            Streams::calm(&["mixed", "analyse", "netlists"], TRIANGLE),
        ),
        // what clap tells
        (2, b"", Streams::calm(&["mixed", "analyse"], TRIANGLE)),
        (3, b"", Streams::calm(ANALYSE, b"eq a x=?+?\n")),
        (3, b"", Streams::calm(CHECK, TRIANGLE)),
        (4, b"", failing(&[1], &[])),
        (5, b"", failing(&[], &[1])),
        (7, b"", Streams::calm(CHECK, WRONG)),
    ];
    for (status, text, streams) in cases {
        let streams = Streams {
            notes_fail: &[1],
            ..streams
        };
        let left = run_over(rt.alloc(), &streams)?;
        expect_left(&rt, &left, status, text, b"")?;
    }
    Ok(())
}
