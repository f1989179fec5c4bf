//! Models that are edited by lines of commands, over memory.

use crate::tests::{expect_told, run_over};
use memory_runs::Streams;
use std::alloc::Global;
use std::process::Abort;
use std::test::Fail;

// A run on these lines, over streams that do not fail.
fn lines_of(lines: &[u8]) -> Streams<'_> {
    Streams::calm(&["mixed", "edit"], lines)
}

// Runs over these streams, and compares all that it leaves.
fn expect_left(
    rt: &impl Abort,
    alloc: Global,
    streams: &Streams,
    want: (u8, &[u8], &[u8]),
) -> Result<(), Fail> {
    let (status, left) = run_over(alloc, streams)?;
    assert_eq!(rt; status.number(), want.0);
    assert_eq!(rt; left.out.bytes(), want.1);
    assert_eq!(rt; left.notes.bytes(), want.2);
    Ok(())
}

/// Two models that are edited and asked in turn, and a number that none has.
const LINES: &[u8] =
    b"add 1 a x=? y=?\nadd 2 a x=1\nadd 1 b x=?\nask 1\nset 1 b y=?\nask 1\nset 2 a y=?\nask 2\n\
    drop 1 c\ndrop 1 b\nask 1\nadd 17 a\n";

const REPLIES: &[u8] = b"changed 1\nchanged 1\nchanged 2\n\
    rank 2\nfirst\nblock 1: y |\nblock 2: x | 1\nlast\nend\n\
    changed 2\n\
    rank 2\nfirst\nblock 1: x y |\nlast\nend\n\
    changed 1\n\
    rank 1\nfirst x y *a\nlast\nend\n\
    refused undeclared\nchanged 1\n\
    rank 1\nfirst x y\nlast\nend\n\
    refused bad number\n";

#[test]
fn each_line_is_replied_to(rt: HostRuntime) -> Result<(), Fail> {
    let places: &[u8] =
        b"add 16 a x=1 # known\r\nset 16 a z=0\r\nask 16\nclear 16 a x\nask 16#\nset 16 a x=2+?\nask 16\n";
    let parts: &[u8] = b"changed 1\nchanged 1\nrank 1\nfirst z\nblock 1: x |\nlast\nend\n\
        changed 0\nrank 0\nfirst x z\nlast\nend\n\
        changed 1\nrank 1\nfirst z\nblock 1: x *a |\nlast\nend\n";
    let cases: [(Streams, &[u8]); 6] = [
        (lines_of(b""), b""),
        (lines_of(b"\n \t\r\n# any byte \x01\n"), b""),
        (lines_of(b"ask 1"), b"rank 0\nfirst\nlast\nend\n"),
        (lines_of(LINES), REPLIES),
        (
            Streams {
                step: 1,
                most: 16,
                ..lines_of(LINES)
            },
            REPLIES,
        ),
        (lines_of(places), parts),
    ];
    for (streams, replies) in cases {
        expect_left(&rt, rt.alloc(), &streams, (0, replies, b""))?;
    }
    Ok(())
}

/// A line of a model with the equation `a`, and why it is refused.
const REFUSALS: &[(&str, &str)] = &[
    ("ask 1 \x01", "bad byte"),
    ("find", "bad word"),
    ("add x", "bad shape"),
    ("drop x", "bad shape"),
    ("drop x a b", "bad shape"),
    ("set x a", "bad shape"),
    ("set x a x=1 y=1", "bad shape"),
    ("clear x a", "bad shape"),
    ("ask", "bad shape"),
    ("ask x y", "bad shape"),
    ("add 0 1b", "bad number"),
    ("ask 17", "bad number"),
    ("ask 01", "bad number"),
    ("drop +1 1b", "bad number"),
    ("add 1 1b x", "bad name"),
    ("drop 1 1b", "bad name"),
    ("set 1 1b x", "bad name"),
    ("clear 1 1b x", "bad name"),
    ("add 1 a x", "twice"),
    ("drop 1 b", "undeclared"),
    ("set 1 b x", "undeclared"),
    ("clear 1 b 1x", "undeclared"),
    ("add 1 b x", "bad shape"),
    ("add 1 b 1x=y", "bad name"),
    ("add 1 b x=y", "bad number"),
    ("add 1 b x=65521", "vanishes in the field"),
    ("add 1 b z=1 z=?", "twice"),
    ("set 1 a x", "bad shape"),
    ("set 1 a x=1/65521", "vanishes in the field"),
    ("clear 1 a 1x", "bad name"),
    ("clear 1 a z", "undeclared"),
];

#[test]
fn lines_that_are_refused(rt: HostRuntime) -> Result<(), Fail> {
    let mut lines = String::from_str(rt.alloc(), "add 1 a x=? y=1\n")?;
    let mut replies = String::from_str(rt.alloc(), "changed 1\n")?;
    for (line, why) in REFUSALS {
        lines.push_str(&format!(in rt.alloc(); "{line}\n")?)?;
        replies.push_str(&format!(in rt.alloc(); "refused {why}\n")?)?;
    }
    lines.push_str("ask 1\n")?;
    replies.push_str("rank 1\nfirst x y *a\nlast\nend\n")?;
    expect_left(
        &rt,
        rt.alloc(),
        &lines_of(lines.as_bytes()),
        (0, replies.as_bytes(), b""),
    )
}

#[test]
fn as_many_unknowns_as_there_may_be(rt: HostRuntime) -> Result<(), Fail> {
    let mut lines = String::from_str(rt.alloc(), "add 1 a")?;
    for number in 1..=4096 {
        lines.push_str(&format!(in rt.alloc(); " x{number}=0")?)?;
    }
    lines.push_str("\nset 1 a y=0\nadd 1 b x1=1 y=1\nadd 1 b x1=1\n")?;
    let replies = b"changed 0\nrefused too many\nrefused too many\nchanged 1\n";
    expect_left(
        &rt,
        rt.alloc(),
        &lines_of(lines.as_bytes()),
        (0, replies, b""),
    )
}

#[test]
fn streams_that_fail(rt: HostRuntime) -> Result<(), Fail> {
    let reading = Streams {
        step: 32,
        source_fails: &[2],
        ..lines_of(LINES)
    };
    expect_left(&rt, rt.alloc(), &reading, (4, b"", b"mixed: read fault\n"))?;
    let writing = Streams {
        most: 16,
        out_fails: &[2],
        ..lines_of(LINES)
    };
    let first = b"changed 1\nchange";
    expect_left(
        &rt,
        rt.alloc(),
        &writing,
        (5, first, b"mixed: write fault\n"),
    )
}

#[test]
fn as_many_lines_as_there_may_be(rt: HostRuntime) -> Result<(), Fail> {
    let lines = vec![in rt.alloc(); b'\n'; 8_388_608]?;
    expect_left(&rt, rt.alloc(), &lines_of(&lines), (0, b"", b""))?;
    let lines = vec![in rt.alloc(); b'\n'; 8_388_609]?;
    let note = b"mixed: input longer than 8388608 bytes\n";
    expect_left(&rt, rt.alloc(), &lines_of(&lines), (3, b"", note))
}

#[test]
fn words_that_follow(rt: HostRuntime) -> Result<(), Fail> {
    expect_told(
        &rt,
        rt.alloc(),
        &["mixed", "edit", "matrix"],
        b"error: unexpected argument 'matrix' found\n",
    )
}
