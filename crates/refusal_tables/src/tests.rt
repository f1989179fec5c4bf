//! Each row of docs/refusals.md is run over memory, and its status and its message compared.

use crate::rows::{
    REPEATED, ROWS_1, ROWS_2, ROWS_3, ROWS_4, ROWS_5, ROWS_6, ROWS_7, ROWS_8, ROWS_9, ROWS_10, Row,
    WORDS,
};
use memory_runs::{Memory, Streams};
use report_cli::run;
use std::alloc::Global;
use std::process::Abort;
use std::test::Fail;

// What a run with these words on this input leaves, and the number with which it ends.
fn noted(alloc: Global, words: &str, input: &[u8]) -> Result<(Memory, u8), Fail> {
    let mut all = Vec::new(alloc);
    all.push("mixed")?;
    for word in words.split_whitespace() {
        all.push(word)?;
    }
    let mut memory = Streams::calm(&all, input).open(alloc)?;
    let status = run(
        alloc,
        &memory.words,
        &mut memory.source,
        &mut memory.out,
        &mut memory.notes,
    );
    Ok((memory, status.number()))
}

// That a run ends with this status and notes this message, or nothing where there is none.
fn expect_message(
    rt: &impl Abort,
    alloc: Global,
    words: &str,
    input: &[u8],
    status: u8,
    message: &str,
) -> Result<(), Fail> {
    let line = match message {
        "" => String::new(alloc),
        message => format!(in alloc; "mixed: {message}\n")?,
    };
    let (left, ended) = noted(alloc, words, input)?;
    assert_eq!(rt; left.notes.bytes(), line.as_bytes());
    assert_eq!(rt; ended, status);
    Ok(())
}

// A text with one line in it that stands as often as told, each time with its number for `{n}`.
fn repeated(
    alloc: Global,
    before: &str,
    line: &str,
    after: &str,
    times: u32,
) -> Result<String, Fail> {
    let mut text = String::from_str(alloc, before)?;
    for number in 1..=times {
        let shown = format!(in alloc; "{number}")?;
        text.push_str(&line.replace(alloc, "{n}", shown.as_str())?)?;
    }
    text.push_str(after)?;
    Ok(text)
}

// That each of these rows is so.
fn expect_rows(rt: &impl Abort, alloc: Global, rows: &[Row]) -> Result<(), Fail> {
    for &(words, input, status, message) in rows {
        expect_message(rt, alloc, words, input, status, message)?;
    }
    Ok(())
}

#[test]
fn rows_1(rt: HostRuntime) -> Result<(), Fail> {
    expect_rows(&rt, rt.alloc(), &ROWS_1)
}

#[test]
fn rows_2(rt: HostRuntime) -> Result<(), Fail> {
    expect_rows(&rt, rt.alloc(), &ROWS_2)
}

#[test]
fn rows_3(rt: HostRuntime) -> Result<(), Fail> {
    expect_rows(&rt, rt.alloc(), &ROWS_3)
}

#[test]
fn rows_4(rt: HostRuntime) -> Result<(), Fail> {
    expect_rows(&rt, rt.alloc(), &ROWS_4)
}

#[test]
fn rows_5(rt: HostRuntime) -> Result<(), Fail> {
    expect_rows(&rt, rt.alloc(), &ROWS_5)
}

#[test]
fn rows_6(rt: HostRuntime) -> Result<(), Fail> {
    expect_rows(&rt, rt.alloc(), &ROWS_6)
}

#[test]
fn rows_7(rt: HostRuntime) -> Result<(), Fail> {
    expect_rows(&rt, rt.alloc(), &ROWS_7)
}

#[test]
fn rows_8(rt: HostRuntime) -> Result<(), Fail> {
    expect_rows(&rt, rt.alloc(), &ROWS_8)
}

#[test]
fn rows_9(rt: HostRuntime) -> Result<(), Fail> {
    expect_rows(&rt, rt.alloc(), &ROWS_9)
}

#[test]
fn rows_10(rt: HostRuntime) -> Result<(), Fail> {
    expect_rows(&rt, rt.alloc(), &ROWS_10)
}

#[test]
fn rows_of_many_lines(rt: HostRuntime) -> Result<(), Fail> {
    let alloc = rt.alloc();
    for &(words, before, line, after, times, status, message) in &REPEATED {
        let input = repeated(alloc, before, line, after, times)?;
        expect_message(&rt, alloc, words, input.as_bytes(), status, message)?;
    }
    Ok(())
}

#[test]
fn rows_of_words(rt: HostRuntime) -> Result<(), Fail> {
    let alloc = rt.alloc();
    for &(words, status, first) in &WORDS {
        let line = format!(in alloc; "{first}\n")?;
        let (left, ended) = noted(alloc, words, b"")?;
        assert!(rt; left.notes.bytes().starts_with(line.as_bytes()));
        assert_eq!(rt; ended, status);
    }
    Ok(())
}
