//! The certificate of each example input is accepted, and with one digit changed it is not.

use crate::inputs::INPUTS;
use crate::running::{expect_accepted, expect_refused, expect_run};
use std::alloc::Global;
use std::process::Abort;
use std::test::Fail;

// The place of the last digit of the first number of the line that begins so.
fn last_digit(text: &[u8], begins: &[u8]) -> Result<usize, Fail> {
    for start in 0..text.len() {
        if text[start..].starts_with(begins) {
            let number = start + begins.len();
            let digits = text[number..]
                .iter()
                .position(|byte| !byte.is_ascii_digit())
                .ok_or("the line ends")?;
            return Ok((number + digits).saturating_sub(1));
        }
    }
    Err(Fail::from("the line is there"))
}

// The digit below, or 1 for 0.
fn other_digit(digit: u8) -> u8 {
    match digit {
        b'0' => b'1',
        digit => digit.saturating_sub(1),
    }
}

// The text with that digit changed, and the digit that it was.
fn with_digit(alloc: Global, text: &[u8], begins: &[u8]) -> Result<(Vec<u8>, u8), Fail> {
    let place = last_digit(text, begins)?;
    let digit = *text.get(place).ok_or("the digit is there")?;
    let mut changed = Vec::with_capacity(alloc, text.len())?;
    for (at, byte) in text.iter().enumerate() {
        changed.push(if at == place {
            other_digit(digit)
        } else {
            *byte
        })?;
    }
    Ok((changed, digit))
}

// That this certificate is accepted, and not so with another number of equations, another rank or another length. A
// length that is one less makes an empty line of the last line end of the input; one that is one more takes the line
// end behind the input, so that the line of the input has none.
fn expect_digits(rt: &impl Abort, alloc: Global, text: &[u8]) -> Result<(), Fail> {
    expect_accepted(rt, alloc, text)?;
    let (changed, _digit) = with_digit(alloc, text, b"\nshape ")?;
    expect_refused(rt, alloc, &changed, 7, b"mixed: rejected by rule 2\n")?;
    let (changed, _digit) = with_digit(alloc, text, b"\nrank ")?;
    expect_refused(rt, alloc, &changed, 7, b"mixed: rejected by rule 7\n")?;
    let (changed, digit) = with_digit(alloc, text, b"\nlength ")?;
    match digit {
        b'0' => expect_refused(
            rt,
            alloc,
            &changed,
            3,
            b"mixed: line 4: not a certificate line\n",
        ),
        _ => expect_refused(
            rt,
            alloc,
            &changed,
            3,
            b"mixed: line 5: not a certificate line\n",
        ),
    }
}

#[test]
fn certificates_of_the_examples(rt: HostRuntime) -> Result<(), Fail> {
    let alloc = rt.alloc();
    for (kind, input) in INPUTS {
        let words: &[&str] = &["mixed", "analyse", kind];
        let left = expect_run(&rt, alloc, words, input.as_bytes(), 0, b"")?;
        expect_digits(&rt, alloc, left.out.bytes())?;
    }
    Ok(())
}
