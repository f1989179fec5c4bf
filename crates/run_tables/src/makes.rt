//! Made models, as runs over memory.

use crate::tests::{Case, asked, calm, expect_case, expect_told, run_over};
use memory_runs::{Memory, Streams};
use std::alloc::Global;
use std::process::Abort;
use std::test::Fail;

// A case that is answered by these whole lines. Its source is not read: the first call of it would fail.
fn made<'a>(words: &'a [&'a str], lines: &'a [u8]) -> Case<'a> {
    Case {
        source_fails: &[1],
        ..asked(words, calm(b"eq a\n", 0, lines, lines, b""))
    }
}

#[test]
fn small_makes(rt: HostRuntime) -> Result<(), Fail> {
    let two = b"make 2\nequations 2 unknowns 2 split 1\nrank 2\nfirst 0 0\nblocks 1\nlast 0 0\n";
    let cases = [
        made(
            &["mixed", "make", "1"],
            b"make 1\nequations 1 unknowns 1 split 0\nrank 1\nfirst 0 0\nblocks 1\nlast 0 0\n",
        ),
        made(&["mixed", "make", "2"], two),
        made(
            &["mixed", "make", "400"],
            b"make 400\nequations 400 unknowns 400 split 292\nrank 376\nfirst 1 25\nblocks 161\nlast 530 506\n",
        ),
        // a number is a number, however it is written
        made(&["mixed", "make", "+002"], two),
        Case {
            most: 16,
            out_fails: &[2],
            status: 5,
            ends: b"make 2\nequations",
            notes: b"mixed: write fault\n",
            begins: b"make 2\nequations",
            ..made(&["mixed", "make", "2"], two)
        },
    ];
    for case in cases {
        expect_case(&rt, rt.alloc(), &case)?;
    }
    Ok(())
}

#[test]
fn sizes_that_are_none(rt: HostRuntime) -> Result<(), Fail> {
    let cases: [(&[&str], &[u8]); 5] = [
        (&["mixed", "make", "0"], b"invalid value '0' for '<N>'"),
        (&["mixed", "make", "401"], b"invalid value '401' for '<N>'"),
        (&["mixed", "make", "x"], b"invalid value 'x' for '<N>'"),
        (&["mixed", "make"], b"<N>"),
        (
            &["mixed", "make", "--help"],
            b"Usage: mixed make <N> [FIELD]\n",
        ),
    ];
    for (words, told) in cases {
        expect_told(&rt, rt.alloc(), words, told)?;
    }
    Ok(())
}

// What a run leaves that ends well.
fn left_by(rt: &impl Abort, alloc: Global, words: &[&str], input: &[u8]) -> Result<Memory, Fail> {
    let (status, left) = run_over(alloc, &Streams::calm(words, input))?;
    assert_eq!(rt; status.number(), 0);
    Ok(left)
}

// The equation list of the made model of this size, by the words of its format.
fn list_of(alloc: Global, size: u64) -> Result<String, Fail> {
    let mut text = String::new(alloc);
    for number in 1..=size {
        text.push_str(&format!(in alloc; "unknown x{number}\n")?)?;
    }
    let mut drawn = size;
    for number in 1..=size {
        text.push_str(&format!(in alloc; "eq e{number}")?)?;
        let mut taken = Vec::new(alloc);
        for _ in 0..3 {
            let a = drawn.wrapping_mul(48_271) % 2_147_483_647;
            let b = a.wrapping_mul(48_271) % 2_147_483_647;
            drawn = b;
            let column = a % size.max(1) + 1;
            if taken.contains(&column) {
                continue;
            }
            taken.push(column)?;
            let constant = b / 4 % 65_520 + 1;
            let entry = match b % 4 {
                0 | 1 => format!(in alloc; " x{column}={constant}")?,
                _ => format!(in alloc; " x{column}=?")?,
            };
            text.push_str(&entry)?;
        }
        text.push('\n')?;
    }
    Ok(text)
}

// How many rows and columns the line of a tail or of a block has, behind its word.
fn part_of(line: &str) -> (usize, usize) {
    let (columns, rows) = line.split_once("|").unwrap_or((line, ""));
    (
        rows.split_whitespace().count(),
        columns.split_whitespace().skip(1).count(),
    )
}

// The lines of `make` that a certificate of an input of this size tells.
fn told_of(alloc: Global, size: u64, certificate: &str) -> Result<String, Fail> {
    let mut text = format!(in alloc; "make {size}\n")?;
    let blocks = certificate
        .lines()
        .filter(|line| line.starts_with("block "))
        .count();
    for line in certificate.lines() {
        if line.starts_with("shape ") {
            let mut numbers = line
                .split_whitespace()
                .skip(1)
                .filter_map(|word| word.parse::<usize>().ok());
            let (equations, unknowns) = (numbers.next().unwrap_or(0), numbers.next().unwrap_or(0));
            let split = numbers.last().unwrap_or(0).saturating_sub(unknowns);
            text.push_str(&format!(in alloc;
                "equations {equations} unknowns {unknowns} split {split}\n"
            )?)?;
        } else if line.starts_with("rank ") {
            text.push_str(&format!(in alloc; "{line}\n")?)?;
        } else if line.starts_with("first ") {
            let (rows, columns) = part_of(line);
            text.push_str(&format!(in alloc; "first {rows} {columns}\n")?)?;
        } else if line.starts_with("last ") {
            let (rows, columns) = part_of(line);
            text.push_str(&format!(in alloc; "blocks {blocks}\nlast {rows} {columns}\n")?)?;
        }
    }
    Ok(text)
}

// The model is written as an equation list by the words of the format, and its certificate counted.
#[test]
fn a_made_model_is_that_of_its_list(rt: HostRuntime) -> Result<(), Fail> {
    let alloc = rt.alloc();
    for size in [2, 30] {
        let list = list_of(alloc, size)?;
        let certificate = left_by(&rt, alloc, &["mixed", "analyse", "matrix"], list.as_bytes())?;
        let certificate = std::str::from_utf8(certificate.out.bytes()).unwrap_or("");
        let number = format!(in alloc; "{size}")?;
        let made = left_by(&rt, alloc, &["mixed", "make", number.as_str()], b"")?;
        assert_eq!(rt;
            made.out.bytes(),
            told_of(alloc, size, certificate)?.as_bytes()
        );
    }
    Ok(())
}
