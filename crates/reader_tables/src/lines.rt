//! Texts that come in pieces.

use line_lexer::Tokens;
use line_reader::{LineFormat, LineReader};
use refusals::{Fault, Place, ReadModel, Refused, Why};
use std::alloc::Global;
use std::test::Fail;

// Counts words and their bytes, and keeps the number of the last line. A line that begins with `*` is a comment.
#[derive(Drop)]
struct Count {
    line: u32,
    words: usize,
    bytes: usize,
}

impl LineFormat for Count {
    ghost use Rattle.std.specs.Prelude.{Some, None};

    ghost rules = { record { remark = Some 42; words = λ before words. None } };

    ghost has_read = { λ count lines. Unit {0} };

    ghost is_ready = { λ count. Unit {0} };

    fn remark_sign() -> Option<u8> {
        Some(b'*')
    }

    fn read_line(&mut self, number: u32, words: Tokens<'_>) -> Result<(), Fault> {
        self.line = number;
        for word in words {
            self.words = self.words.saturating_add(1);
            self.bytes = self.bytes.saturating_add(word.text.len());
        }
        Ok(())
    }
}

fn nothing() -> Count {
    Count {
        line: 0,
        words: 0,
        bytes: 0,
    }
}

// The last line, the words and their bytes.
type Counted = (u32, usize, usize);

fn counted(count: &Count) -> Counted {
    (count.line, count.words, count.bytes)
}

fn count_words(alloc: Global, pieces: &[&[u8]]) -> Result<Counted, ReadModel> {
    let mut reader = LineReader::new(alloc, nothing());
    for piece in pieces {
        reader = reader.feed(piece)?;
    }
    Ok(counted(&reader.finish()?))
}

// Ten lines: the first has words, a comment and a carriage return, the second is empty, the third and the last have a
// word. The fourth and the seventh have only a comment behind `#`, the fifth and the eighth are a comment as a whole. The
// sixth has two words, and the ninth has blanks.
const TEXT: &[u8] = b"a bc # d\r\n\nef\r\n#\r\n \t* \xff#\0\r\nh *i\n#\xff*\n*\r\n  \ng\r";

const COUNTED: Counted = (10, 6, 9);

#[test]
fn lines_are_the_same_wherever_a_text_is_cut(rt: HostRuntime) -> Result<(), Fail> {
    for cut in 0..=TEXT.len() {
        let (front, back) = TEXT.split_at(cut);
        assert_eq!(rt; count_words(rt.alloc(), &[front, back])?, COUNTED, "{cut}");
    }
    Ok(())
}

#[test]
fn a_text_may_come_byte_by_byte(rt: HostRuntime) -> Result<(), Fail> {
    let mut reader = LineReader::new(rt.alloc(), nothing());
    for place in 0..TEXT.len() {
        reader = reader.feed(&TEXT[place..place + 1])?;
    }
    assert_eq!(rt; counted(&reader.finish()?), COUNTED);
    Ok(())
}

const LAST_LINES: [(&str, u32); 8] = [
    ("", 0),
    ("\n", 1),
    ("#", 1),
    ("\n#", 2),
    (" *", 1),
    ("\n*", 2),
    ("a\n", 1),
    ("\n ", 2),
];

#[test]
fn what_is_not_ended_is_a_line_if_a_byte_came(rt: HostRuntime) -> Result<(), Fail> {
    for (text, want) in LAST_LINES {
        let (line, ..) = count_words(rt.alloc(), &[text.as_bytes()])?;
        assert_eq!(rt; line, want, "{text}");
    }
    Ok(())
}

// Texts in two pieces, each with its first bad byte in line 2.
const REFUSED: [[&[u8]; 2]; 6] = [
    [b"a\n\x01", b"\nb\n\x01\n"],
    [b"a\nb\r", b"\r\n"],
    [b"a\nb\rc", b""],
    [b"a\n\x01\n", b"#"],
    [b" *\x01\nb *", b"\x01"],
    [b"*\n\x01", b"*"],
];

#[test]
fn the_first_refusal_is_kept(rt: HostRuntime) -> Result<(), Fail> {
    let place = Place::Line(2);
    let why = Why::BadByte;
    let refused = ReadModel::Refused(Refused { place, why });
    for pieces in REFUSED {
        assert_eq!(rt; count_words(rt.alloc(), &pieces), Err(refused));
    }
    Ok(())
}
