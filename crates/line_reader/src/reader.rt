//! A reader of lines, which is fed a text piece by piece.

ghost use Rattle.std.specs.Prelude.{◌≡◌, ◌≢◌, ◌∷◌, ◌++◌, ◌+◌, ◌<◌, ◌≤◌, ℕ, List, [], None, true, false, length, map, min};
ghost use Rattle.std.specs.Prelude.{if◌then◌else◌, IfOk, IfErr, OnOk, IfSome, IfNone, OnSome};
ghost use Rattle.std.specs.List.{list_any};
ghost use Rattle.std.specs.Str.Lines.{strip_carriage_return};
ghost use Rattle.limits.specs.Limits.{input_limit};
ghost use Rattle.line_lexer.specs.Lines.{is_line_feed, lines_of};
ghost use Rattle.line_reader.specs.LineRules.{KeepsAll, IsRefusal, words_in};
ghost use Rattle.line_reader.specs.Answers.{ReadsBytes};
ghost use Rattle.line_reader.specs.Readings.{IsFed, ReadsEnded, ReadsLine, reading};

use crate::format::LineFormat;
use crate::remark::{becomes_remark, content};
use line_lexer::{Line, before_comment, first_line_feed, tokens, without_return};
use out_of_memory::NoMemory;
use refusals::{Fault, Place, ReadModel, Refused};
use std::alloc::Global;
use std::marker::Model;

/// Reads the lines of a text of at most 8,388,608 bytes, which comes in pieces: it keeps no more of the text than the
/// line that is not ended, and of that no comment.
#[derive(Drop)]
pub struct LineReader<R: LineFormat> {
    progress: Progress<R>,
}

impl<R: LineFormat> Model for LineReader<R> {
    ghost use Rattle.std.specs.Prelude.{◌≡◌, None};
    ghost use Rattle.line_reader.specs.Readings.{Reading, reading};

    ghost Value = { Reading R };

    ghost view = { λ l. reading l.progress.format l.progress.number l.progress.line.items l.progress.commented
        l.progress.refused };

    ghost invariant = { λ l. l.progress.refused ≡ None → R.is_ready l.progress.format };
}

impl<R: LineFormat> LineReader<R> {
    /// A reader that was fed nothing.
    pub fn new(alloc: Global, format: R) -> LineReader<R>
        requires ready { R.is_ready format }
        requires unread { R.has_read format [] }
        ensures { IsFed R.rules R.has_read result [] }
    {
        LineReader {
            progress: Progress {
                format,
                number: 1,
                line: Vec::new(alloc),
                commented: false,
                refused: None,
            },
        }
    }

    /// Reads the lines that a piece ends. After the first refusal no byte is looked at. Where memory runs out the
    /// reader is given up.
    pub fn feed(self, piece: &[u8]) -> Result<LineReader<R>, NoMemory>
        ensures { IfOk result (λ fed. (text : List ℕ) → IsFed R.rules R.has_read self text
            → length (text ++ piece.now) ≤ input_limit → IsFed R.rules R.has_read fed (text ++ piece.now)) }
    {
        let mut progress = self.progress;
        let mut rest = piece;
        while let Some((line, others)) = progress.next_line(rest) {
            progress.take_line(line)?;
            rest = others;
        }
        progress.take_part(rest)?;
        Ok(LineReader { progress })
    }

    /// Reads the line that is not ended, if there is one, and answers what was read or the first refusal.
    pub fn finish(self) -> Result<R, ReadModel>
        ensures kept { IfOk result (λ format. (text : List ℕ) → IsFed R.rules R.has_read self text
            → KeepsAll R.rules text) }
        ensures read { IfOk result (λ format. (text : List ℕ) → IsFed R.rules R.has_read self text
            → R.has_read format (map (words_in R.rules) (lines_of text))) }
        ensures ready { IfOk result R.is_ready }
        ensures refused { IfErr result (λ why. (text : List ℕ) → IsFed R.rules R.has_read self text
            → IsRefusal R.rules text why) }
    {
        self.progress.finish()
    }
}

// A reader between two bytes: what was read, the number of the line that is not ended, that line so far without its
// comment, whether a comment has begun in it, and the first refusal.
#[derive(Drop)]
struct Progress<R: LineFormat> {
    format: R,
    number: u32,
    line: Vec<u8>,
    commented: bool,
    refused: Option<Refused>,
}

impl<R: LineFormat> Progress<R> {
    // What stands before the next line feed of a piece, and what follows it. After a refusal no byte is looked at.
    fn next_line<'a>(&self, piece: &'a [u8]) -> Option<(&'a [u8], &'a [u8])>
        ensures open { OnSome result (self.now.refused ≡ None) }
        ensures cut { IfSome result (λ parts. piece.now ≡ parts.0.now ++ 10 ∷ parts.1.now) }
        ensures unended { IfSome result (λ parts. list_any is_line_feed parts.0.now ≡ false) }
        ensures last { IfNone result (self.now.refused ≡ None → list_any is_line_feed piece.now ≡ false) }
    {
        if self.refused.is_some() {
            return None;
        }
        match first_line_feed(piece) {
            Some(end) => Some((&piece[..end], &piece[end + 1..])),
            None => None,
        }
    }

    // Takes what comes next, up to a line feed, and reads the line that this ends.
    fn take_line(&mut self, part: &[u8]) -> Result<(), NoMemory>
        requires none { self.old.refused ≡ None }
        requires ready { R.is_ready self.old.format }
        requires unended { list_any is_line_feed part.now ≡ false }
        ensures ready { OnOk result (self.new.refused ≡ None → R.is_ready self.new.format) }
        ensures fed { OnOk result ((text : List ℕ) → length (text ++ part.now) < input_limit
            → IsFed R.rules R.has_read (reading self.old.format self.old.number self.old.line.items self.old.commented
            self.old.refused) text
            → IsFed R.rules R.has_read (reading self.new.format self.new.number self.new.line.items self.new.commented
            self.new.refused) (text ++ part.now ++ 10 ∷ [])) }
    {
        if self.is_within_line() {
            self.take_part(part)?;
            return self.end_line();
        }
        self.refused = read_or_refuse(&mut self.format, self.number, without_return(part))?;
        self.number = self.number.saturating_add(1);
        Ok(())
    }

    // Puts what comes next, where no line feed stands, behind the line that is not ended.
    fn take_part(&mut self, part: &[u8]) -> Result<(), NoMemory>
        requires unended { self.old.refused ≡ None → list_any is_line_feed part.now ≡ false }
        requires ready { self.old.refused ≡ None → R.is_ready self.old.format }
        ensures ready { OnOk result (self.new.refused ≡ None → R.is_ready self.new.format) }
        ensures refused { OnOk result (self.new.refused ≡ self.old.refused) }
        ensures fed { OnOk result ((text : List ℕ)
            → IsFed R.rules R.has_read (reading self.old.format self.old.number self.old.line.items self.old.commented
            self.old.refused) text
            → IsFed R.rules R.has_read (reading self.new.format self.new.number self.new.line.items self.new.commented
            self.new.refused) (text ++ part.now)) }
    {
        if self.refused.is_some() || self.commented {
            return Ok(());
        }
        if becomes_remark::<R>(&self.line, part) {
            self.line.clear();
            self.commented = true;
            return Ok(());
        }
        let plain = before_comment(part);
        self.line.extend_from_slice(plain)?;
        self.commented = plain.len() < part.len();
        Ok(())
    }

    fn finish(mut self) -> Result<R, ReadModel>
        requires { self.refused ≡ None → R.is_ready self.format }
        ensures kept { IfOk result (λ format. (text : List ℕ) → IsFed R.rules R.has_read
            (reading self.format self.number self.line.items self.commented self.refused)
            text → KeepsAll R.rules text) }
        ensures read { IfOk result (λ format. (text : List ℕ) → IsFed R.rules R.has_read
            (reading self.format self.number self.line.items self.commented self.refused)
            text → R.has_read format (map (words_in R.rules) (lines_of text))) }
        ensures ready { IfOk result R.is_ready }
        ensures refused { IfErr result (λ why. (text : List ℕ) → IsFed R.rules R.has_read
            (reading self.format self.number self.line.items self.commented self.refused)
            text → IsRefusal R.rules text why) }
    {
        if let Some(refused) = self.refused {
            return Err(ReadModel::Refused(refused));
        }
        if !self.is_within_line() {
            return Ok(self.format);
        }
        self.read_ended()?;
        match self.refused {
            Some(refused) => Err(ReadModel::Refused(refused)),
            None => Ok(self.format),
        }
    }

    // Whether a byte came after the last line feed.
    fn is_within_line(&self) -> bool
        ensures within { result ≡ true → self.now.commented ≡ false → self.now.line.items ≢ [] }
        ensures line { result ≡ false → self.now.line.items ≡ [] }
        ensures commented { result ≡ false → self.now.commented ≡ false }
    {
        self.commented || !self.line.is_empty()
    }

    // Reads the line that a line feed ends, and begins the next one.
    fn end_line(&mut self) -> Result<(), NoMemory>
        requires none { self.old.refused ≡ None }
        requires ready { R.is_ready self.old.format }
        ensures ready { OnOk result (self.new.refused ≡ None → R.is_ready self.new.format) }
        ensures number { OnOk result (self.new.number ≡ min (self.old.number + 1) 4294967295) }
        ensures line { OnOk result (self.new.line.items ≡ []) }
        ensures commented { OnOk result (self.new.commented ≡ false) }
        ensures read { OnOk result (ReadsEnded R.rules R.has_read self.old.number self.old.line.items self.old.commented
            self.old.format self.new.format self.new.refused) }
    {
        self.read_ended()?;
        self.number = self.number.saturating_add(1);
        self.line.clear();
        self.commented = false;
        Ok(())
    }

    // Reads the line that is not ended, or keeps why it breaks a rule.
    fn read_ended(&mut self) -> Result<(), NoMemory>
        requires none { self.old.refused ≡ None }
        requires ready { R.is_ready self.old.format }
        ensures number { OnOk result (self.new.number ≡ self.old.number) }
        ensures ready { OnOk result (self.new.refused ≡ None → R.is_ready self.new.format) }
        ensures read { OnOk result (ReadsEnded R.rules R.has_read self.old.number self.old.line.items self.old.commented
            self.old.format self.new.format self.new.refused) }
    {
        let line = ended_line(&self.line, self.commented);
        self.refused = read_or_refuse(&mut self.format, self.number, line)?;
        Ok(())
    }
}

// A line by its bytes before a comment: a carriage return at the end of a comment is the comment's.
fn ended_line(line: &[u8], commented: bool) -> &[u8]
    ensures { result.now ≡ (if commented then line.now else strip_carriage_return line.now) }
{
    if commented {
        return line;
    }
    without_return(line)
}

// Reads a line by its bytes, and answers why it breaks a rule, if it does.
fn read_or_refuse<R: LineFormat>(
    format: &mut R,
    number: u32,
    bytes: &[u8],
) -> Result<Option<Refused>, NoMemory>
    requires { R.is_ready format.old }
    ensures ready { IfOk result (λ refused. refused ≡ None → R.is_ready format.new) }
    ensures read { IfOk result (λ refused.
        ReadsLine R.rules R.has_read number format.old format.new bytes.now refused) }
{
    match read_bytes(format, number, bytes) {
        Ok(()) => Ok(None),
        Err(Fault::Broken(why)) => {
            let place = Place::Line(number);
            Ok(Some(Refused { place, why }))
        }
        Err(Fault::NoMemory) => Err(NoMemory),
    }
}

// Reads a line by its bytes: nothing of a comment as a whole.
fn read_bytes<R: LineFormat>(format: &mut R, number: u32, bytes: &[u8]) -> Result<(), Fault>
    requires { R.is_ready format.old }
    ensures ready { OnOk result (R.is_ready format.new) }
    ensures read { ReadsBytes R.rules R.has_read number format.old format.new bytes.now result }
{
    let bytes = content::<R>(bytes);
    match tokens(Line { number, bytes }) {
        Ok(words) => format.read_line(number, words),
        Err(why) => Err(Fault::Broken(why)),
    }
}
