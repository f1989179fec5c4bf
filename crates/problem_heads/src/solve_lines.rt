//! Heads of the form `Solve`: values for symbols, and right sides.

ghost use Rattle.std.specs.Prelude.{◌≡◌, [], map};
ghost use Rattle.problem_heads.specs.HeadReading.{ReadsBehind, ReadsHeadLine};
ghost use Rattle.problem_heads.specs.HeadRules.{equation_number_rule, model_word_rule, place_number_rule};

use crate::form::Form;
use crate::lines::HeadLines;
use crate::words::{three, two};
use line_lexer::{Tokens, number};
use line_reader::LineFormat;
use refusals::{Fault, Why};
use residue_field::Field;
use std::alloc::Global;
use std::marker::Model;

/// The lines `value EQUATION UNKNOWN NUMBER` and `right EQUATION NUMBER` of a head, and the last one, `model`.
/// Contracts see the numbers of the values.
#[derive(Drop)]
pub(crate) struct SolveLines<F: Field> {
    pub lines: HeadLines<F>,
}

impl<F: Field> Model for SolveLines<F> {
    ghost use Rattle.std.specs.Prelude.{ℕ};
    ghost use Rattle.problem_heads.specs.HeadReading.{HeadParts, parts_told_by};

    ghost Value = { HeadParts ℕ };

    ghost view = { λ s. parts_told_by F.number s.lines };
}

impl<F: Field> LineFormat for SolveLines<F> {
    ghost use Rattle.problem_heads.specs.HeadReading.{HasReadLines};
    ghost use Rattle.problem_heads.specs.HeadRules.{head_rules};
    ghost use Rattle.problem_heads.specs.declared.form.Form.TheVariants.{Solve};

    ghost rules = { head_rules F.modulus Solve };

    ghost has_read = { HasReadLines F.modulus Solve };

    ghost is_ready = { λ _. Unit {0} };

    fn remark_sign() -> Option<u8> {
        None
    }

    fn read_line(&mut self, number: u32, words: Tokens<'_>) -> Result<(), Fault> {
        self.read_words(number, words)
    }
}

impl<F: Field> SolveLines<F> {
    /// No line was read.
    pub fn new(alloc: Global) -> SolveLines<F>
        ensures { result ≡ record { lines = 0; numbers = [] } }
    {
        SolveLines {
            lines: HeadLines::new(alloc),
        }
    }

    // Reads the line of this number by its words.
    fn read_words(&mut self, line: u32, mut words: Tokens<'_>) -> Result<(), Fault>
        ensures { ReadsHeadLine F.modulus Form.Solve line self.old self.new (map (λ word. word.1) words.entry) result }
    {
        let Some(first) = words.next() else {
            self.lines.pass(line);
            return Ok(());
        };
        match first.text {
            "value" => self.read_value(line, words),
            "right" => self.read_right(line, words),
            "model" => self.read_end(line, words),
            _ => Err(Fault::Broken(Why::BadWord)),
        }
    }

    fn read_value(&mut self, line: u32, words: Tokens<'_>) -> Result<(), Fault>
        ensures { ReadsBehind F.modulus Form.Solve line self.old self.new (map (λ word. word.1) words.entry)
            (place_number_rule F.modulus Form.Solve self.old.numbers (map (λ word. word.1) words.entry)) result }
    {
        let Some((equation, unknown, text)) = three(words) else {
            return Err(Fault::Broken(Why::BadShape));
        };
        let value = number::<F>(text)?;
        self.lines.add_for_place(line, equation, unknown, value)
    }

    fn read_right(&mut self, line: u32, words: Tokens<'_>) -> Result<(), Fault>
        ensures { ReadsBehind F.modulus Form.Solve line self.old self.new (map (λ word. word.1) words.entry)
            (equation_number_rule F.modulus Form.Solve self.old.numbers (map (λ word. word.1) words.entry)) result }
    {
        let Some((equation, text)) = two(words) else {
            return Err(Fault::Broken(Why::BadShape));
        };
        let value = number::<F>(text)?;
        self.lines.add_for_equation(line, equation, value)
    }

    fn read_end(&mut self, line: u32, mut words: Tokens<'_>) -> Result<(), Fault>
        ensures { ReadsBehind F.modulus Form.Solve line self.old self.new (map (λ word. word.1) words.entry)
            (model_word_rule (map (λ word. word.1) words.entry)) result }
    {
        if words.next().is_some() {
            return Err(Fault::Broken(Why::BadShape));
        }
        self.lines.pass(line);
        Ok(())
    }
}
