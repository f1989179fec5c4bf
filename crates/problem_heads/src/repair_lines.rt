//! Heads of the form `Repair`: costs of equations.

ghost use Rattle.std.specs.Prelude.{◌≡◌, [], map};
ghost use Rattle.problem_heads.specs.HeadReading.{ReadsBehind, ReadsHeadLine};
ghost use Rattle.problem_heads.specs.HeadRules.{equation_number_rule, model_word_rule};

use crate::costs::cost;
use crate::form::Form;
use crate::lines::HeadLines;
use crate::words::two;
use line_lexer::Tokens;
use line_reader::LineFormat;
use refusals::{Fault, Why};
use std::alloc::Global;
use std::marker::Model;

/// The lines `cost EQUATION COST` of a head, and the last one, `model`.
#[derive(Drop)]
pub(crate) struct RepairLines {
    pub lines: HeadLines<u64>,
}

impl Model for RepairLines {
    ghost use Rattle.std.specs.Prelude.{ℕ};
    ghost use Rattle.problem_heads.specs.HeadReading.{HeadParts, parts_told_by};

    ghost Value = { HeadParts ℕ };

    ghost view = { λ r. parts_told_by (λ cost. cost) r.lines };
}

impl LineFormat for RepairLines {
    ghost use Rattle.problem_heads.specs.HeadReading.{HasReadLines};
    ghost use Rattle.problem_heads.specs.HeadRules.{head_rules};
    ghost use Rattle.problem_heads.specs.declared.form.Form.TheVariants.{Repair};

    // costs are not in a field
    ghost rules = { head_rules 0 Repair };

    ghost has_read = { HasReadLines 0 Repair };

    ghost is_ready = { λ _. Unit {0} };

    fn remark_sign() -> Option<u8> {
        None
    }

    fn read_line(&mut self, number: u32, words: Tokens<'_>) -> Result<(), Fault> {
        self.read_words(number, words)
    }
}

impl RepairLines {
    /// No line was read.
    pub fn new(alloc: Global) -> RepairLines
        ensures { result ≡ record { lines = 0; numbers = [] } }
    {
        RepairLines {
            lines: HeadLines::new(alloc),
        }
    }

    // Reads the line of this number by its words.
    fn read_words(&mut self, line: u32, mut words: Tokens<'_>) -> Result<(), Fault>
        ensures { ReadsHeadLine 0 Form.Repair line self.old self.new (map (λ word. word.1) words.entry) result }
    {
        let Some(first) = words.next() else {
            self.lines.pass(line);
            return Ok(());
        };
        match first.text {
            "cost" => self.read_cost(line, words),
            "model" => self.read_end(line, words),
            _ => Err(Fault::Broken(Why::BadWord)),
        }
    }

    fn read_cost(&mut self, line: u32, words: Tokens<'_>) -> Result<(), Fault>
        ensures { ReadsBehind 0 Form.Repair line self.old self.new (map (λ word. word.1) words.entry)
            (equation_number_rule 0 Form.Repair self.old.numbers (map (λ word. word.1) words.entry)) result }
    {
        let Some((equation, text)) = two(words) else {
            return Err(Fault::Broken(Why::BadShape));
        };
        let cost = cost(text)?;
        self.lines.add_for_equation(line, equation, cost)
    }

    fn read_end(&mut self, line: u32, mut words: Tokens<'_>) -> Result<(), Fault>
        ensures { ReadsBehind 0 Form.Repair line self.old self.new (map (λ word. word.1) words.entry)
            (model_word_rule (map (λ word. word.1) words.entry)) result }
    {
        if words.next().is_some() {
            return Err(Fault::Broken(Why::BadShape));
        }
        self.lines.pass(line);
        Ok(())
    }
}
