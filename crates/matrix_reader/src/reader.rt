//! The reader of equation lists: the model so far, line by line.

ghost use Rattle.std.specs.Prelude.{◌≡◌, ◌<◌, ℕ, [], length, map, vec_len, position, IsTrue, IfOk, IfErr, OnOk};
ghost use Rattle.std.specs.Str.{bytes_eq};
ghost use Rattle.mixed_model.specs.Names.{is_label};
ghost use Rattle.mixed_model.specs.Models.{IsModel, empty_model};
ghost use Rattle.refusals.specs.Faults.{OnBroken};
ghost use Rattle.matrix_reader.specs.ReaderStates.{MarkedFrom, UnmarkedFrom, SeenFrom, UnseenFrom, ReadsItem, ReadsItems};
ghost use Rattle.matrix_reader.specs.ReaderStates.{AddsEquation, ReadsEquation, SeesUnknown, SeesUnknowns, ReadsUnknowns};
ghost use Rattle.matrix_reader.specs.ReaderStates.{ReadsLine};

use crate::items;
use crate::place::put_value;
use line_lexer::{Tokens, name};
use line_reader::LineFormat;
use mixed_model::{Mixed, NoMemory};
use refusals::{Fault, Why};
use residue_field::Field;
use std::alloc::Global;

/// The model that the lines so far give, and for each unknown the number of a line: the last equation line in which it
/// stood, or the line that named it first.
#[derive(Drop)]
pub(crate) struct Reader<F: Field> {
    pub model: Mixed<F>,
    pub last_lines: Vec<u32>,
}

impl<F: Field> LineFormat for Reader<F> {
    ghost use Rattle.std.specs.Prelude.{◌≡◌, length, vec_len};
    ghost use Rattle.matrix_reader.specs.Rules.{list_rules};
    ghost use Rattle.matrix_reader.specs.Feeding.{HasRead};

    ghost rules = { list_rules F.modulus };

    ghost has_read = { HasRead F.modulus };

    ghost is_ready = { λ reader. vec_len reader.last_lines ≡ length reader.model.unknowns };

    fn remark_sign() -> Option<u8> {
        None
    }

    fn read_line(&mut self, number: u32, words: Tokens<'_>) -> Result<(), Fault> {
        self.read_words(number, words)
    }
}

impl<F: Field> Reader<F> {
    pub(crate) fn new(alloc: Global) -> Result<Reader<F>, NoMemory>
        ensures lengths { IfOk result (λ r. vec_len r.last_lines ≡ length r.model.unknowns) }
        ensures model { IfOk result (λ r. (r.model ≡ empty_model) × IsModel F.modulus r.model) }
        ensures lines { IfOk result (λ r. r.last_lines.items ≡ []) }
    {
        Ok(Reader {
            model: Mixed::new(alloc)?,
            last_lines: Vec::new(alloc),
        })
    }

    // Reads the line of this number by its words.
    fn read_words(&mut self, line: u32, mut words: Tokens<'_>) -> Result<(), Fault>
        requires { vec_len self.old.last_lines ≡ length self.old.model.unknowns }
        ensures lengths { OnOk result (vec_len self.new.last_lines ≡ length self.new.model.unknowns) }
        ensures read { ReadsLine F.modulus line
            self.old.model self.new.model self.old.last_lines.items self.new.last_lines.items
            (map (λ word. word.1) words.entry) result }
    {
        let Some(word) = words.next() else {
            return Ok(());
        };
        if word.text == "eq" {
            self.read_equation(line, words)
        } else if word.text == "unknown" {
            self.read_unknowns(line, words)
        } else {
            Err(Fault::Broken(Why::BadWord))
        }
    }

    // Reads the words of an equation line after its first one.
    fn read_equation(&mut self, line: u32, mut words: Tokens<'_>) -> Result<(), Fault>
        requires { vec_len self.old.last_lines ≡ length self.old.model.unknowns }
        ensures lengths { OnOk result (vec_len self.new.last_lines ≡ length self.new.model.unknowns) }
        ensures read { ReadsEquation F.modulus line
            self.old.model self.new.model self.old.last_lines.items self.new.last_lines.items
            (map (λ word. word.1) words.entry) result }
    {
        let Some(equation) = words.next() else {
            return Err(Fault::Broken(Why::BadShape));
        };
        let i = self.add_equation(equation.text)?;
        self.read_items(line, i, words)
    }

    #[tactic(auto, using(term_model::proofs::Labels::name_is_label))]
    fn add_equation(&mut self, equation: &str) -> Result<usize, Fault>
        requires { vec_len self.old.last_lines ≡ length self.old.model.unknowns }
        ensures within { IfOk result (λ i. i < length self.new.model.equations) }
        ensures lengths { OnOk result (vec_len self.new.last_lines ≡ length self.new.model.unknowns) }
        ensures lines { OnOk result (self.new.last_lines.items ≡ self.old.last_lines.items) }
        ensures added { (line : ℕ) → AddsEquation F.modulus line
            self.old.model self.new.model self.old.last_lines.items equation.now result }
    {
        name(equation)?;
        let i = self.model.add_equation(equation)?;
        Ok(i)
    }

    // Puts what some items say into equation `i`, in the line of this number.
    fn read_items(&mut self, line: u32, i: usize, items: Tokens<'_>) -> Result<(), Fault>
        requires lengths { vec_len self.old.last_lines ≡ length self.old.model.unknowns }
        requires equation { i < length self.old.model.equations }
        ensures lengths { OnOk result (vec_len self.new.last_lines ≡ length self.new.model.unknowns) }
        ensures read { ReadsItems F.modulus line i
            self.old.model self.new.model self.old.last_lines.items self.new.last_lines.items
            (map (λ item. item.1) items.entry) result }
    {
        for item in items {
            self.read_item(line, i, item.text)?;
        }
        Ok(())
    }

    // Puts what an item says into equation `i`, in the line of this number.
    #[tactic(auto, using(term_model::proofs::Labels::name_is_label))]
    fn read_item(&mut self, line: u32, i: usize, token: &str) -> Result<(), Fault>
        requires lengths { vec_len self.old.last_lines ≡ length self.old.model.unknowns }
        requires equation { i < length self.old.model.equations }
        ensures lengths { OnOk result (vec_len self.new.last_lines ≡ length self.new.model.unknowns) }
        ensures equations { OnOk result (self.new.model.equations ≡ self.old.model.equations) }
        ensures read { ReadsItem F.modulus line i
            self.old.model self.new.model self.old.last_lines.items self.new.last_lines.items token.now result }
    {
        let item = match items::item(token) {
            Ok(item) => item,
            Err(why) => return Err(Fault::Broken(why)),
        };
        let j = self.mark(line, item.unknown)?;
        put_value(&mut self.model, i, j, item.constant, item.symbol)?;
        Ok(())
    }

    // The column of an unknown, which now stands in this equation line. It may not have stood there before.
    fn mark(&mut self, line: u32, unknown: &str) -> Result<usize, Fault>
        requires lengths { vec_len self.old.last_lines ≡ length self.old.model.unknowns }
        requires label { IsTrue (is_label unknown.now) }
        ensures within { IfOk result (λ j. j < length self.new.model.unknowns) }
        ensures lengths { OnOk result (vec_len self.new.last_lines ≡ length self.new.model.unknowns) }
        ensures equations { OnOk result (self.new.model.equations ≡ self.old.model.equations) }
        ensures marked { IfOk result (λ j.
            MarkedFrom F.modulus (position (bytes_eq unknown.now) self.old.model.unknowns) line
            self.old.model self.new.model self.old.last_lines.items self.new.last_lines.items unknown.now j) }
        ensures unmarked { IfErr result (λ fault. OnBroken fault
            (UnmarkedFrom (position (bytes_eq unknown.now) self.old.model.unknowns) line self.old.model
            self.old.last_lines.items)) }
    {
        let known = self.last_lines.len();
        let j = self.model.find_or_add_unknown(unknown)?;
        if j == known {
            self.last_lines.push(line)?;
            return Ok(j);
        }
        if self.last_lines[j] == line {
            return Err(Fault::Broken(Why::Twice));
        }
        self.last_lines[j] = line;
        Ok(j)
    }

    // Reads the words of an `unknown` line after its first one.
    fn read_unknowns(&mut self, line: u32, mut words: Tokens<'_>) -> Result<(), Fault>
        requires { vec_len self.old.last_lines ≡ length self.old.model.unknowns }
        ensures lengths { OnOk result (vec_len self.new.last_lines ≡ length self.new.model.unknowns) }
        ensures read { ReadsUnknowns F.modulus line
            self.old.model self.new.model self.old.last_lines.items self.new.last_lines.items
            (map (λ word. word.1) words.entry) result }
    {
        let Some(first) = words.next() else {
            return Err(Fault::Broken(Why::BadShape));
        };
        self.see_unknown(line, first.text)?;
        self.see_unknowns(line, words)
    }

    fn see_unknowns(&mut self, line: u32, unknowns: Tokens<'_>) -> Result<(), Fault>
        requires { vec_len self.old.last_lines ≡ length self.old.model.unknowns }
        ensures lengths { OnOk result (vec_len self.new.last_lines ≡ length self.new.model.unknowns) }
        ensures seen { SeesUnknowns F.modulus line
            self.old.model self.new.model self.old.last_lines.items self.new.last_lines.items
            (map (λ unknown. unknown.1) unknowns.entry) result }
    {
        for unknown in unknowns {
            self.see_unknown(line, unknown.text)?;
        }
        Ok(())
    }

    #[tactic(auto, using(term_model::proofs::Labels::name_is_label))]
    fn see_unknown(&mut self, line: u32, unknown: &str) -> Result<(), Fault>
        requires { vec_len self.old.last_lines ≡ length self.old.model.unknowns }
        ensures lengths { OnOk result (vec_len self.new.last_lines ≡ length self.new.model.unknowns) }
        ensures seen { SeesUnknown F.modulus line
            self.old.model self.new.model self.old.last_lines.items self.new.last_lines.items unknown.now result }
    {
        name(unknown)?;
        self.see(line, unknown)
    }

    // Adds an unknown, unless it is there.
    fn see(&mut self, line: u32, unknown: &str) -> Result<(), Fault>
        requires lengths { vec_len self.old.last_lines ≡ length self.old.model.unknowns }
        requires label { IsTrue (is_label unknown.now) }
        ensures lengths { OnOk result (vec_len self.new.last_lines ≡ length self.new.model.unknowns) }
        ensures seen { OnOk result (SeenFrom F.modulus (position (bytes_eq unknown.now) self.old.model.unknowns) line
            self.old.model self.new.model self.old.last_lines.items self.new.last_lines.items unknown.now) }
        ensures unseen { IfErr result (λ fault. OnBroken fault
            (UnseenFrom (position (bytes_eq unknown.now) self.old.model.unknowns) self.old.model)) }
    {
        let j = self.model.find_or_add_unknown(unknown)?;
        if j == self.last_lines.len() {
            self.last_lines.push(line)?;
        }
        Ok(())
    }
}
