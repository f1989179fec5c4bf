//! Heads, read from a text.

ghost use Rattle.std.specs.Prelude.{◌≡◌, ◌≤◌, [], length, map, IfErr, IfOk};
ghost use Rattle.limits.specs.Limits.{input_limit};
ghost use Rattle.line_lexer.specs.Lines.{lines_of};
ghost use Rattle.line_reader.specs.LineRules.{IsRefusal, KeepsAll, words_in};
ghost use Rattle.line_lexer.specs.Tokens.{words_of};
ghost use Rattle.problem_heads.specs.HeadRules.{head_rules};
ghost use Rattle.problem_heads.specs.HeadsRead.{HasHead, IsGivenBy, IsWhyNoHead, view_of_text};

use crate::cuts::cut_head;
use crate::form::Form;
use crate::repair_lines::RepairLines;
use crate::solve_lines::SolveLines;
use line_reader::{LineFormat, LineReader};
use refusals::{Place, ReadModel, Refused, Why};
use residue_field::Field;
use std::alloc::Global;
use std::marker::Model;

/// The head of a problem: where it ends in its text, how many lines it has, and the numbers that they give. Contracts
/// see these and its form.
#[derive(Drop)]
pub struct Head<F: Field> {
    start: usize,
    pub(crate) given: Given<F>,
}

/// The lines of a head, by its form.
#[derive(Drop)]
pub(crate) enum Given<F: Field> {
    Solve(SolveLines<F>),
    Repair(RepairLines),
}

impl<F: Field> Model for Head<F> {
    ghost use Rattle.problem_heads.specs.HeadsRead.{HeadView, view_of_head};

    ghost Value = { HeadView };

    ghost view = { λ h. view_of_head h.start h.given };
}

impl<F: Field> Head<F> {
    /// Where the head ends in its text, and the model begins.
    pub fn start(&self) -> usize
        ensures { result ≡ self.now.start }
    {
        self.start
    }

    /// How many lines the head has.
    pub fn lines(&self) -> u32
        ensures { result ≡ self.now.lines }
    {
        match &self.given {
            Given::Solve(lines) => lines.lines.lines(),
            Given::Repair(lines) => lines.lines.lines(),
        }
    }
}

/// The head of a text of at most 8,388,608 bytes: its lines up to the first one that is the word `model`. In the form
/// `Solve` its other lines are `value EQUATION UNKNOWN NUMBER` and `right EQUATION NUMBER`, in the form `Repair` they
/// are `cost EQUATION COST`, and a line without words is passed.
///
/// A text that breaks a rule is refused with the number of the first line that does, and why. The rules of a line, in
/// the order in which they are tested: its bytes (`BadByte`), its first word (`BadWord`), the number of its words
/// (`BadShape`), its number (`BadNumber`, `Vanish`) or its cost, which has 1 to 9 digits (`BadNumber`), and that no
/// earlier line names the same place or equation (`Twice`). Where all lines keep these and none is `model`, the text as
/// a whole is refused (`BadShape`).
pub fn read_head<F: Field>(alloc: Global, text: &[u8], form: Form) -> Result<Head<F>, ReadModel>
    requires { length text.now ≤ input_limit }
    ensures kept { IfOk result (λ head. HasHead F.modulus form text.now) }
    ensures head { IfOk result (λ head. head ≡ view_of_text F.modulus form text.now) }
    ensures refused { IfErr result (IsWhyNoHead F.modulus form text.now) }
{
    let cut = cut_head(text);
    let given = read_given(alloc, &text[..cut.start], form)?;
    if !cut.has_model {
        return Err(ReadModel::Refused(Refused {
            place: Place::Document,
            why: Why::BadShape,
        }));
    }
    Ok(Head {
        start: cut.start,
        given,
    })
}

// The lines of a head.
fn read_given<F: Field>(alloc: Global, head: &[u8], form: Form) -> Result<Given<F>, ReadModel>
    requires { length head.now ≤ input_limit }
    ensures kept { IfOk result (λ given. KeepsAll (head_rules F.modulus form) head.now) }
    ensures read { IfOk result (λ given. IsGivenBy F.modulus form (map words_of (lines_of head.now)) given) }
    ensures refused { IfErr result (IsRefusal (head_rules F.modulus form) head.now) }
{
    match form {
        Form::Solve => {
            let lines = read_lines(alloc, SolveLines::new(alloc), head)?;
            Ok(Given::Solve(lines))
        }
        Form::Repair => {
            let lines = read_lines(alloc, RepairLines::new(alloc), head)?;
            Ok(Given::Repair(lines))
        }
    }
}

// The lines of a text, read in a format.
fn read_lines<R: LineFormat>(alloc: Global, format: R, text: &[u8]) -> Result<R, ReadModel>
    requires few { length text.now ≤ input_limit }
    requires ready { R.is_ready format }
    requires unread { R.has_read format [] }
    ensures kept { IfOk result (λ lines. KeepsAll R.rules text.now) }
    ensures read { IfOk result (λ lines. R.has_read lines (map (words_in R.rules) (lines_of text.now))) }
    ensures refused { IfErr result (IsRefusal R.rules text.now) }
{
    LineReader::new(alloc, format).feed(text)?.finish()
}
