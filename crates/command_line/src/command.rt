//! What the words of the command line ask for.

ghost use Rattle.std.specs.Prelude.{◌≡◌, ◌≢◌, ℕ, Option, map, MatchOption, MatchResult, OnOk, Some, None};
ghost use Rattle.std.specs.String.{string_bytes};
ghost use Rattle.cert_text.specs.Texts.{kind_text};
ghost use Rattle.clap.specs.Words.{kind_of as error_kind, subcommand_rows_of};
ghost use Rattle.command_line.specs.Words.{AreNamesOf, AreSizeWords, Asks, IsWhy, Names, NamesNone, field_of, field_text, over, study_text, task_text, text_at};

use crate::command_line::command_line;
use cert_text::Kind;
use clap::error::ErrorKind;
use clap::{ArgMatches, Error};
use made_models::SIZE_LIMIT;
use residue_field::FieldName;
use std::alloc::{AllocError, Global};

/// What to write of a model.
#[derive(Clone, Copy, Debug, PartialEq, Eq)]
pub enum Task {
    /// A certificate.
    Analyse,
    /// The layered matrix.
    Layer,
    /// Its rank, its surplus equations and its undetermined unknowns.
    Report,
    /// In which steps it can be solved.
    Plan,
}

/// What to tell of a model besides its form, over the smaller field.
#[derive(Clone, Copy, Debug, PartialEq, Eq)]
pub enum Study {
    /// Its rank, and values for its symbols that reach it.
    Values,
    /// How it is solved with values for its symbols and right sides, which stand before it.
    Solve,
    /// A cheapest repair, by costs of its equations, which stand before it.
    Repair,
    /// Its surplus equations, each with those with which it clashes.
    Conflict,
}

/// What to do with an input.
#[derive(Clone, Copy, Debug, PartialEq, Eq)]
pub enum Command {
    /// To write something of the model that an input of this kind gives over the field that is named.
    OfModel(Task, Kind, Option<FieldName>),
    /// To study the model of an input of this kind.
    OfStudy(Study, Kind),
    /// To tell whether a certificate is right for the input that it repeats.
    Check,
    /// To edit models by commands, a line each, and to reply to each line.
    Edit,
}

/// What the words ask for.
#[derive(Clone, Copy, Debug, PartialEq, Eq)]
pub enum Request {
    /// A command on an input.
    OfInput(Command),
    /// To tell of the made model of this size over the field that is named.
    Make(usize, Option<FieldName>),
}

/// What an input is to be.
#[derive(Clone, Copy, Debug, PartialEq, Eq)]
pub enum Format {
    /// A text of this kind, of at most 8,388,608 bytes, that gives a model.
    Model(Kind),
    /// What this study is of, a text of at most 8,388,608 bytes: it gives a model of this kind, and for `Solve` values and
    /// right sides stand before it, for `Repair` costs.
    Studied(Study, Kind),
    /// The text of a certificate, of at most 2,147,483,648 bytes.
    Certificate,
    /// Any text of at most 8,388,608 bytes: each of its lines is replied to.
    Lines,
}

/// Why the words ask for nothing.
#[derive(Debug, Drop)]
pub enum WordsError {
    /// clap has no matches for them, and tells this.
    Told(String),
    /// clap has matches for them, and the word at KIND is that of no kind, or the word at FIELD that of no field.
    UnknownWord,
    /// Memory ran out.
    NoMemory,
}

impl Request {
    /// What the words ask for, of which the first is the program's own name, or why they ask for nothing.
    pub fn of(alloc: Global, words: &[String]) -> Result<Request, WordsError>
        ensures { MatchResult result (Asks (map string_bytes words.now)) (IsWhy (map string_bytes words.now)) }
    {
        let line = command_line(alloc)?;
        match line.try_get_matches_from(words) {
            Ok(matches) => match Request::matched(&matches) {
                Some(request) => Ok(request),
                None => Err(WordsError::UnknownWord),
            },
            Err(error) => Err(WordsError::Told(told(alloc, error)?)),
        }
    }

    // What is asked for by the matches of words that clap has read.
    fn matched(matches: &ArgMatches<'_>) -> Option<Request>
        ensures { MatchOption result (NamesNone (subcommand_rows_of matches.now))
            (Names (subcommand_rows_of matches.now)) }
    {
        let (name, values) = matches.subcommand()?;
        let field = values.get_str("FIELD");
        match name {
            "make" => Request::make(values.get_str("N"), field),
            _ => Request::on_input(name, values.get_str("KIND"), field),
        }
    }

    // To tell of the made model of the size that a word writes, over the field that another names.
    fn make(size: Option<&str>, field: Option<&str>) -> Option<Request>
        ensures { MatchOption result
            ((n : ℕ) (named : Option FieldName) → AreSizeWords (text_at size.entry) (text_at field.entry) n named → ⊥)
            (λ request. (n : ℕ) × (named : Option FieldName) × (request ≡ Request.Make n named)
            × AreSizeWords (text_at size.entry) (text_at field.entry) n named) }
    {
        let number = size?.parse::<usize>().ok()?;
        if number < 1 || SIZE_LIMIT < number {
            return None;
        }
        match field {
            Some(field) => Some(Request::Make(number, Some(field_named(field)?))),
            None => Some(Request::Make(number, None)),
        }
    }

    // The command of this name, on the kind of this name where it has one, over the field of this name.
    fn on_input(name: &str, kind: Option<&str>, field: Option<&str>) -> Option<Request>
        ensures { MatchOption result
            ((command : Command) → AreNamesOf name.now (text_at kind.entry) (text_at field.entry) command → ⊥)
            (λ request. (command : Command) × (request ≡ Request.OfInput command)
            × AreNamesOf name.now (text_at kind.entry) (text_at field.entry) command) }
    {
        let command = match kind {
            Some(kind) => Command::of_kind(name, kind, field)?,
            None => Command::alone(name, field)?,
        };
        Some(Request::OfInput(command))
    }
}

impl Command {
    /// The field that the command is over. A certificate tells its own, and models are edited over the smaller one.
    pub fn field(self) -> FieldName
        ensures { result ≡ over (field_of self) }
    {
        match self {
            Command::OfModel(_, _, named) => over(named),
            Command::OfStudy(_, _) | Command::Check | Command::Edit => FieldName::Small,
        }
    }

    // The command of this name, on the kind of this name, over the field of this name.
    fn of_kind(name: &str, kind: &str, field: Option<&str>) -> Option<Command>
        ensures { MatchOption result
            ((command : Command) → AreNamesOf name.now (Some kind.now) (text_at field.entry) command → ⊥)
            (AreNamesOf name.now (Some kind.now) (text_at field.entry)) }
    {
        let kind = kind_named(kind)?;
        match field {
            Some(field) => Some(Command::OfModel(
                task_named(name)?,
                kind,
                Some(field_named(field)?),
            )),
            None => Command::without_field(name, kind),
        }
    }

    // The command of this name, on this kind, where no field is named.
    fn without_field(name: &str, kind: Kind) -> Option<Command>
        ensures { MatchOption result
            ((command : Command) → AreNamesOf name.now (Some (kind_text kind)) None command → ⊥)
            (AreNamesOf name.now (Some (kind_text kind)) None) }
    {
        match study_named(name) {
            Some(study) => Some(Command::OfStudy(study, kind)),
            None => Some(Command::OfModel(task_named(name)?, kind, None)),
        }
    }

    // The command of this name that has no kind, and no field.
    fn alone(name: &str, field: Option<&str>) -> Option<Command>
        ensures { MatchOption result
            ((command : Command) → AreNamesOf name.now None (text_at field.entry) command → ⊥)
            (AreNamesOf name.now None (text_at field.entry)) }
    {
        match (name, field) {
            ("check", None) => Some(Command::Check),
            ("edit", None) => Some(Command::Edit),
            _ => None,
        }
    }
}

/// The field that is meant: the smaller one where none is named.
pub fn over(named: Option<FieldName>) -> FieldName
    ensures { result ≡ over named }
{
    match named {
        Some(field) => field,
        None => FieldName::Small,
    }
}

// The task of this name.
fn task_named(word: &str) -> Option<Task>
    ensures { MatchOption result ((task : Task) → word.now ≢ task_text task) (λ task. word.now ≡ task_text task) }
{
    match word {
        "analyse" => Some(Task::Analyse),
        "layer" => Some(Task::Layer),
        "report" => Some(Task::Report),
        "plan" => Some(Task::Plan),
        _ => None,
    }
}

// The study of this name.
fn study_named(word: &str) -> Option<Study>
    ensures { MatchOption result ((any : Study) → word.now ≢ study_text any) (λ study. word.now ≡ study_text study) }
{
    match word {
        "values" => Some(Study::Values),
        "solve" => Some(Study::Solve),
        "repair" => Some(Study::Repair),
        "conflict" => Some(Study::Conflict),
        _ => None,
    }
}

// The kind of this name.
fn kind_named(word: &str) -> Option<Kind>
    ensures { MatchOption result ((kind : Kind) → word.now ≢ kind_text kind) (λ kind. word.now ≡ kind_text kind) }
{
    match word {
        "matrix" => Some(Kind::Matrix),
        "netlist" => Some(Kind::Netlist),
        "flowsheet" => Some(Kind::Flowsheet),
        _ => None,
    }
}

// The field of this name.
fn field_named(word: &str) -> Option<FieldName>
    ensures { MatchOption result ((field : FieldName) → word.now ≢ field_text field)
        (λ field. word.now ≡ field_text field) }
{
    match word {
        "65521" => Some(FieldName::Small),
        "2147483647" => Some(FieldName::Large),
        _ => None,
    }
}

// The text of an error, which has none where it is want of memory.
fn told(alloc: Global, error: Error) -> Result<String, AllocError>
    ensures { OnOk result (error_kind error ≢ ErrorKind.OutOfMemory) }
{
    if error.kind() == ErrorKind::OutOfMemory {
        return Err(AllocError);
    }
    format!(in alloc; "{error}")
}

impl From<AllocError> for WordsError {
    ghost use Rattle.std.specs.Prelude.{◌≡◌};
    ghost use Rattle.command_line.specs.declared.command.WordsError.TheVariants.{NoMemory};

    ghost from_gives = { λ _ why. why ≡ NoMemory };

    fn from(_error: AllocError) -> WordsError {
        WordsError::NoMemory
    }
}
