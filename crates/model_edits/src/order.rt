//! A line as a command.

ghost use Rattle.std.specs.Prelude.{◌≡◌, ◌≢◌, ◌≤◌, ◌<◌, ◌+◌, ◌∷◌, [], None, Some, length, map, decimal, true, MatchOption, MatchResult, codes};
ghost use Rattle.line_lexer.specs.Tokens.{is_clean, words_of};
ghost use Rattle.model_edits.specs.Commands.{line_front_rule, model_named};
ghost use Rattle.model_edits.specs.Orders.{AnswersOrder, IsSaidOrder};

use line_lexer::{Line, Tokens, tokens};
use refusals::Why;

/// An edit of a model.
#[derive(Drop)]
pub enum Edit<'a> {
    /// An equation of this name comes after the others, with what the items say.
    Add(&'a str, Tokens<'a>),
    /// The equation of this name goes.
    Remove(&'a str),
    /// The place of an item in the equation of this name is to hold just what the item says.
    Set(&'a str, &'a str),
    /// The place of an equation and an unknown of these names is to be empty.
    Clear(&'a str, &'a str),
}

/// What is done with a model.
#[derive(Drop)]
pub enum Task<'a> {
    Ask,
    Change(Edit<'a>),
}

/// A command: the number of a model, from 0, and what is done with it.
#[derive(Drop)]
pub struct Order<'a> {
    pub model: usize,
    pub task: Task<'a>,
}

/// The command that a line says to a desk of so many models, or none where the line has no word. Neither the names nor the
/// items in it are tested.
///
/// `add K NAME ITEM ..` adds an equation to model K, `drop K NAME` takes one away, `set K NAME ITEM` leaves just what the item
/// says at its place, `clear K NAME UNKNOWN` leaves nothing there, and `ask K` asks for the model's parts.
///
/// The refusals in order: `BadByte`, `BadWord` where the first word is no command, `BadShape` by the number of words, and
/// `BadNumber` where the second word is not the number of a model, from 1, in digits without a zero in front.
pub fn read_order<'a>(count: usize, line: &'a [u8]) -> Result<Option<Order<'a>>, Why>
    requires { count ≤ 16 }
    ensures { MatchResult result
        (λ order. (line_front_rule count line.now ≡ None) × MatchOption order
        ((is_clean line.now ≡ true) × (words_of line.now ≡ [])) (IsSaidOrder count line.now))
        (λ why. line_front_rule count line.now ≡ Some why) }
{
    let mut words = tokens(Line {
        number: 0,
        bytes: line,
    })?;
    let Some(first) = words.next() else {
        return Ok(None);
    };
    match order_of(count, first.text, words) {
        Ok(order) => Ok(Some(order)),
        Err(why) => Err(why),
    }
}

// The command of this word and of the words behind it.
fn order_of<'a>(count: usize, word: &str, words: Tokens<'a>) -> Result<Order<'a>, Why>
    requires { count ≤ 16 }
    ensures { AnswersOrder count (word.now ∷ map (λ behind. behind.1) words.entry) result }
{
    match word {
        "add" => adding(count, words),
        "drop" => removing(count, words),
        "set" => setting(count, words),
        "clear" => clearing(count, words),
        "ask" => asking(count, words),
        _ => Err(Why::BadWord),
    }
}

fn adding<'a>(count: usize, mut words: Tokens<'a>) -> Result<Order<'a>, Why>
    requires { count ≤ 16 }
    ensures { AnswersOrder count (codes "add" ∷ map (λ behind. behind.1) words.entry) result }
{
    let (Some(number), Some(name)) = (words.next(), words.next()) else {
        return Err(Why::BadShape);
    };
    let model = number_of(count, number.text)?;
    Ok(Order {
        model,
        task: Task::Change(Edit::Add(name.text, words)),
    })
}

fn removing<'a>(count: usize, words: Tokens<'a>) -> Result<Order<'a>, Why>
    requires { count ≤ 16 }
    ensures { AnswersOrder count (codes "drop" ∷ map (λ behind. behind.1) words.entry) result }
{
    let Some((number, name)) = two(words) else {
        return Err(Why::BadShape);
    };
    let model = number_of(count, number)?;
    Ok(Order {
        model,
        task: Task::Change(Edit::Remove(name)),
    })
}

fn setting<'a>(count: usize, words: Tokens<'a>) -> Result<Order<'a>, Why>
    requires { count ≤ 16 }
    ensures { AnswersOrder count (codes "set" ∷ map (λ behind. behind.1) words.entry) result }
{
    let Some((number, name, item)) = three(words) else {
        return Err(Why::BadShape);
    };
    let model = number_of(count, number)?;
    Ok(Order {
        model,
        task: Task::Change(Edit::Set(name, item)),
    })
}

fn clearing<'a>(count: usize, words: Tokens<'a>) -> Result<Order<'a>, Why>
    requires { count ≤ 16 }
    ensures { AnswersOrder count (codes "clear" ∷ map (λ behind. behind.1) words.entry) result }
{
    let Some((number, name, unknown)) = three(words) else {
        return Err(Why::BadShape);
    };
    let model = number_of(count, number)?;
    Ok(Order {
        model,
        task: Task::Change(Edit::Clear(name, unknown)),
    })
}

fn asking<'a>(count: usize, mut words: Tokens<'a>) -> Result<Order<'a>, Why>
    requires { count ≤ 16 }
    ensures { AnswersOrder count (codes "ask" ∷ map (λ behind. behind.1) words.entry) result }
{
    let (Some(number), None) = (words.next(), words.next()) else {
        return Err(Why::BadShape);
    };
    let model = number_of(count, number.text)?;
    Ok(Order {
        model,
        task: Task::Ask,
    })
}

// Two words, where there are just two.
fn two<'a>(mut words: Tokens<'a>) -> Option<(&'a str, &'a str)>
    ensures { MatchOption result (length words.entry ≢ 2)
        (λ both. map (λ word. word.1) words.entry ≡ both.0.now ∷ both.1.now ∷ []) }
{
    let first = words.next()?;
    let second = words.next()?;
    match words.next() {
        None => Some((first.text, second.text)),
        Some(_) => None,
    }
}

// Three words, where there are just three.
fn three<'a>(mut words: Tokens<'a>) -> Option<(&'a str, &'a str, &'a str)>
    ensures { MatchOption result (length words.entry ≢ 3)
        (λ all. map (λ word. word.1) words.entry ≡ all.0.now ∷ all.1.now ∷ all.2.now ∷ []) }
{
    let first = words.next()?;
    let (second, third) = two(words)?;
    Some((first.text, second, third))
}

// Which of so many models a word names.
fn number_of(count: usize, word: &str) -> Result<usize, Why>
    requires { count ≤ 16 }
    ensures { MatchResult result
        (λ model. model_named count word.now ≡ Some model)
        (λ why. (why ≡ Why.BadNumber) × (model_named count word.now ≡ None)) }
{
    for k in 0..count {
        if word == digits_of(k) {
            return Ok(k);
        }
    }
    Err(Why::BadNumber)
}

// The number behind `k` in digits.
fn digits_of(k: usize) -> &'static str
    requires { k < 16 }
    ensures { result.now ≡ decimal (k + 1) }
{
    match k {
        0 => "1",
        1 => "2",
        2 => "3",
        3 => "4",
        4 => "5",
        5 => "6",
        6 => "7",
        7 => "8",
        8 => "9",
        9 => "10",
        10 => "11",
        11 => "12",
        12 => "13",
        13 => "14",
        14 => "15",
        _ => "16",
    }
}
