//! Values of a document, and what they are to be.

ghost use Rattle.std.specs.Prelude.{◌≡◌, ◌++◌, map, option_map, IfOk};
ghost use Rattle.std.specs.List.{list_all, list_any};
ghost use Rattle.std.specs.Map.{keys_of};
ghost use Rattle.std.specs.Str.{bytes_eq};
ghost use Rattle.std.specs.String.{string_bytes};
ghost use Rattle.mixed_model.specs.Names.{has_name};
ghost use Rattle.toml.specs.Data.{get_member};
ghost use Rattle.toml.specs.View.{table_view, view};
ghost use Rattle.document_values.specs.Answers.{AnswersAs, GivesAnswer};
ghost use Rattle.document_values.specs.Values.{declared_name, declared_names, due, has_only, list_of, list_of_length};
ghost use Rattle.document_values.specs.Values.{list_with, new_name, residue_in, numbers_in, members_of_value, text_of};
ghost use Rattle.document_values.specs.Words.{texts};

use crate::names::{Declared, NameSet};
use line_lexer::{integer, number as number_of, short_name};
use refusals::{Fault, Why};
use residue_field::Field;
use std::alloc::Global;
use toml::{Table, Value};

/// The text that a value is.
pub fn text(value: &Value) -> Result<&str, Why>
    ensures { GivesAnswer (λ text. text.now) result (text_of (view value.now)) }
{
    value.as_str().ok_or(Why::BadValue)
}

/// The table that a value is.
pub fn table(value: &Value) -> Result<&Table, Why>
    ensures { GivesAnswer (λ table. table_view table.now) result (members_of_value (view value.now)) }
{
    value.as_table().ok_or(Why::BadValue)
}

/// The list that a value is.
pub fn list(value: &Value) -> Result<&[Value], Why>
    ensures { GivesAnswer (λ items. map view items.now) result (list_of (view value.now)) }
{
    match value.as_array() {
        Some(items) => Ok(items),
        None => Err(Why::BadValue),
    }
}

/// A list of at least so many items.
pub fn list_with(value: &Value, least: usize) -> Result<&[Value], Why>
    ensures { GivesAnswer (λ items. map view items.now) result (list_with least (view value.now)) }
{
    let items = list(value)?;
    if items.len() < least {
        return Err(Why::BadValue);
    }
    Ok(items)
}

/// A list of so many items.
pub fn list_of_length(value: &Value, count: usize) -> Result<&[Value], Why>
    ensures { GivesAnswer (λ items. map view items.now) result (list_of_length count (view value.now)) }
{
    let items = list(value)?;
    if items.len() != count {
        return Err(Why::BadValue);
    }
    Ok(items)
}

/// The value at a key of a table, where one is.
pub fn find<'t>(table: &'t Table, key: &str) -> Option<&'t Value>
    ensures { option_map (λ value. view value.now) result ≡ get_member key.now (table_view table.now) }
{
    table.get(key)
}

/// The value at a key that is due.
pub fn due<'t>(table: &'t Table, key: &str) -> Result<&'t Value, Why>
    ensures { GivesAnswer (λ value. view value.now) result (due key.now (table_view table.now)) }
{
    table.get(key).ok_or(Why::Missing)
}

/// The number that a value is.
pub fn number<F: Field>(value: &Value) -> Result<F, Why>
    ensures { GivesAnswer F.number result (residue_in F.modulus (view value.now)) }
{
    if let Some(text) = value.as_str() {
        return number_of(text);
    }
    match value.as_integer() {
        Some(whole) => integer(whole),
        None => Err(Why::BadValue),
    }
}

/// The numbers that some values are.
pub fn numbers<F: Field>(alloc: Global, items: &[Value]) -> Result<Vec<F>, Fault>
    ensures { AnswersAs (λ numbers. map F.number numbers.items) result (numbers_in F.modulus (map view items.now)) }
{
    let mut numbers = Vec::new(alloc);
    for item in items {
        numbers.push(number(item)?)?;
    }
    Ok(numbers)
}

/// A new name, beside these.
pub fn new_name<'v>(names: &NameSet, value: &'v Value) -> Result<&'v str, Why>
    ensures { GivesAnswer (λ name. name.now) result (new_name names.now (view value.now)) }
{
    let name = text(value)?;
    short_name(name)?;
    if names.has(name) {
        return Err(Why::Twice);
    }
    Ok(name)
}

/// A declared name that is none of those before.
pub fn declared_name<'v, D: Declared>(
    declared: &D,
    before: &NameSet,
    value: &'v Value,
) -> Result<&'v str, Why>
    ensures { GivesAnswer (λ name. name.now) result (declared_name (D.names declared.now) before.now (view value.now)) }
{
    let name = text(value)?;
    if !declared.declares(name) {
        return Err(Why::Undeclared);
    }
    if before.has(name) {
        return Err(Why::Twice);
    }
    Ok(name)
}

/// Declared names, none of them twice or among those before. They are put last there.
pub fn declared_names<D: Declared>(
    alloc: Global,
    declared: &D,
    before: &mut NameSet,
    items: &[Value],
) -> Result<Vec<String>, Fault>
    ensures names { AnswersAs (λ names. map string_bytes names.items) result
        (declared_names (D.names declared.now) before.old (map view items.now)) }
    ensures before { IfOk result (λ names. before.new ≡ before.old ++ map string_bytes names.items) }
{
    let mut names = Vec::new(alloc);
    for item in items {
        let name = declared_name(declared, before, item)?;
        before.push(name)?;
        names.push(String::from_str(alloc, name)?)?;
    }
    Ok(names)
}

/// Whether each key of a table is one of these words or of the others.
pub fn has_only(table: &Table, words: &[&str], others: &[&str]) -> bool
    ensures { result ≡ has_only (texts words.now ++ texts others.now) (table_view table.now) }
{
    keys_are_among(table, words, others)
}

// Whether each key of a table is among these words and the others.
fn keys_are_among(table: &Table, words: &[&str], others: &[&str]) -> bool
    ensures { result ≡ list_all (λ key. has_name (texts words.now ++ texts others.now) (string_bytes key))
        (keys_of table.now.entries) }
{
    table.keys().all(|key| is_among(key, words, others))
}

// Whether a word is among these and the others.
fn is_among(word: &str, words: &[&str], others: &[&str]) -> bool
    ensures { result ≡ has_name (texts words.now ++ texts others.now) word.now }
{
    is_one(word, words) || is_one(word, others)
}

// Whether a word is one of these.
fn is_one(word: &str, words: &[&str]) -> bool
    ensures { result ≡ list_any (λ other. bytes_eq word.now other.now) words.now }
{
    words.iter().any(|other| word == *other)
}
