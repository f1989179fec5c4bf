//! Devices, read by the words of their lines.

ghost use Rattle.std.specs.Prelude.{◌≡◌, ◌<◌, true, false, length, [], Some, None, map, take, if◌then◌else◌, nat_eq, nat_le};
ghost use Rattle.std.specs.Prelude.{slice_index_or, IfOk, IfSome, MatchResult};
ghost use Rattle.std.specs.List.{list_all};
ghost use Rattle.std.specs.Result.{result_unwrap_or};
ghost use Rattle.std.specs.String.{string_bytes};
ghost use Rattle.line_lexer.specs.Names.{is_name, is_node};
ghost use Rattle.line_lexer.specs.Numbers.{number_of};
ghost use Rattle.refusals.specs.Faults.{OnBroken};
ghost use Rattle.netlist_devices.specs.Circuits.{IsDevice};
ghost use Rattle.netlist_devices.specs.Devices.{from_name, ends_with_number, has_source, is_directive, words_wanted};
ghost use Rattle.netlist_devices.specs.Rules.{number_rule};
ghost use Rattle.netlist_devices.specs.ReaderStates.{ReadsDevice, ReadsWords, keeps_source_name};

use crate::device::Device;
use crate::kind::DeviceKind;
use line_lexer::{Tokens, name, node, number};
use refusals::{Fault, Why};
use residue_field::Field;
use std::alloc::{AllocError, Global};

// As many words of a line as can matter: a directive needs 7, and has one too many with 8.
const MOST_WORDS: usize = 8;

/// The first words of a line, as many as can matter.
pub(crate) fn first_words<'a>(alloc: Global, words: Tokens<'a>) -> Result<Vec<&'a str>, AllocError>
    ensures { IfOk result (λ kept. map (λ word. word.now) kept.items ≡ take 8 (map (λ word. word.1) words.entry)) }
{
    let mut kept = Vec::new(alloc);
    for word in words.take(MOST_WORDS) {
        kept.push(word.text)?;
    }
    Ok(kept)
}

/// The device that the words of a line give, if there are words.
pub(crate) fn read_words<F: Field>(
    alloc: Global,
    words: &[&str],
) -> Result<Option<Device<F>>, Fault>
    ensures device { IfOk result (λ device. IfSome device (IsDevice F.modulus)) }
    ensures read { ReadsWords F.modulus (map (λ word. word.now) words.now) result }
{
    let Some(first) = words.first() else {
        return Ok(None);
    };
    let Some(kind) = DeviceKind::of(first) else {
        return Err(Fault::Broken(Why::Unsupported));
    };
    let device = read_device(alloc, kind, from_name(kind, words))?;
    Ok(Some(device))
}

// The words of a line from the device's name on: a directive stands before it.
fn from_name<'a, 'b>(kind: DeviceKind, words: &'b [&'a str]) -> &'b [&'a str]
    requires { 0 < length words.now }
    ensures { map (λ word. word.now) result.now ≡ from_name kind (map (λ word. word.now) words.now) }
{
    if kind.is_directive() {
        &words[1..]
    } else {
        words
    }
}

// The device of a kind that some words give, from its name on.
fn read_device<F: Field>(
    alloc: Global,
    kind: DeviceKind,
    words: &[&str],
) -> Result<Device<F>, Fault>
    ensures device { IfOk result (IsDevice F.modulus) }
    ensures read { ReadsDevice F.modulus kind (map (λ word. word.now) words.now) result }
{
    if !has_shape(kind, words.len()) {
        return Err(Fault::Broken(Why::BadShape));
    }
    let after = 1 + kind.nodes_wanted();
    let name = read_name(alloc, word_at(words, 0))?;
    let nodes = read_nodes(alloc, &words[1..after])?;
    let last = word_at(words, after);
    let source = read_source(alloc, kind, last)?;
    let number: F = read_number(kind, last)?;
    number.in_field();
    Ok(Device {
        kind,
        name,
        nodes,
        source,
        number,
    })
}

// The word at a place, or one without bytes.
fn word_at<'a>(words: &[&'a str], place: usize) -> &'a str
    ensures { result.now ≡ slice_index_or (map (λ word. word.now) words.now) place [] }
{
    words.get(place).copied().unwrap_or("")
}

// Whether there are words enough from the name on, and for a directive not too many.
fn has_shape(kind: DeviceKind, count: usize) -> bool
    ensures { result ≡ (if is_directive kind then nat_eq count (words_wanted kind)
        else nat_le (words_wanted kind) count) }
{
    if kind.is_directive() {
        count == kind.words_wanted()
    } else {
        kind.words_wanted() <= count
    }
}

// A name.
fn read_name(alloc: Global, text: &str) -> Result<String, Fault>
    ensures { MatchResult result
        (λ name. (is_name text.now ≡ true) × (string_bytes name ≡ text.now))
        (λ fault. OnBroken fault (λ why. (is_name text.now ≡ false) × (why ≡ Why.BadName))) }
{
    name(text)?;
    let name = String::from_str(alloc, text)?;
    Ok(name)
}

// The name of a device's source, where its kind has one.
fn read_source(alloc: Global, kind: DeviceKind, text: &str) -> Result<String, Fault>
    ensures { let source = (if has_source kind then text.now else []) in MatchResult result
        (λ name. (keeps_source_name kind source ≡ true) × (string_bytes name ≡ source))
        (λ fault. OnBroken fault (λ why. (keeps_source_name kind source ≡ false) × (why ≡ Why.BadName))) }
{
    if kind.has_source() {
        read_name(alloc, text)
    } else {
        Ok(String::new(alloc))
    }
}

// The value of a device's number, where its kind has one.
fn read_number<F: Field>(kind: DeviceKind, text: &str) -> Result<F, Why>
    ensures { MatchResult result
        (λ value. (number_rule F.modulus kind text.now ≡ None)
        × (F.number value ≡ (if ends_with_number kind then result_unwrap_or (number_of F.modulus text.now) 0 else 0)))
        (λ why. number_rule F.modulus kind text.now ≡ Some why) }
{
    if kind.has_number() {
        number(text)
    } else {
        Ok(F::zero())
    }
}

// Some nodes.
fn read_nodes(alloc: Global, texts: &[&str]) -> Result<Vec<String>, Fault>
    ensures { MatchResult result
        (λ nodes. (list_all is_node (map (λ text. text.now) texts.now) ≡ true)
        × (map string_bytes nodes.items ≡ map (λ text. text.now) texts.now))
        (λ fault. OnBroken fault (λ why. (list_all is_node (map (λ text. text.now) texts.now) ≡ false)
        × (why ≡ Why.BadName))) }
{
    let mut nodes = Vec::new(alloc);
    for text in texts {
        node(text)?;
        let node = String::from_str(alloc, text)?;
        nodes.push(node)?;
    }
    Ok(nodes)
}
