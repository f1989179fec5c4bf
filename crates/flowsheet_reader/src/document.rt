//! The version of a document, and its lists of names.

ghost use Rattle.std.specs.Prelude.{◌≡◌, ◌+◌, ◌∷◌, ◌++◌, [], codes, false, length, map, Some, IfErr, OnOk};
ghost use Rattle.mixed_model.specs.Names.{has_name};
ghost use Rattle.toml.specs.Data.{get_member};
ghost use Rattle.toml.specs.View.{table_view, view};
ghost use Rattle.document_values.specs.Values.{has_only};
ghost use Rattle.document_values.specs.Answers.{AddsName, GivesAnswer, Reads};
ghost use Rattle.document_values.specs.Chains.{keeping};
ghost use Rattle.flowsheet_reader.specs.Models.{component_in, components_in, components_of, document_keys, list_at_key};
ghost use Rattle.flowsheet_reader.specs.Models.{new_stream, stream_in, streams_in, streams_of, version_of};

use document_values::{NameSet, at, find, has_only, list, new_name};
use limits::EQUATION_LIMIT;
use refusals::{Place, ReadModel, Why};
use std::alloc::Global;
use toml::{Table, Value};
use unit_equations::Version;

/// The version that a document tells: 1 where it tells none.
pub(crate) fn version(document: &Table) -> Result<Version, Why>
    ensures { GivesAnswer (λ version. version) result (version_of
        (get_member (codes "version") (table_view document.now))) }
{
    match find(document, "version") {
        Some(value) => version_in(value),
        None => Ok(Version::One),
    }
}

fn version_in(value: &Value) -> Result<Version, Why>
    ensures { GivesAnswer (λ version. version) result (version_of (Some (view value.now))) }
{
    match value.as_integer() {
        Some(1) => Ok(Version::One),
        Some(2) => Ok(Version::Two),
        _ => Err(Why::BadVersion),
    }
}

/// The list at a key of a document: an empty one where there is none.
pub(crate) fn list_at<'t>(document: &'t Table, key: &str) -> Result<&'t [Value], Why>
    ensures { GivesAnswer (λ items. map view items.now) result
        (list_at_key (get_member key.now (table_view document.now))) }
{
    match find(document, key) {
        Some(value) => list(value),
        None => Ok(&[]),
    }
}

/// That a document has no other keys than its own.
pub(crate) fn keys(document: &Table) -> Result<(), Why>
    ensures { GivesAnswer (λ done. done) result
        (keeping (has_only document_keys (table_view document.now)) Why.UnknownKey (tt {0})) }
{
    if has_only(document, &["version", "components", "streams", "unit"], &[]) {
        Ok(())
    } else {
        Err(Why::UnknownKey)
    }
}

/// The components that a document lists.
pub(crate) fn read_components(alloc: Global, document: &Table) -> Result<NameSet, ReadModel>
    ensures { Reads (λ names. names) result (components_of (table_view document.now)) }
{
    let items = at(Place::Document, list_at(document, "components"))?;
    components(alloc, items)
}

/// The streams that a document lists, for whose flows of these components there is room.
pub(crate) fn read_streams(
    alloc: Global,
    document: &Table,
    components: &NameSet,
) -> Result<NameSet, ReadModel>
    ensures { Reads (λ names. names) result (streams_of (table_view document.now) components.now) }
{
    let items = at(Place::Document, list_at(document, "streams"))?;
    streams(alloc, components, items)
}

// The components that some items name.
fn components(alloc: Global, items: &[Value]) -> Result<NameSet, ReadModel>
    ensures { Reads (λ names. names) result (components_in (map view items.now)) }
{
    let mut names = NameSet::new(alloc);
    for (place, item) in items.iter().enumerate() {
        add_component(&mut names, place + 1, item)?;
    }
    Ok(names)
}

// Puts the component of this number last.
fn add_component(names: &mut NameSet, number: usize, value: &Value) -> Result<(), ReadModel>
    requires { number ≡ length names.old + 1 }
    ensures { AddsName names.old names.new result (component_in names.old (view value.now)) }
{
    let name = at(Place::Component(number), new_name(names, value))?;
    push(names, name)
}

// The streams that some items name, for whose flows of these components there is room.
fn streams(alloc: Global, components: &NameSet, items: &[Value]) -> Result<NameSet, ReadModel>
    ensures { Reads (λ names. names) result (streams_in components.now (map view items.now)) }
{
    let mut names = NameSet::new(alloc);
    for (place, item) in items.iter().enumerate() {
        add_stream(components, &mut names, place + 1, item)?;
    }
    Ok(names)
}

// Puts the stream of this number last.
fn add_stream(
    components: &NameSet,
    names: &mut NameSet,
    number: usize,
    value: &Value,
) -> Result<(), ReadModel>
    requires { number ≡ length names.old + 1 }
    ensures { AddsName names.old names.new result (stream_in components.now names.old (view value.now)) }
{
    let name = at(
        Place::Stream(number),
        new_stream(components, names, number, value),
    )?;
    push(names, name)
}

// The stream of this number, which is new, and has room.
fn new_stream<'v>(
    components: &NameSet,
    names: &NameSet,
    number: usize,
    value: &'v Value,
) -> Result<&'v str, Why>
    requires { number ≡ length names.now + 1 }
    ensures { GivesAnswer (λ name. name.now) result (new_stream components.now names.now (view value.now)) }
{
    let name = new_name(names, value)?;
    if components.len() > EQUATION_LIMIT / number {
        return Err(Why::TooMany);
    }
    Ok(name)
}

// Puts a new name last.
fn push(names: &mut NameSet, name: &str) -> Result<(), ReadModel>
    requires { has_name names.old name.now ≡ false }
    ensures pushed { OnOk result (names.new ≡ names.old ++ name.now ∷ []) }
    ensures failed { IfErr result (λ why. why ≡ ReadModel.NoMemory) }
{
    names.push(name)?;
    Ok(())
}
