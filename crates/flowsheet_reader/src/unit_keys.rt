//! The streams and the numbers at the keys of a unit.

ghost use Rattle.std.specs.Prelude.{◌≡◌, ◌++◌, [], map, IfOk};
ghost use Rattle.std.specs.String.{string_bytes};
ghost use Rattle.toml.specs.Data.{get_member};
ghost use Rattle.toml.specs.View.{table_view};
ghost use Rattle.document_values.specs.Answers.{AnswersAs, GivesAnswer};
ghost use Rattle.flowsheet_reader.specs.Keeping.{scope_of_kept};
ghost use Rattle.flowsheet_reader.specs.Units.{are_coefficients, coefficient_of, fractions_in, outlets_in, stream_at, streams_at};
ghost use Rattle.document_values.specs.Values.{members_in};

use crate::sheet::Sheet;
use document_values::{
    NameSet, declared_name, declared_names, due, list_of_length, list_with, number, numbers,
};
use out_of_memory::NoMemory;
use refusals::{Fault, Why};
use residue_field::Field;
use std::alloc::Global;
use toml::Table;
use unit_equations::Version;

/// The stream at a key, none of those named before in the unit.
pub(crate) fn stream_at<'t, F: Field>(
    sheet: &Sheet<F>,
    before: &NameSet,
    key: &str,
    table: &'t Table,
) -> Result<&'t str, Why>
    ensures { GivesAnswer (λ name. name.now) result
        (stream_at (scope_of_kept sheet.now) before.now key.now (table_view table.now)) }
{
    declared_name(&sheet.streams, before, due(table, key)?)
}

/// At least so many streams at a key, none of them named before. They are put last there.
pub(crate) fn streams_at<F: Field>(
    alloc: Global,
    sheet: &Sheet<F>,
    least: usize,
    before: &mut NameSet,
    key: &str,
    table: &Table,
) -> Result<Vec<String>, Fault>
    ensures streams { AnswersAs (λ names. map string_bytes names.items) result
        (streams_at (scope_of_kept sheet.now) least before.old key.now (table_view table.now)) }
    ensures before { IfOk result (λ names. before.new ≡ before.old ++ map string_bytes names.items) }
{
    let items = list_with(due(table, key)?, least)?;
    declared_names(alloc, &sheet.streams, before, items)
}

/// The outlets of a unit with this inlet: at these two keys in version 1.
pub(crate) fn outlets<F: Field>(
    alloc: Global,
    sheet: &Sheet<F>,
    inlet: &str,
    first: &str,
    second: &str,
    table: &Table,
) -> Result<Vec<String>, Fault>
    ensures { AnswersAs (λ names. map string_bytes names.items) result
        (outlets_in (scope_of_kept sheet.now) sheet.now.version inlet.now first.now second.now (table_view table.now)) }
{
    match sheet.version {
        Version::One => two_outlets(alloc, sheet, inlet, first, second, table),
        Version::Two => listed_outlets(alloc, sheet, inlet, table),
    }
}

// The streams at two keys.
fn two_outlets<F: Field>(
    alloc: Global,
    sheet: &Sheet<F>,
    inlet: &str,
    first: &str,
    second: &str,
    table: &Table,
) -> Result<Vec<String>, Fault>
    ensures { AnswersAs (λ names. map string_bytes names.items) result
        (outlets_in (scope_of_kept sheet.now) Version.One inlet.now first.now second.now (table_view table.now)) }
{
    let mut named = NameSet::of_one(alloc, inlet)?;
    let one = stream_at(sheet, &named, first, table)?;
    named.push(one)?;
    let other = stream_at(sheet, &named, second, table)?;
    let mut outlets = Vec::with_capacity(alloc, 2)?;
    outlets.push(String::from_str(alloc, one)?)?;
    outlets.push(String::from_str(alloc, other)?)?;
    Ok(outlets)
}

// The streams of a list.
fn listed_outlets<F: Field>(
    alloc: Global,
    sheet: &Sheet<F>,
    inlet: &str,
    table: &Table,
) -> Result<Vec<String>, Fault>
    ensures { AnswersAs (λ names. map string_bytes names.items) result
        (outlets_in (scope_of_kept sheet.now) Version.Two inlet.now [] [] (table_view table.now)) }
{
    let mut named = NameSet::of_one(alloc, inlet)?;
    streams_at(alloc, sheet, 2, &mut named, "outlets", table)
}

/// The fractions of a tee: of each outlet but the last.
pub(crate) fn fractions<F: Field>(
    alloc: Global,
    version: Version,
    outlets: &[String],
    table: &Table,
) -> Result<Vec<F>, Fault>
    ensures { AnswersAs (λ fractions. map F.number fractions.items) result
        (fractions_in F.modulus version (map string_bytes outlets.now) (table_view table.now)) }
{
    match version {
        Version::One => one_fraction(alloc, table),
        Version::Two => {
            let count = outlets.len().saturating_sub(1);
            numbers(alloc, list_of_length(due(table, "fractions")?, count)?)
        }
    }
}

// The fraction of the first of two outlets.
fn one_fraction<F: Field>(alloc: Global, table: &Table) -> Result<Vec<F>, Fault>
    ensures { AnswersAs (λ fractions. map F.number fractions.items) result
        (fractions_in F.modulus Version.One [] (table_view table.now)) }
{
    let fraction = number(due(table, "fraction")?)?;
    let mut fractions = Vec::with_capacity(alloc, 1)?;
    fractions.push(fraction)?;
    Ok(fractions)
}

/// Whether each key of a table is a component with a number.
pub(crate) fn are_coefficients<F: Field>(components: &NameSet, table: &Table) -> Result<(), Why>
    ensures { GivesAnswer (λ _. tt {0}) result
        (are_coefficients F.modulus components.now (members_in (table_view table.now))) }
{
    for (component, value) in table {
        if !components.has(component) {
            return Err(Why::Undeclared);
        }
        number::<F>(value)?;
    }
    Ok(())
}

/// The coefficient of each component.
pub(crate) fn coefficients<F: Field>(
    alloc: Global,
    components: &NameSet,
    table: &Table,
) -> Result<Vec<F>, NoMemory>
    ensures { IfOk result (λ made. map F.number made.items
        ≡ map (λ component. coefficient_of F.modulus (get_member component (table_view table.now))) components.now) }
{
    let mut made = Vec::new(alloc);
    for component in components.as_slice() {
        made.push(coefficient(component, table))?;
    }
    Ok(made)
}

// The coefficient of a component: 0 where none is there.
fn coefficient<F: Field>(component: &str, table: &Table) -> F
    ensures { F.number result ≡ coefficient_of F.modulus (get_member component.now (table_view table.now)) }
{
    match due(table, component) {
        Ok(value) => number(value).unwrap_or(F::zero()),
        Err(_) => F::zero(),
    }
}
