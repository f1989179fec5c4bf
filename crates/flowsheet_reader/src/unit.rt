//! What a unit of a document adds to the flowsheet before it.

ghost use Rattle.std.specs.String.{string_bytes};
ghost use Rattle.toml.specs.View.{table_view, view};
ghost use Rattle.document_values.specs.Answers.{AnswersAs, GivesAnswer};
ghost use Rattle.flowsheet_reader.specs.Keeping.{scope_of_kept};
ghost use Rattle.flowsheet_reader.specs.Units.{kind_in, unit_part_in, unit_in};

use crate::sheet::Sheet;
use crate::unit_keys::{are_coefficients, coefficients, fractions, outlets, stream_at, streams_at};
use document_values::{
    NameSet, declared_name, declared_names, due, has_only, list_with, new_name, table as table_in,
    text,
};
use refusals::{Fault, Why};
use residue_field::Field;
use std::alloc::Global;
use toml::{Table, Value};
use unit_equations::{
    UnitKind, UnitPart, balance, mixer, reactor, relation, separator, specification, tee,
};

/// The name of a unit, and what it adds to a flowsheet.
pub(crate) fn read_unit<F: Field>(
    alloc: Global,
    sheet: &Sheet<F>,
    value: &Value,
) -> Result<(String, UnitPart<F>), Fault>
    ensures { AnswersAs (λ unit. (string_bytes unit.0, unit.1)) result
        (unit_in F.modulus (scope_of_kept sheet.now) (view value.now)) }
{
    let table = table_in(value)?;
    let name = new_name(&sheet.units, due(table, "name")?)?;
    let kind = kind_of(table)?;
    if !has_only(table, &["name", "kind"], kind.keys(sheet.version)) {
        return Err(Fault::Broken(Why::UnknownKey));
    }
    let part = read_part(alloc, sheet, kind, name, table)?;
    let name = String::from_str(alloc, name)?;
    Ok((name, part))
}

// The kind that a unit's table tells.
fn kind_of(table: &Table) -> Result<UnitKind, Why>
    ensures { GivesAnswer (λ kind. kind) result (kind_in (table_view table.now)) }
{
    let word = text(due(table, "kind")?)?;
    UnitKind::named(word).ok_or(Why::BadKind)
}

// What a unit of this kind and name adds.
fn read_part<F: Field>(
    alloc: Global,
    sheet: &Sheet<F>,
    kind: UnitKind,
    unit: &str,
    table: &Table,
) -> Result<UnitPart<F>, Fault>
    ensures { AnswersAs (λ part. part) result
        (unit_part_in F.modulus (scope_of_kept sheet.now) kind unit.now (table_view table.now)) }
{
    match kind {
        UnitKind::Mixer => read_mixer(alloc, sheet, unit, table),
        UnitKind::Separator => read_separator(alloc, sheet, unit, table),
        UnitKind::Reactor => read_reactor(alloc, sheet, unit, table),
        UnitKind::Tee => read_tee(alloc, sheet, unit, table),
        UnitKind::Specification => read_specification(alloc, sheet, unit, table),
        UnitKind::Balance => read_balance(alloc, sheet, unit, table),
        UnitKind::Relation => read_relation(alloc, sheet, unit, table),
    }
}

// What a mixer of this name adds.
fn read_mixer<F: Field>(
    alloc: Global,
    sheet: &Sheet<F>,
    unit: &str,
    table: &Table,
) -> Result<UnitPart<F>, Fault>
    ensures { AnswersAs (λ part. part) result
        (unit_part_in F.modulus (scope_of_kept sheet.now) UnitKind.Mixer unit.now (table_view table.now)) }
{
    let mut named = NameSet::new(alloc);
    let inlets = streams_at(alloc, sheet, 1, &mut named, "inlets", table)?;
    let outlet = stream_at(sheet, &named, "outlet", table)?;
    let part = mixer(alloc, &sheet.components, unit, &inlets, outlet)?;
    Ok(part)
}

// What a separator of this name adds.
fn read_separator<F: Field>(
    alloc: Global,
    sheet: &Sheet<F>,
    unit: &str,
    table: &Table,
) -> Result<UnitPart<F>, Fault>
    ensures { AnswersAs (λ part. part) result
        (unit_part_in F.modulus (scope_of_kept sheet.now) UnitKind.Separator unit.now (table_view table.now)) }
{
    let inlet = stream_at(sheet, &NameSet::new(alloc), "inlet", table)?;
    let outlets = outlets(alloc, sheet, inlet, "top", "bottom", table)?;
    let part = separator(
        alloc,
        sheet.version,
        &sheet.components,
        unit,
        inlet,
        &outlets,
    )?;
    Ok(part)
}

// What a reactor of this name adds.
fn read_reactor<F: Field>(
    alloc: Global,
    sheet: &Sheet<F>,
    unit: &str,
    table: &Table,
) -> Result<UnitPart<F>, Fault>
    ensures { AnswersAs (λ part. part) result
        (unit_part_in F.modulus (scope_of_kept sheet.now) UnitKind.Reactor unit.now (table_view table.now)) }
{
    let inlet = stream_at(sheet, &NameSet::new(alloc), "inlet", table)?;
    let named = NameSet::of_one(alloc, inlet)?;
    let outlet = stream_at(sheet, &named, "outlet", table)?;
    let stoich = table_in(due(table, "stoich")?)?;
    are_coefficients::<F>(&sheet.components, stoich)?;
    let coefficients = coefficients(alloc, &sheet.components, stoich)?;
    let part = reactor(alloc, &sheet.components, unit, inlet, outlet, &coefficients)?;
    Ok(part)
}

// What a tee of this name adds.
fn read_tee<F: Field>(
    alloc: Global,
    sheet: &Sheet<F>,
    unit: &str,
    table: &Table,
) -> Result<UnitPart<F>, Fault>
    ensures { AnswersAs (λ part. part) result
        (unit_part_in F.modulus (scope_of_kept sheet.now) UnitKind.Tee unit.now (table_view table.now)) }
{
    let inlet = stream_at(sheet, &NameSet::new(alloc), "inlet", table)?;
    let outlets = outlets(alloc, sheet, inlet, "first", "second", table)?;
    let fractions: Vec<F> = fractions(alloc, sheet.version, &outlets, table)?;
    let part = tee(
        alloc,
        sheet.version,
        &sheet.components,
        unit,
        inlet,
        &outlets,
        &fractions,
    )?;
    Ok(part)
}

// What a specification of this name adds.
fn read_specification<F: Field>(
    alloc: Global,
    sheet: &Sheet<F>,
    unit: &str,
    table: &Table,
) -> Result<UnitPart<F>, Fault>
    ensures { AnswersAs (λ part. part) result
        (unit_part_in F.modulus (scope_of_kept sheet.now) UnitKind.Specification unit.now (table_view table.now)) }
{
    let none = NameSet::new(alloc);
    let stream = stream_at(sheet, &none, "stream", table)?;
    let component = declared_name(&sheet.components, &none, due(table, "component")?)?;
    let part = specification(alloc, unit, stream, component)?;
    Ok(part)
}

// What a balance of this name adds.
fn read_balance<F: Field>(
    alloc: Global,
    sheet: &Sheet<F>,
    unit: &str,
    table: &Table,
) -> Result<UnitPart<F>, Fault>
    ensures { AnswersAs (λ part. part) result
        (unit_part_in F.modulus (scope_of_kept sheet.now) UnitKind.Balance unit.now (table_view table.now)) }
{
    let mut named = NameSet::new(alloc);
    let streams = streams_at(alloc, sheet, 1, &mut named, "streams", table)?;
    let part = balance(alloc, &sheet.components, unit, &streams)?;
    Ok(part)
}

// What a relation of this name adds.
fn read_relation<F: Field>(
    alloc: Global,
    sheet: &Sheet<F>,
    unit: &str,
    table: &Table,
) -> Result<UnitPart<F>, Fault>
    ensures { AnswersAs (λ part. part) result
        (unit_part_in F.modulus (scope_of_kept sheet.now) UnitKind.Relation unit.now (table_view table.now)) }
{
    let mut named = NameSet::new(alloc);
    let items = list_with(due(table, "unknowns")?, 1)?;
    let unknowns = declared_names(alloc, &sheet.model, &mut named, items)?;
    let part = relation(alloc, unit, &unknowns)?;
    Ok(part)
}
