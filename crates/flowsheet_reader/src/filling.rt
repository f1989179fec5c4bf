//! A flowsheet that fills, unit by unit.

ghost use Rattle.std.specs.Prelude.{◌≡◌, ◌≤◌, ◌+◌, ◌++◌, [], length, map, IfErr, IfOk, OnOk};
ghost use Rattle.std.specs.String.{string_bytes};
ghost use Rattle.limits.specs.Limits.{equation_limit};
ghost use Rattle.refusals.specs.Faults.{OnBroken};
ghost use Rattle.term_model.specs.Systems.{IsModelOf, System};
ghost use Rattle.toml.specs.View.{view};
ghost use Rattle.unit_equations.specs.Adding.{ArePlaced, IsNewPart};
ghost use Rattle.document_values.specs.Answers.{OnRefused};
ghost use Rattle.unit_equations.specs.Kinds.{flow, flows};
ghost use Rattle.flowsheet_reader.specs.Models.{unit_at, units_in};
ghost use Rattle.unit_equations.specs.Parts.{system_of, together};
ghost use Rattle.flowsheet_reader.specs.Reached.{AreGivenByItems, Grows, IsKept, IsRefusedBy, Keeps};
ghost use Rattle.flowsheet_reader.specs.Sheets.{sheet_without_units};
ghost use Rattle.flowsheet_reader.specs.Units.{add_unit};

use crate::sheet::Sheet;
use crate::unit::read_unit;
use document_values::{NameSet, at_or_memory};
use mixed_model::Mixed;
use out_of_memory::NoMemory;
use refusals::{Fault, Place, ReadModel};
use residue_field::Field;
use std::alloc::Global;
use toml::Value;
use unit_equations::{UnitPart, Version, add_part, flow};

impl<F: Field> Sheet<F> {
    /// A flowsheet without units: each component in each stream is an unknown of it.
    pub(crate) fn without_units(
        alloc: Global,
        version: Version,
        components: NameSet,
        streams: NameSet,
    ) -> Result<Sheet<F>, NoMemory>
        requires { AreGivenByItems components streams }
        ensures { IfOk result (λ sheet. Keeps F.modulus sheet (sheet_without_units version components streams)) }
    {
        let mut model = Mixed::new(alloc)?;
        let part = UnitPart {
            unknowns: flows(alloc, &components, &streams)?,
            equations: Vec::new(alloc),
        };
        add_flows(&mut model, &part)?;
        Ok(Sheet {
            version,
            components,
            streams,
            units: NameSet::new(alloc),
            model,
        })
    }

    /// Adds the units that some items are.
    pub(crate) fn add_units(&mut self, alloc: Global, items: &[Value]) -> Result<(), ReadModel>
        requires kept { IsKept F.modulus self.old }
        requires none { self.old.units ≡ [] }
        ensures added { OnOk result (Grows F.modulus self.old self.new
            (λ sheet. units_in F.modulus sheet (map view items.now))) }
        ensures refused { IfErr result (λ why. OnRefused why (IsRefusedBy F.modulus self.old
            (λ sheet. units_in F.modulus sheet (map view items.now)))) }
    {
        for (place, item) in items.iter().enumerate() {
            self.add_unit_at(alloc, place + 1, item)?;
        }
        Ok(())
    }

    // Adds the unit of this number.
    fn add_unit_at(&mut self, alloc: Global, number: usize, value: &Value) -> Result<(), ReadModel>
        requires kept { IsKept F.modulus self.old }
        requires number { number ≡ length self.old.units + 1 }
        ensures added { OnOk result (Grows F.modulus self.old self.new
            (λ sheet. unit_at F.modulus sheet (view value.now))) }
        ensures counted { OnOk result (length self.new.units ≡ number) }
        ensures refused { IfErr result (λ why. OnRefused why (IsRefusedBy F.modulus self.old
            (λ sheet. unit_at F.modulus sheet (view value.now)))) }
    {
        at_or_memory(Place::Unit(number), self.add_unit(alloc, value))
    }

    // Adds a unit.
    fn add_unit(&mut self, alloc: Global, value: &Value) -> Result<(), Fault>
        requires { IsKept F.modulus self.old }
        ensures added { OnOk result (Grows F.modulus self.old self.new
            (λ sheet. add_unit F.modulus sheet (view value.now))) }
        ensures counted { OnOk result (length self.new.units ≡ length self.old.units + 1) }
        ensures refused { IfErr result (λ fault. OnBroken fault (IsRefusedBy F.modulus self.old
            (λ sheet. add_unit F.modulus sheet (view value.now)))) }
    {
        let (name, part) = read_unit(alloc, self, value)?;
        add_part(&mut self.model, &part)?;
        self.units.push(&name)?;
        Ok(())
    }
}

// The flows of some components in some streams, stream by stream.
fn flows(alloc: Global, components: &NameSet, streams: &NameSet) -> Result<Vec<String>, NoMemory>
    ensures { IfOk result (λ names. map string_bytes names.items ≡ flows components.now streams.now) }
{
    let mut names = Vec::new(alloc);
    for stream in streams.as_slice() {
        push_flows(alloc, &mut names, stream, components)?;
    }
    Ok(names)
}

// Puts the flows of some components in a stream last.
fn push_flows(
    alloc: Global,
    names: &mut Vec<String>,
    stream: &str,
    components: &NameSet,
) -> Result<(), NoMemory>
    ensures { OnOk result (map string_bytes names.new.items
        ≡ map string_bytes names.old.items ++ map (flow stream.now) components.now) }
{
    for component in components.as_slice() {
        names.push(flow(alloc, stream, component)?)?;
    }
    Ok(())
}

// Adds flows to an empty model, which has room for them.
fn add_flows<F: Field>(model: &mut Mixed<F>, part: &UnitPart<F>) -> Result<(), NoMemory>
    requires new { IsNewPart F.modulus model.old.equations model.old.unknowns part.now }
    requires equations { length (model.old.equations ++ map (λ equation. equation.name) part.now.equations)
        ≤ equation_limit }
    requires unknowns { length (model.old.unknowns ++ part.now.unknowns) ≤ equation_limit }
    ensures { OnOk result ((system : System) → ArePlaced system → IsModelOf F.modulus system model.old
        → IsModelOf F.modulus (together system (system_of part.now)) model.new) }
{
    match add_part(model, part) {
        Ok(()) => Ok(()),
        Err(fault) => Err(want_of_memory(fault)),
    }
}

// The one fault that is left where there is room.
fn want_of_memory(_fault: Fault) -> NoMemory
    requires { _fault ≡ Fault.NoMemory }
{
    NoMemory
}
