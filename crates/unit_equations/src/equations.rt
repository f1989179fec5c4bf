//! What a unit adds to a flowsheet, by its kind.

ghost use Rattle.std.specs.Prelude.{◌≡◌, map, IfOk};
ghost use Rattle.std.specs.List.{zip};
ghost use Rattle.std.specs.String.{string_bytes};
ghost use Rattle.unit_equations.specs.Kinds.{balance, mixer, reactor, relation, separator, specification, tee};

use crate::equation_list::EquationList;
use crate::part::UnitPart;
use crate::summands::Summands;
use crate::version::Version;
use document_values::NameSet;
use out_of_memory::NoMemory;
use residue_field::Field;
use std::alloc::Global;
use term_model::dotted;

/// What comes out of a mixer is the sum of what goes in.
pub fn mixer<F: Field>(
    alloc: Global,
    components: &NameSet,
    unit: &str,
    inlets: &[String],
    outlet: &str,
) -> Result<UnitPart<F>, NoMemory>
    ensures { IfOk result (λ part. part
        ≡ mixer F.modulus components.now unit.now (map string_bytes inlets.now) outlet.now) }
{
    let mut equations = EquationList::new(alloc);
    for component in components.as_slice() {
        equations.mixed(unit, component, inlets, outlet)?;
    }
    Ok(equations.alone())
}

/// What goes into a separator is the sum of what comes out, and how it splits is open.
pub fn separator<F: Field>(
    alloc: Global,
    version: Version,
    components: &NameSet,
    unit: &str,
    inlet: &str,
    outlets: &[String],
) -> Result<UnitPart<F>, NoMemory>
    ensures { IfOk result (λ part. part
        ≡ separator F.modulus version components.now unit.now inlet.now (map string_bytes outlets.now)) }
{
    let mut equations = EquationList::new(alloc);
    for component in components.as_slice() {
        equations.conserved(unit, component, inlet, outlets)?;
        equations.open_splits(version, unit, component, inlet, outlets)?;
    }
    Ok(equations.alone())
}

/// What goes into a tee is the sum of what comes out, and each outlet but the last has its fraction.
pub fn tee<F: Field>(
    alloc: Global,
    version: Version,
    components: &NameSet,
    unit: &str,
    inlet: &str,
    outlets: &[String],
    fractions: &[F],
) -> Result<UnitPart<F>, NoMemory>
    ensures { IfOk result (λ part. part ≡ tee F.modulus version components.now unit.now inlet.now
        (map string_bytes outlets.now) (map F.number fractions.now)) }
{
    let mut equations = EquationList::new(alloc);
    for component in components.as_slice() {
        equations.conserved(unit, component, inlet, outlets)?;
        equations.fixed_splits(version, unit, component, inlet, outlets, fractions)?;
    }
    Ok(equations.alone())
}

/// What comes out of a reactor is what goes in and what the reaction makes, by the coefficients of the components.
pub fn reactor<F: Field>(
    alloc: Global,
    components: &NameSet,
    unit: &str,
    inlet: &str,
    outlet: &str,
    coefficients: &[F],
) -> Result<UnitPart<F>, NoMemory>
    ensures { IfOk result (λ part. part
        ≡ reactor F.modulus unit.now inlet.now outlet.now (zip components.now (map F.number coefficients.now))) }
{
    let mut equations = EquationList::new(alloc);
    for (component, coefficient) in components.as_slice().iter().zip(coefficients) {
        equations.made(unit, component, inlet, outlet, *coefficient)?;
    }
    equations.with_unknown(dotted(alloc, "x", unit)?)
}

/// The flow of a component in a stream is given.
pub fn specification<F: Field>(
    alloc: Global,
    unit: &str,
    stream: &str,
    component: &str,
) -> Result<UnitPart<F>, NoMemory>
    ensures { IfOk result (λ part. part ≡ specification unit.now stream.now component.now) }
{
    let mut equations = EquationList::new(alloc);
    let mut given = Summands::new(alloc);
    given.flow(stream, component)?;
    equations.push(given.named(dotted(alloc, "spec", unit)?))?;
    Ok(equations.alone())
}

/// A heat is a combination, whose coefficients are open, of all flows of some streams.
pub fn balance<F: Field>(
    alloc: Global,
    components: &NameSet,
    unit: &str,
    streams: &[String],
) -> Result<UnitPart<F>, NoMemory>
    ensures { IfOk result (λ part. part ≡ balance components.now unit.now (map string_bytes streams.now)) }
{
    let mut equations = EquationList::new(alloc);
    let mut heat = Summands::new(alloc);
    heat.once(dotted(alloc, "q", unit)?)?;
    for stream in streams {
        heat.open_flows(stream, components.as_slice())?;
    }
    equations.push(heat.named(dotted(alloc, "heat", unit)?))?;
    equations.with_unknown(dotted(alloc, "q", unit)?)
}

/// An open relation between unknowns.
pub fn relation<F: Field>(
    alloc: Global,
    unit: &str,
    unknowns: &[String],
) -> Result<UnitPart<F>, NoMemory>
    ensures { IfOk result (λ part. part ≡ relation unit.now (map string_bytes unknowns.now)) }
{
    let mut equations = EquationList::new(alloc);
    let mut related = Summands::new(alloc);
    related.open_each(unknowns)?;
    equations.push(related.named(dotted(alloc, "rel", unit)?))?;
    Ok(equations.alone())
}
