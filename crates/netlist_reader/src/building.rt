//! The model of a circuit.

ghost use Rattle.std.specs.Prelude.{◌≡◌, [], All, map, IfOk, OnOk, IfErr};
ghost use Rattle.std.specs.String.{string_bytes};
ghost use Rattle.mixed_model.specs.Names.{IsNameList};
ghost use Rattle.term_model.specs.Putting.{IsBlank, IsPlaced, Says};
ghost use Rattle.netlist_devices.specs.Circuits.{AreSourced, IsCircuit, IsDevice};
ghost use Rattle.netlist_reader.specs.Models.{IsModelOf};
ghost use Rattle.netlist_reader.specs.Numbers.{HasDevicePlaces, Numbered, NumbersNodes, numbered_of};
ghost use Rattle.netlist_reader.specs.Putting.{LacksMemory, PutsDevice, put_by};
ghost use Rattle.netlist_devices.specs.EquationNames.{equations_of, unknowns_of};
ghost use Rattle.netlist_reader.specs.Terms.{terms_of};

use crate::places::Places;
use crate::putting::put_terms;
use crate::side::{Side, first_numbers, names_on};
use crate::terms::Terms;
use mixed_model::{AddError, Mixed};
use netlist_devices::{Circuit, Device};
use out_of_memory::NoMemory;
use residue_field::Field;
use std::alloc::Global;

/// The model of a circuit of which each source is a V device.
pub(crate) fn build<F: Field>(alloc: Global, circuit: &Circuit<F>) -> Result<Mixed<F>, NoMemory>
    requires circuit { IsCircuit F.modulus circuit.now }
    requires sourced { AreSourced circuit.now.devices }
    ensures { IfOk result (IsModelOf F.modulus circuit.now.devices) }
{
    let mut model = Mixed::new(alloc)?;
    add_unknowns(&mut model, &names_on(alloc, circuit, Side::Unknowns)?)?;
    add_equations(&mut model, &names_on(alloc, circuit, Side::Equations)?)?;
    put_devices(alloc, &mut model, circuit)?;
    model.is_model();
    Ok(model)
}

// Adds unknowns of these names to a model that has none.
fn add_unknowns<F: Field>(model: &mut Mixed<F>, names: &[String]) -> Result<(), NoMemory>
    requires names { IsNameList (map string_bytes names.now) }
    requires none { model.old.unknowns ≡ [] }
    ensures unknowns { OnOk result (model.new.unknowns ≡ map string_bytes names.now) }
    ensures equations { OnOk result (model.new.equations ≡ model.old.equations) }
    ensures rows { OnOk result (model.new.rows ≡ model.old.rows) }
{
    for name in names {
        if let Err(error) = model.add_unknown(name) {
            return Err(want_of_memory(error));
        }
    }
    Ok(())
}

// Adds equations of these names, in which nothing stands, to a model that has none.
fn add_equations<F: Field>(model: &mut Mixed<F>, names: &[String]) -> Result<(), NoMemory>
    requires names { IsNameList (map string_bytes names.now) }
    requires none { model.old.equations ≡ [] }
    requires blank { model.old.rows ≡ [] }
    ensures equations { OnOk result (model.new.equations ≡ map string_bytes names.now) }
    ensures unknowns { OnOk result (model.new.unknowns ≡ model.old.unknowns) }
    ensures blank { OnOk result (IsBlank model.new) }
{
    for name in names {
        if let Err(error) = model.add_equation(name) {
            return Err(want_of_memory(error));
        }
    }
    Ok(())
}

// Puts the terms of all devices.
fn put_devices<F: Field>(
    alloc: Global,
    model: &mut Mixed<F>,
    circuit: &Circuit<F>,
) -> Result<(), NoMemory>
    ghost names: { Numbered }
    requires names { names ≡ numbered_of circuit.now.devices }
    requires circuit { IsCircuit F.modulus circuit.now }
    requires sourced { AreSourced circuit.now.devices }
    requires equations { model.old.equations ≡ equations_of circuit.now.devices }
    requires unknowns { model.old.unknowns ≡ unknowns_of circuit.now.devices }
    requires blank { Says F.modulus [] model.old }
    ensures equations { OnOk result (model.new.equations ≡ model.old.equations) }
    ensures unknowns { OnOk result (model.new.unknowns ≡ model.old.unknowns) }
    ensures says { OnOk result (Says F.modulus (terms_of F.modulus circuit.now.devices) model.new) }
{
    let equations = first_numbers(alloc, circuit, Side::Equations)?;
    let unknowns = first_numbers(alloc, circuit, Side::Unknowns)?;
    for k in 0..circuit.devices.len() {
        let places = Places::of(alloc, circuit, &equations, &unknowns, k)?;
        if let Err(error) = put_device(alloc, model, &circuit.devices[k], &places) {
            return Err(want_of_memory(error));
        }
    }
    Ok(())
}

// Puts the terms of a device.
fn put_device<F: Field>(
    alloc: Global,
    model: &mut Mixed<F>,
    device: &Device<F>,
    places: &Places,
) -> Result<(), AddError>
    ghost names: { Numbered }
    requires equations { model.old.equations ≡ names.equations }
    requires unknowns { model.old.unknowns ≡ names.unknowns }
    requires nodes { NumbersNodes names }
    requires device { IsDevice F.modulus device.now }
    requires places { HasDevicePlaces names device.now places.now }
    requires placed { All (IsPlaced model.old.equations model.old.unknowns)
        (put_by F.modulus device.now.kind device.now) }
    ensures equations { model.new.equations ≡ model.old.equations }
    ensures unknowns { model.new.unknowns ≡ model.old.unknowns }
    ensures says { OnOk result (PutsDevice F.modulus model.old model.new device.now) }
    ensures refused { IfErr result (LacksMemory F.modulus model.old device.now) }
{
    model.is_model();
    let Ok(terms) = Terms::of(alloc, device, places) else {
        return Err(AddError::NoMemory);
    };
    put_terms(model, &terms)
}

// The one refusal that is left where names are new and nothing stands at a place.
fn want_of_memory(_error: AddError) -> NoMemory
    requires { _error ≡ AddError.NoMemory }
{
    NoMemory
}
