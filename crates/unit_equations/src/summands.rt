//! What a unit's equation has at its unknowns, as it is put down.

ghost use Rattle.std.specs.Prelude.{◌≡◌, ◌-◌, ◌∷◌, ◌++◌, [], codes, map, OnOk};
ghost use Rattle.std.specs.String.{string_bytes};
ghost use Rattle.unit_equations.specs.Kinds.{each_times, flow};
ghost use Rattle.unit_equations.specs.Parts.{equation, less, open_at, times};
ghost use Rattle.term_model.specs.Putting.{constant_of_value, is_symbol};

use crate::naming::flow;
use crate::part::{Summand, UnitEquation};
use out_of_memory::NoMemory;
use residue_field::Field;
use std::alloc::Global;
use std::marker::Model;
use term_model::Value;

/// What an equation has at its unknowns, as it is put down.
#[derive(Drop)]
pub(crate) struct Summands<F: Field> {
    alloc: Global,
    items: Vec<Summand<F>>,
}

impl<F: Field> Model for Summands<F> {
    ghost use Rattle.std.specs.Prelude.{List};
    ghost use Rattle.unit_equations.specs.Parts.{Summand};

    ghost Value = { List Summand };

    ghost view = { λ s. s.items.items };
}

impl<F: Field> Summands<F> {
    pub(crate) fn new(alloc: Global) -> Self
        ensures { result ≡ [] }
    {
        Summands {
            alloc,
            items: Vec::new(alloc),
        }
    }

    /// The equation of this name.
    pub(crate) fn named(self, name: String) -> UnitEquation<F>
        ensures { result ≡ equation (string_bytes name) self }
    {
        UnitEquation {
            name,
            summands: self.items,
        }
    }

    /// The flow of a component in a stream.
    pub(crate) fn flow(&mut self, stream: &str, component: &str) -> Result<(), NoMemory>
        ensures { OnOk result (self.new ≡ self.old ++ times 1 (flow stream.now component.now) ∷ []) }
    {
        let flow = flow(self.alloc, stream, component)?;
        self.once(flow)
    }

    /// Minus the flow of a component in each of some streams.
    pub(crate) fn minus_flows(
        &mut self,
        streams: &[String],
        component: &str,
    ) -> Result<(), NoMemory>
        ensures { OnOk result (self.new
            ≡ self.old ++ each_times (F.modulus - 1) (map string_bytes streams.now) component.now) }
    {
        for stream in streams {
            self.minus_flow(stream, component)?;
        }
        Ok(())
    }

    /// Minus the flow of a component in a stream.
    pub(crate) fn minus_flow(&mut self, stream: &str, component: &str) -> Result<(), NoMemory>
        ensures { OnOk result (self.new ≡ self.old ++ times (F.modulus - 1) (flow stream.now component.now) ∷ []) }
    {
        let flow = flow(self.alloc, stream, component)?;
        self.put(flow, Value::Constant(F::one().neg()))
    }

    /// An unknown.
    pub(crate) fn once(&mut self, unknown: String) -> Result<(), NoMemory>
        ensures { OnOk result (self.new ≡ self.old ++ times 1 (string_bytes unknown) ∷ []) }
    {
        self.put(unknown, Value::Constant(F::one()))
    }

    /// Minus a number of times an unknown: nothing for 0.
    pub(crate) fn less(&mut self, number: F, unknown: String) -> Result<(), NoMemory>
        ensures { OnOk result (self.new ≡ self.old ++ less F.modulus (F.number number) (string_bytes unknown)) }
    {
        number.in_field();
        let negative = number.neg();
        if negative.is_zero() {
            return Ok(());
        }
        self.put(unknown, Value::Constant(negative))
    }

    /// The flows of some components in a stream, openly.
    pub(crate) fn open_flows(&mut self, stream: &str, components: &[String]) -> Result<(), NoMemory>
        ensures { OnOk result (self.new
            ≡ self.old ++ map open_at (map (flow stream.now) (map string_bytes components.now))) }
    {
        for component in components {
            self.open_flow(stream, component)?;
        }
        Ok(())
    }

    /// The flow of a component in a stream, openly.
    pub(crate) fn open_flow(&mut self, stream: &str, component: &str) -> Result<(), NoMemory>
        ensures { OnOk result (self.new ≡ self.old ++ open_at (flow stream.now component.now) ∷ []) }
    {
        let flow = flow(self.alloc, stream, component)?;
        self.open(flow)
    }

    /// Each of some unknowns, openly.
    pub(crate) fn open_each(&mut self, unknowns: &[String]) -> Result<(), NoMemory>
        ensures { OnOk result (self.new ≡ self.old ++ map open_at (map string_bytes unknowns.now)) }
    {
        for unknown in unknowns {
            self.open(unknown.clone()?)?;
        }
        Ok(())
    }

    // An unknown, openly.
    fn open(&mut self, unknown: String) -> Result<(), NoMemory>
        ensures { OnOk result (self.new ≡ self.old ++ open_at (string_bytes unknown) ∷ []) }
    {
        self.put(unknown, Value::Symbol)
    }

    // Puts a value at an unknown last.
    fn put(&mut self, unknown: String, value: Value<F>) -> Result<(), NoMemory>
        ensures { OnOk result (self.new ≡ self.old ++ record {
          unknown = string_bytes unknown;
          constant = constant_of_value F.number value;
          symbol = is_symbol value;
        } ∷ []) }
    {
        self.items.push(Summand { unknown, value })?;
        Ok(())
    }
}
