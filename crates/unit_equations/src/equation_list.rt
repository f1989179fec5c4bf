//! The equations of a unit, as they are put down.

ghost use Rattle.std.specs.Prelude.{◌≡◌, ◌-◌, ◌∷◌, ◌++◌, [], codes, length, map, take, IfOk, OnOk};
ghost use Rattle.std.specs.List.{zip};
ghost use Rattle.std.specs.String.{string_bytes};
ghost use Rattle.unit_equations.specs.Kinds.{but_last, conserved, each_times, fixed_split, flow, open_split, own_for};
ghost use Rattle.unit_equations.specs.Parts.{equation, less, open_at, times};
ghost use Rattle.term_model.specs.Terms.{dotted};

use crate::naming::{flow, numbered, own_for};
use crate::part::{UnitEquation, UnitPart};
use crate::summands::Summands;
use crate::version::Version;
use out_of_memory::NoMemory;
use residue_field::Field;
use std::alloc::Global;
use std::marker::Model;
use term_model::dotted;

/// The equations of a unit, as they are put down.
#[derive(Drop)]
pub(crate) struct EquationList<F: Field> {
    alloc: Global,
    items: Vec<UnitEquation<F>>,
}

impl<F: Field> Model for EquationList<F> {
    ghost use Rattle.std.specs.Prelude.{List};
    ghost use Rattle.unit_equations.specs.Parts.{UnitEquation};

    ghost Value = { List UnitEquation };

    ghost view = { λ e. e.items.items };
}

impl<F: Field> EquationList<F> {
    pub(crate) fn new(alloc: Global) -> Self
        ensures { result ≡ [] }
    {
        EquationList {
            alloc,
            items: Vec::new(alloc),
        }
    }

    /// A part that has no unknowns of its own.
    pub(crate) fn alone(self) -> UnitPart<F>
        ensures { result ≡ record { unknowns = []; equations = self } }
    {
        UnitPart {
            unknowns: Vec::new(self.alloc),
            equations: self.items,
        }
    }

    /// A part with an unknown of its own.
    pub(crate) fn with_unknown(self, unknown: String) -> Result<UnitPart<F>, NoMemory>
        ensures { IfOk result (λ part. part ≡ record { unknowns = string_bytes unknown ∷ []; equations = self }) }
    {
        let mut unknowns = Vec::new(self.alloc);
        unknowns.push(unknown)?;
        Ok(UnitPart {
            unknowns,
            equations: self.items,
        })
    }

    /// Puts an equation last.
    pub(crate) fn push(&mut self, equation: UnitEquation<F>) -> Result<(), NoMemory>
        ensures { OnOk result (self.new ≡ self.old ++ equation ∷ []) }
    {
        self.items.push(equation)?;
        Ok(())
    }

    /// An outlet has what the inlets have of a component.
    pub(crate) fn mixed(
        &mut self,
        unit: &str,
        component: &str,
        inlets: &[String],
        outlet: &str,
    ) -> Result<(), NoMemory>
        ensures { OnOk result (self.new ≡ self.old ++ equation (own_for (codes "mix") unit.now component.now)
            (times 1 (flow outlet.now component.now)
            ∷ each_times (F.modulus - 1) (map string_bytes inlets.now) component.now) ∷ []) }
    {
        let mut sum = Summands::new(self.alloc);
        sum.flow(outlet, component)?;
        sum.minus_flows(inlets, component)?;
        self.push(sum.named(own_for(self.alloc, "mix", unit, component)?))
    }

    /// The outlets have what an inlet has of a component.
    pub(crate) fn conserved(
        &mut self,
        unit: &str,
        component: &str,
        inlet: &str,
        outlets: &[String],
    ) -> Result<(), NoMemory>
        ensures { OnOk result (self.new ≡ self.old
            ++ conserved F.modulus unit.now inlet.now (map string_bytes outlets.now) component.now ∷ []) }
    {
        let mut sum = Summands::new(self.alloc);
        sum.flow(inlet, component)?;
        sum.minus_flows(outlets, component)?;
        self.push(sum.named(own_for(self.alloc, "bal", unit, component)?))
    }

    /// How a component splits between an inlet and each outlet but the last is open.
    pub(crate) fn open_splits(
        &mut self,
        version: Version,
        unit: &str,
        component: &str,
        inlet: &str,
        outlets: &[String],
    ) -> Result<(), NoMemory>
        ensures { OnOk result (self.new ≡ self.old ++ map (open_split version unit.now inlet.now component.now)
            (but_last (map string_bytes outlets.now))) }
    {
        for (place, outlet) in but_last(outlets).iter().enumerate() {
            let name = own_for(self.alloc, "split", unit, component)?;
            let name = numbered(self.alloc, version, name, place + 1)?;
            self.open_split(name, component, inlet, outlet)?;
        }
        Ok(())
    }

    // How a component splits between an inlet and an outlet is open.
    fn open_split(
        &mut self,
        name: String,
        component: &str,
        inlet: &str,
        outlet: &str,
    ) -> Result<(), NoMemory>
        ensures { OnOk result (self.new ≡ self.old ++ equation (string_bytes name)
            (open_at (flow inlet.now component.now) ∷ open_at (flow outlet.now component.now) ∷ []) ∷ []) }
    {
        let mut split = Summands::new(self.alloc);
        split.open_flow(inlet, component)?;
        split.open_flow(outlet, component)?;
        self.push(split.named(name))
    }

    /// Each outlet but the last has its fraction of what an inlet has of a component.
    pub(crate) fn fixed_splits(
        &mut self,
        version: Version,
        unit: &str,
        component: &str,
        inlet: &str,
        outlets: &[String],
        fractions: &[F],
    ) -> Result<(), NoMemory>
        ensures { OnOk result (self.new ≡ self.old
            ++ map (fixed_split F.modulus version unit.now inlet.now component.now)
            (zip (but_last (map string_bytes outlets.now)) (map F.number fractions.now))) }
    {
        for (place, (outlet, fraction)) in but_last(outlets).iter().zip(fractions).enumerate() {
            let name = own_for(self.alloc, "tee", unit, component)?;
            let name = numbered(self.alloc, version, name, place + 1)?;
            self.fixed_split(name, component, inlet, outlet, *fraction)?;
        }
        Ok(())
    }

    // An outlet has a fraction of what an inlet has of a component.
    fn fixed_split(
        &mut self,
        name: String,
        component: &str,
        inlet: &str,
        outlet: &str,
        fraction: F,
    ) -> Result<(), NoMemory>
        ensures { OnOk result (self.new ≡ self.old ++ equation (string_bytes name)
            (times 1 (flow outlet.now component.now)
            ∷ less F.modulus (F.number fraction) (flow inlet.now component.now)) ∷ []) }
    {
        let mut split = Summands::new(self.alloc);
        split.flow(outlet, component)?;
        split.less(fraction, flow(self.alloc, inlet, component)?)?;
        self.push(split.named(name))
    }

    /// An outlet has what an inlet has of a component and what the reaction makes of it.
    pub(crate) fn made(
        &mut self,
        unit: &str,
        component: &str,
        inlet: &str,
        outlet: &str,
        coefficient: F,
    ) -> Result<(), NoMemory>
        ensures { OnOk result (self.new ≡ self.old ++ equation (own_for (codes "rea") unit.now component.now)
            (times 1 (flow outlet.now component.now) ∷ times (F.modulus - 1) (flow inlet.now component.now)
            ∷ less F.modulus (F.number coefficient) (dotted (codes "x") unit.now)) ∷ []) }
    {
        let mut sum = Summands::new(self.alloc);
        sum.flow(outlet, component)?;
        sum.minus_flow(inlet, component)?;
        sum.less(coefficient, dotted(self.alloc, "x", unit)?)?;
        self.push(sum.named(own_for(self.alloc, "rea", unit, component)?))
    }
}

// All but the last of some outlets.
fn but_last(outlets: &[String]) -> &[String]
    ensures { result.now ≡ take (length outlets.now - 1) outlets.now }
{
    &outlets[..outlets.len().saturating_sub(1)]
}
