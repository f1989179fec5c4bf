//! What a unit adds to a flowsheet.

use residue_field::Field;
use std::marker::Model;
use term_model::Value;

/// What an equation has at an unknown.
#[derive(Drop)]
pub struct Summand<F: Field> {
    pub unknown: String,
    pub value: Value<F>,
}

/// An equation of a unit.
#[derive(Drop)]
pub struct UnitEquation<F: Field> {
    pub name: String,
    pub summands: Vec<Summand<F>>,
}

/// What a unit adds: unknowns of its own, and equations.
#[derive(Drop)]
pub struct UnitPart<F: Field> {
    pub unknowns: Vec<String>,
    pub equations: Vec<UnitEquation<F>>,
}

impl<F: Field> Model for Summand<F> {
    ghost use Rattle.std.specs.String.{string_bytes};
    ghost use Rattle.unit_equations.specs.Parts.{Summand};
    ghost use Rattle.term_model.specs.Putting.{constant_of_value, is_symbol};

    ghost Value = { Summand };

    ghost view = { λ s. record {
      unknown = string_bytes s.unknown;
      constant = constant_of_value F.number s.value;
      symbol = is_symbol s.value;
    } };
}

impl<F: Field> Model for UnitEquation<F> {
    ghost use Rattle.std.specs.String.{string_bytes};
    ghost use Rattle.unit_equations.specs.Parts.{UnitEquation};

    ghost Value = { UnitEquation };

    ghost view = { λ e. record {
      name = string_bytes e.name;
      summands = e.summands.items;
    } };
}

impl<F: Field> Model for UnitPart<F> {
    ghost use Rattle.std.specs.Prelude.{map};
    ghost use Rattle.std.specs.String.{string_bytes};
    ghost use Rattle.unit_equations.specs.Parts.{UnitPart};

    ghost Value = { UnitPart };

    ghost view = { λ p. record {
      unknowns = map string_bytes p.unknowns.items;
      equations = p.equations.items;
    } };
}
