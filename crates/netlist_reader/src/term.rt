//! What an equation has at an unknown.

use residue_field::Field;
use std::marker::Model;
use term_model::Value;

/// What an equation has at an unknown, by their numbers.
#[derive(Drop)]
pub(crate) struct Term<F: Field> {
    pub equation: usize,
    pub unknown: usize,
    pub value: Value<F>,
}

impl<F: Field> Model for Term<F> {
    ghost use Rattle.term_model.specs.Putting.{constant_of_value, is_symbol};
    ghost use Rattle.netlist_reader.specs.Numbers.{NumberedTerm};

    ghost Value = { NumberedTerm };

    ghost view = { λ t. record {
      equation = t.equation;
      unknown = t.unknown;
      constant = constant_of_value F.number t.value;
      symbol = is_symbol t.value;
    } };
}
