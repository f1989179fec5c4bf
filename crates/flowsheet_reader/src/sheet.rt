//! A flowsheet, as far as it was read.

use document_values::NameSet;
use mixed_model::Mixed;
use residue_field::Field;
use std::marker::Model;
use unit_equations::Version;

/// The names of a flowsheet's components, of its streams and of its units, and the model of its equations.
#[derive(Drop)]
pub(crate) struct Sheet<F: Field> {
    pub version: Version,
    pub components: NameSet,
    pub streams: NameSet,
    pub units: NameSet,
    pub model: Mixed<F>,
}

impl<F: Field> Model for Sheet<F> {
    ghost use Rattle.flowsheet_reader.specs.Keeping.{KeptSheet};

    ghost Value = { KeptSheet };

    ghost view = { λ s. record {
      version = s.version;
      components = s.components;
      streams = s.streams;
      units = s.units;
      model = s.model;
    } };
}
