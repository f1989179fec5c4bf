//! What a unit of a flowsheet adds to a model: unknowns of its own, and equations by its kind.
#![tactic(auto)]

mod adding;
mod equation_list;
mod equations;
mod kind;
mod naming;
mod part;
mod summands;
mod version;

pub use adding::add_part;
pub use equations::{balance, mixer, reactor, relation, separator, specification, tee};
pub use kind::UnitKind;
pub use naming::flow;
pub use part::{Summand, UnitEquation, UnitPart};
pub use version::Version;
