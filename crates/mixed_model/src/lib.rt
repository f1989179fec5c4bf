//! Models: named equations over named unknowns, and the constants and symbols at their places; and layered matrices.
#![tactic(auto)]

mod entry;
mod errors;
mod layered;
mod mixed;
mod names;
mod origin;
mod rows;

pub use entry::{Entries, Entry};
pub use errors::AddError;
pub use layered::Layered;
pub use mixed::{Mixed, places_tell_a_model};
pub use names::{Names, is_label};
pub use origin::Origin;
pub use out_of_memory::NoMemory;
pub use refusals::{Place, ReadModel, Refused, Why};
