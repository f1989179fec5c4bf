//! Fields whose values are residues modulo a prime, and the residues modulo 65,521 and modulo 2,147,483,647.
#![tactic(auto)]

mod field;
mod field_name;
mod inverse;
mod lanes;
mod res;
mod res31;

pub use field::{Field, Vanish, values_form_a_field};
pub use field_name::FieldName;
pub use res::Res;
pub use res31::Res31;
