//! Laws of the layered matrix of a model that is edited: what becomes of its rows and columns where an equation is added,
//! removed or changed, and how far its structural rank goes. No code.
#![tactic(auto)]

pub mod change_laws;
pub mod removal_laws;
pub mod rest_laws;
