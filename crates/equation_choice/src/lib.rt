//! Equations that are kept along an order where they may be, in one pass over one tableau, and the conflict sets of the
//! others (Murota, Matrices and Matroids for Systems Analysis, chapter 2: the greedy algorithm, and circuits).
#![tactic(auto)]

mod along;
mod back;
mod chooser;
mod conflicts;
mod first_sets;
mod list;
mod pair;
mod places;
mod repair;
mod told;

pub use along::kept;
pub use conflicts::{Conflicts, conflict_set, conflict_sets};
pub use out_of_memory::NoMemory;
pub use repair::kept_by_cost;
