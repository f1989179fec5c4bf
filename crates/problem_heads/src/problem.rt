//! Problems.

use residue_field::Field;

/// What is asked of a model: to be solved with a value for each symbol, by rising equation and then unknown, and a
/// right side for each equation; or to be repaired, where each equation has a cost of at most 999,999,999, and at most
/// 16 costs differ.
#[derive(Drop)]
pub enum Problem<F: Field> {
    Solve { values: Vec<F>, right: Vec<F> },
    Repair { costs: Vec<u64> },
}
