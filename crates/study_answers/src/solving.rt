//! How a model with values for its symbols is solved.

use cert_text::Items;
use residue_field::Field;

/// How a model with a value for each symbol and a right side for each equation is solved.
#[derive(Drop)]
pub enum Solving<F: Field> {
    /// No values make it regular: this is its structural rank, below the number of equations or of unknowns.
    Open(usize),
    /// These values make it singular: the number, counted from 1, of the last block of a right form that is singular, and its
    /// columns.
    Singular(usize, Items<usize>),
    /// These values make it regular: the number of each unknown.
    Solution(Items<F>),
}
