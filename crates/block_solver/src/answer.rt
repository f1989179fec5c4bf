//! What solving a model block by block gives.

use cert_text::Items;
use residue_field::Field;

/// What solving a model with a number for each symbol gives.
#[derive(Drop)]
pub enum Answer<F: Field> {
    /// The structural rank is below the number of equations or of unknowns.
    Open,
    /// This block of the form, counted from 1, has a rank below its size, and no block after it has: the matrix is singular.
    Singular(usize),
    /// The matrix is regular, and this is the number of each unknown.
    Solution(Items<F>),
}

/// What comes of the blocks of a form whose tails are empty.
#[derive(Drop)]
pub enum Outcome<F: Field> {
    /// This block, counted from 1, has dependent columns, and no block after it has.
    Dependent(usize),
    /// A number for each column.
    Solved(Items<F>),
}
