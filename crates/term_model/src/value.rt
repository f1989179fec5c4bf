//! What an equation has at an unknown.

use residue_field::Field;

/// What stands at a place.
#[derive(Clone, Copy)]
pub enum Value<F: Field> {
    /// A constant other than 0.
    Constant(F),
    Symbol,
}
