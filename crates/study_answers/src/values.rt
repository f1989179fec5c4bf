//! Values that reach the rank, each at its place.

use cert_text::Items;
use residue_field::Field;
use symbol_places::SymbolPlace;

/// A value for a symbol.
#[derive(Drop)]
pub struct ValueAt<F: Field> {
    pub place: SymbolPlace,
    pub value: F,
}

/// The structural rank of a model, and a value for each symbol, by rising equation and then unknown.
#[derive(Drop)]
pub struct Values<F: Field> {
    pub rank: usize,
    pub values: Items<ValueAt<F>>,
}
