//! Repairs of a model.

use cert_text::{Ccf, Items};
use residue_field::Field;

/// A cost that equations have, and a canonical form of the model with the equations alone that cost at least as much.
#[derive(Drop)]
pub struct Level<F: Field> {
    pub cost: u64,
    pub ccf: Ccf<F>,
}

/// A repair of a model: which equations are kept, so that the others go. Its forms show that the kept ones are
/// independent, and that at each level as many are kept as may be; so no repair costs less.
#[derive(Drop)]
pub struct Repair<F: Field> {
    /// The equations that are kept, counted from 0 and rising.
    pub kept: Items<usize>,
    /// What the others cost together.
    pub cost: u64,
    /// A canonical form of the model with the kept equations alone.
    pub kept_ccf: Ccf<F>,
    /// The costs that equations have, falling, each with its form.
    pub levels: Items<Level<F>>,
}
