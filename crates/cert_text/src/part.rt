//! The parts of a block triangular form, as a certificate prints them.

use crate::items::Items;

/// A part of a block triangular form: its columns, Q rows and T rows, counted from 0 and each list rising. (Murota,
/// chapters 2 and 4.)
#[derive(Drop)]
pub struct CcfPart {
    pub columns: Items<usize>,
    pub q_rows: Items<usize>,
    pub t_rows: Items<usize>,
}

/// A block, and the blocks right below it: those below it with no third block between, counted from 0 and rising.
#[derive(Drop)]
pub struct CcfBlock {
    pub part: CcfPart,
    pub lower: Items<usize>,
}
