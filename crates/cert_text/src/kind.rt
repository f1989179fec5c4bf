//! The kinds of an input text.

/// The kind of an input text.
#[derive(Clone, Copy, Debug, PartialEq, Eq)]
pub enum Kind {
    /// An equation list.
    Matrix,
    /// A circuit.
    Netlist,
    /// A plant.
    Flowsheet,
}
