//! The sizes of a model and of its layered matrix.

/// The numbers of equations and unknowns of a model, and of the Q rows, T rows and columns of its layered matrix. All
/// are at most 4,096, and there are at most 8,192 columns. (Murota, chapter 4.)
#[derive(Clone, Copy, Debug, PartialEq, Eq)]
pub struct Shape {
    pub equations: usize,
    pub unknowns: usize,
    pub q_rows: usize,
    pub t_rows: usize,
    pub columns: usize,
}
