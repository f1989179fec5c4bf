//! A row of either part of a layered matrix.

// A Q row or a T row.
#[derive(Clone, Copy, Drop)]
pub enum Row {
    Q(usize),
    T(usize),
}
