//! The forms of heads.

/// What is asked of a model: `Solve` for a solution with values for its symbols and right sides, `Repair` for equations
/// that are left out at the least cost.
#[derive(Clone, Copy, Debug, PartialEq, Eq)]
pub enum Form {
    Solve,
    Repair,
}
