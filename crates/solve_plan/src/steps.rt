//! A plan: the steps in which a model is solved.

use cert_text::Items;

/// Which part of a form a step solves: the first tail, a block, counted from 0, or the last tail.
#[derive(Clone, Copy, Debug, PartialEq, Eq)]
pub enum StepPart {
    First,
    Block(usize),
    Last,
}

/// How a row of a step is made of the equations of a model, counted from 0: a Q row of the form as a sum of equations,
/// each times its coefficient, which is never 0, by rising Q row; or a T row as the equation from which it comes.
#[derive(Drop)]
pub enum StepRow<T: Drop> {
    Combined(Items<(T, usize)>),
    Symbols(usize),
}

/// A step: the part of the form that it solves; its columns, rising; its rows, first those of the Q rows and then those
/// of the T rows; and the columns of other steps at which its rows have entries, rising. (Murota, chapters 2 and 4.)
#[derive(Drop)]
pub struct Step<T: Drop> {
    pub part: StepPart,
    pub columns: Items<usize>,
    pub rows: Items<StepRow<T>>,
    pub uses: Items<usize>,
}

/// The steps in which a model is solved, in order.
#[derive(Drop)]
pub struct Plan<T: Drop> {
    pub steps: Items<Step<T>>,
}
