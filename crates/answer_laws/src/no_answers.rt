//! Texts that answer nothing: what the ranges and counts of a format leave out.
ghost use Rattle.answer_laws.specs.NoAnswers.{TheEmptyInputHasOneAnswer, NoColumnIsMadeUp, NoBlockIsEmpty, NoListLeavesItsRange, NoColumnLineIsMadeUp};

/// The empty input of each kind has one certificate, over each field.
pub fn the_empty_input_has_one_answer()
    ensures { TheEmptyInputHasOneAnswer }
{}

/// The certificate of the empty input with a column 6 in its first tail is no answer.
pub fn no_column_is_made_up()
    ensures { NoColumnIsMadeUp }
{}

/// The certificate of the empty input with a block of nothing is no answer.
pub fn no_block_is_empty()
    ensures { NoBlockIsEmpty }
{}

/// A certificate of `eq a x=1` of which lists leave their range and one names a number twice is no answer.
pub fn no_list_leaves_its_range()
    ensures { NoListLeavesItsRange }
{}

/// A layer text of `eq a x=1` with a line for a second column is no answer.
pub fn no_column_line_is_made_up()
    ensures { NoColumnLineIsMadeUp }
{}
