//! Laws of the answers of a run, and a run over memory.
#![tactic(auto)]

mod in_memory;
mod laws;
mod no_answers;
#[cfg(test)]
mod tests;

pub use in_memory::{answer, run_in_memory};
pub use laws::{
    a_model_has_one_layer_text, answers_fit_in_their_room, answers_have_one_status,
    answers_of_analyse_agree, answers_of_edit_are_one, answers_of_layer_are_one,
    answers_of_make_are_one, answers_of_report_are_one, each_input_is_answered, edit_is_done,
    the_empty_input_needs_little, what_is_analysed_is_accepted, what_is_analysed_is_short,
    words_ask_for_one_thing,
};
pub use no_answers::{
    no_block_is_empty, no_column_is_made_up, no_column_line_is_made_up, no_list_leaves_its_range,
    the_empty_input_has_one_answer,
};
