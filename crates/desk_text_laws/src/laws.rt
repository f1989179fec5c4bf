//! What a desk prints of a text is one thing, and not long.

ghost use Rattle.desk_text_laws.specs.Laws.{TextsAreShort, TextsHaveOneAnswer};

/// A text has at most one answer.
pub fn texts_have_one_answer()
    ensures { TextsHaveOneAnswer }
{}

/// An answer is no longer than the room that its text's length gives.
pub fn texts_are_short()
    ensures { TextsAreShort }
{}
