//! That there is what a desk answers.

ghost use Rattle.desk_existence_laws.specs.Laws.{EachEditHasAModel, EachLineHasAReply, EachModelIsTold};
ghost use Rattle.desk_existence_laws.specs.Laws.{EachTextHasAnAnswer};

/// Each edit that is not refused leaves a model.
pub fn each_edit_has_a_model()
    ensures { EachEditHasAModel }
{}

/// Each model has a rank, and its layered matrix has canonical parts that are listed. (Murota, chapters 2 and 4.)
pub fn each_model_is_told()
    ensures { EachModelIsTold }
{}

/// Each line has a reply, and leaves as many models.
pub fn each_line_has_a_reply()
    ensures { EachLineHasAReply }
{}

/// Each text has an answer of a desk.
pub fn each_text_has_an_answer()
    ensures { EachTextHasAnAnswer }
{}
