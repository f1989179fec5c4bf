//! That each input has an answer, what any two answers to one input share, what `check` says of a certificate that was
//! written, and how long an answer is.

ghost use Rattle.answer_laws.specs.Accepting.{AnalysedIsAccepted, AnalysedIsShort};
ghost use Rattle.answer_laws.specs.Agreement.{AnswersOfAnalyseAgree, AnswersOfLayerAreOne, AnswersOfMakeAreOne, WordsAskForOneThing};
ghost use Rattle.answer_laws.specs.Editing.{AnswersOfEditAreOne, EditIsDone};
ghost use Rattle.answer_laws.specs.EmptyRooms.{TheEmptyInputNeedsLittle};
ghost use Rattle.answer_laws.specs.OneAnswer.{AnswersHaveOneStatus, AnswersOfReportAreOne, EachInputIsAnswered};
ghost use Rattle.answer_laws.specs.OneLayerText.{ModelsHaveOneLayerText};
ghost use Rattle.answer_laws.specs.Rooms.{AnswersFit};

/// A model has one layer text.
pub fn a_model_has_one_layer_text()
    ensures { ModelsHaveOneLayerText }
{}

/// Whatever the words ask for, each input has an answer.
pub fn each_input_is_answered()
    ensures { EachInputIsAnswered }
{}

/// Any two answers to one input by the same words have the same status.
pub fn answers_have_one_status()
    ensures { AnswersHaveOneStatus }
{}

/// Any two certificates that answer one input agree in rank, shape, column parts, listing, lower lists, sizes of row
/// parts and T rows of parts.
pub fn answers_of_analyse_agree()
    ensures { AnswersOfAnalyseAgree }
{}

/// Any two layer texts that answer one input are the same.
pub fn answers_of_layer_are_one()
    ensures { AnswersOfLayerAreOne }
{}

/// Any two reports on one input are the same.
pub fn answers_of_report_are_one()
    ensures { AnswersOfReportAreOne }
{}

/// Any two texts about the made model of one size are the same.
pub fn answers_of_make_are_one()
    ensures { AnswersOfMakeAreOne }
{}

/// Any two texts that answer the same lines of commands are the same.
pub fn answers_of_edit_are_one()
    ensures { AnswersOfEditAreOne }
{}

/// Lines of commands of at most 8,388,608 bytes are answered by `Done` and the replies to them, whatever they are.
pub fn edit_is_done()
    ensures { EditIsDone }
{}

/// Words ask for one thing at most: a command on an input, or a made model.
pub fn words_ask_for_one_thing()
    ensures { WordsAskForOneThing }
{}

/// No answer to an input is longer than the room that its kind and its length give.
pub fn answers_fit_in_their_room()
    ensures { AnswersFit }
{}

/// A text that answers `analyse`, of any kind and over either field, is an input that `check` accepts.
pub fn what_is_analysed_is_accepted()
    ensures { AnalysedIsAccepted }
{}

/// A text that answers `analyse`, of any kind and over either field, has at most 1,451,663,500 bytes.
pub fn what_is_analysed_is_short()
    ensures { AnalysedIsShort }
{}

/// A text that answers the empty input has at most 115 bytes where it is a certificate, 14 for the layered matrix, 72 for
/// the report and none for the plan, over either field, 10 for its values and 17 for its conflict sets; `check`, `solve` and
/// `edit` write nothing of it.
pub fn the_empty_input_needs_little()
    ensures { TheEmptyInputNeedsLittle }
{}
