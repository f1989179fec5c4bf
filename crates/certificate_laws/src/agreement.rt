//! What right canonical forms of one model have in common.

ghost use Rattle.certificate_laws.specs.Agreement.{RightFormsAgree};

/// Right forms of one model agree: in the rank, the column parts, their listing and lower lists, the T rows of each
/// part and its number of Q rows. S and the matches may differ. (Murota, chapters 2 and 4.)
pub fn right_forms_agree()
    ensures { RightFormsAgree }
{}
