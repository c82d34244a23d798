//! Laws of masks.
ghost use Rattle.review_texts.specs.Laws.{ReadIsLeft, LinesStay, CountStays, OneMaskedText, NothingFits, NotesFitNothing};
ghost use Rattle.review_texts.specs.Laws.{MaskedWithHost, NamesStandForEscapes, UnmaskedWithHost};
ghost use Rattle.review_texts.specs.Meaning.{BoundsHold, EachIsExpression};

/// The text of a file that the fixed parser reads is left alone, byte for byte.
pub fn read_lines_are_left_alone()
    ensures { ReadIsLeft }
{}

/// Each line of a masked text begins at the physical line at which it was written, and no physical line is added or lost.
pub fn lines_stay()
    ensures places { LinesStay }
    ensures count { CountStays }
{}

/// A text has at most one masked text.
pub fn texts_have_one_mask()
    ensures { OneMaskedText }
{}

/// No command fits what stands in place of `list`.
pub fn no_command_is_listed()
    ensures { NothingFits }
{}

/// No command fits what stands for a note.
pub fn notes_fit_nothing()
    ensures { NotesFitNothing }
{}

/// What stands in place of `%h` is the part of the host's name before its first dot, and leads to no folder.
pub fn names_stand_for_escapes()
    ensures { NamesStandForEscapes }
{}

/// The name of a host changes nothing of a line that is not refused for `%h`, behind its masks.
pub fn hosts_matter_for_escapes()
    ensures unmasked { UnmaskedWithHost }
    ensures masked { MaskedWithHost }
{}

/// Each text that is read as a regular expression is written as one.
pub fn each_is_expression()
    ensures { EachIsExpression }
{}

/// Each path that a regular expression below a folder fits is that of a file of the folder, so what stands for the expression takes no
/// command away.
pub fn bounds_hold()
    ensures { BoundsHold }
{}
