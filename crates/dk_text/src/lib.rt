//! Dedukti text: its tokens, its grammar with names resolved, and the text that is printed.
#![tactic(auto)]

ghost use Rattle.dk_text.specs.Laws.{ReadingIsUnique, PrintedFileIsRead, AnswerIsUnique};

/// A text has at most one reading.
pub fn reading_is_unique()
    ensures { ReadingIsUnique }
{}

/// The printed text of a file has that file as its one reading.
pub fn printed_file_is_read()
    ensures { PrintedFileIsRead }
{}

/// A text has at most one answer of the reader.
pub fn answer_is_unique()
    ensures { AnswerIsUnique }
{}
