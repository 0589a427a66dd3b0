//! What the text that is written for a plant's bytes does, once it is read again, to the plant that they spell: on every loop
//! of the answers.

ghost use Rattle.driven_loops.specs.Laws.{AnswersAreWritten, WrittenTextsAreRead, WrittenTablesEnd, WrittenTablesKeep, WrittenStayTextsSettle, WrittenPatrolTextsGoOn};

/// Status 0 of a command that writes such a text says that one was written for the bytes.
pub fn answers_are_written()
    ensures { AnswersAreWritten }
{}

/// Each text that is written can be read again: only want of memory can keep it from being opened.
pub fn written_texts_are_read()
    ensures { WrittenTextsAreRead }
{}

/// A loop by the table of a plant that is to reach its targets ends there, if it goes on while there are values to apply.
pub fn written_tables_end()
    ensures { WrittenTablesEnd }
{}

/// The table of a plant that is to be kept keeps it.
pub fn written_tables_keep()
    ensures { WrittenTablesKeep }
{}

/// The text of reach and stay settles its plant in the targets.
pub fn written_stay_texts_settle()
    ensures { WrittenStayTextsSettle }
{}

/// The text of a patrol brings its plant into its targets in turn, for ever.
pub fn written_patrol_texts_go_on()
    ensures { WrittenPatrolTextsGoOn }
{}
