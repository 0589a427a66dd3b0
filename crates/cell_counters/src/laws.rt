//! What lawful accounts show. Each call does nothing, and ensures its law.
ghost use Rattle.cell_counters.specs.Laws.{CountsDown, AnswersOnce, OneIsFirst, NothingDone, NewAnswers, NewFirsts, NewSlots};

/// At most as many cuts as the counter began with answer one number less each time.
pub fn counts_down()
    ensures { CountsDown }
{}

/// Each number that is left on the way is the answer of exactly one cut. Of as many cuts as the counter began with one answers 0.
pub fn answers_once()
    ensures { AnswersOnce }
{}

/// Exactly one offer on a word that began as `NONE` was first, and the word is the least of them.
pub fn one_is_first()
    ensures { OneIsFirst }
{}

/// With no account at all counters and minima are what they began as, and the log is empty.
pub fn nothing_done()
    ensures { NothingDone }
{}

/// Each number that a round of cuts newly reaches is the answer of exactly one of its cuts, and no other number is.
pub fn new_answers()
    ensures { NewAnswers }
{}

/// Of a round's offers on a word exactly one was first where the word had been free until then, and else none.
pub fn new_firsts()
    ensures { NewFirsts }
{}

/// The cells that a round logged stand at the slots after those of the rounds before.
pub fn new_slots()
    ensures { NewSlots }
{}
