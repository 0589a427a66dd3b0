//! What holds of every text, and what one that keeps its promise does to a plant whose loop applies the answers.

ghost use Rattle.text_control.specs.Laws.{ReadTextsTell, OneTextRefusal, NoBytesAreBoth, NoBytesAreNeither, ReachLoopsArrive, KeepLoopsGoOn, StayLoopsSettle, PatrolLoopsGoOn};

/// Bytes say what is read from them.
pub fn read_texts_tell()
    ensures { ReadTextsTell }
{}

/// Bytes have at most one reason to be none of the three texts.
pub fn one_text_refusal()
    ensures { OneTextRefusal }
{}

/// No bytes are both one of the three texts and refused.
pub fn no_bytes_are_both()
    ensures { NoBytesAreBoth }
{}

/// No bytes are neither one of the three texts nor refused.
pub fn no_bytes_are_neither()
    ensures { NoBytesAreNeither }
{}

/// A table that drives its plant does so on every loop of its answers.
pub fn reach_loops_arrive()
    ensures { ReachLoopsArrive }
{}

/// A table that keeps its plant does so on every loop of its answers.
pub fn keep_loops_go_on()
    ensures { KeepLoopsGoOn }
{}

/// A stay text that settles its plant does so on every loop of its answers.
pub fn stay_loops_settle()
    ensures { StayLoopsSettle }
{}

/// A patrol text that patrols its plant's targets does so on every loop of its answers, where each state is visited.
pub fn patrol_loops_go_on()
    ensures { PatrolLoopsGoOn }
{}
