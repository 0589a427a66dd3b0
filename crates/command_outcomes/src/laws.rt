//! What holds of what every text demands.

ghost use Rattle.command_outcomes.specs.OutcomeLaws.{OneOutcomePerText, OneTraceForBytes, SomeGamePerPlant, SomeOutcomePerText};

/// A table has at most one trace, from a start under the noises of a seed: `sim` has no choice of what to write.
pub fn one_trace_for_bytes()
    ensures { OneTraceForBytes }
{}

/// A text demands at most one thing: one refusal, or one answer.
pub fn one_outcome_per_text()
    ensures { OneOutcomePerText }
{}

/// No text demands nothing: each is refused for some reason, or is to be answered.
pub fn some_outcome_per_text()
    ensures { SomeOutcomePerText }
{}

/// No plant within the limits lacks a game; it has one at most.
pub fn some_game_per_plant()
    ensures { SomeGamePerPlant }
{}
