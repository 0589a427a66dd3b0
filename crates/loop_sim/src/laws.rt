//! What holds of every trace.

ghost use Rattle.loop_sim.specs.Laws.{NoisesLieInTheirRanges, RowsStandAtStates, TracesEnd};

/// Each noise of a trace lies in its range.
pub fn noises_lie_in_their_ranges()
    ensures { NoisesLieInTheirRanges }
{}

/// A state has the row of its cell, and none outside the domain.
pub fn rows_stand_at_states()
    ensures { RowsStandAtStates }
{}

/// A trace ends at its first line that is no sample's.
pub fn traces_end()
    ensures { TracesEnd }
{}
