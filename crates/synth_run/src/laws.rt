//! What holds of every run.

ghost use Rattle.synth_run.specs.Laws.{OneTableForBytes, OneStayTextForBytes, OnePatrolTextForBytes};

pub use command_outcomes::laws::{
    one_outcome_per_text, one_trace_for_bytes, some_game_per_plant, some_outcome_per_text,
};

/// What holds of every demo plant.
pub mod demo {
    pub use demo_plants::laws::{
        demo_plants_are_solvable, demo_plants_are_within_limits, demo_plants_have_few_edges,
        demo_plants_have_no_overflow, demo_texts_spell, one_demo_line,
    };
}

/// Bytes that spell a plant have at most one table: `synth` has no choice of what to write.
pub fn one_table_for_bytes()
    ensures { OneTableForBytes }
{}

/// Bytes that spell a plant have at most one text of reach and stay: `stay` has no choice of what to write.
pub fn one_stay_text_for_bytes()
    ensures { OneStayTextForBytes }
{}

/// Bytes that spell a plant have at most one text of a patrol: `patrol` has no choice of what to write.
pub fn one_patrol_text_for_bytes()
    ensures { OnePatrolTextForBytes }
{}
