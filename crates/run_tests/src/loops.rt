//! Loops of the answers of texts that are written and read again, and the laws that say where they come.

use crate::plants::{DOCKS, LINE, PLANT};
use crate::trial::{CLEAN, run_on};
use driven_loops::followed::{
    calls_are_followed, followed_patrol_texts_go_on, followed_stay_texts_settle,
    followed_tables_end, followed_tables_keep, indices_tell, loops_are_followed, no_false_alarms,
};
use driven_loops::laws::{
    answers_are_written, written_patrol_texts_go_on, written_stay_texts_settle, written_tables_end,
    written_tables_keep, written_texts_are_read,
};
use std::alloc::Global;
use std::test::Fail;
use std::thread::Threads;
use synth_run::Open;
use text_control::{Follow, PackedText, Reply, Visit, control, follows, read_text, visit};

/// The plant of the trials, to be kept within its range.
const KEEP: &[u8] = b"plant 1\nstate x 0 14 3\ninput u -3 3\nnext x = x + u\ngoal keep\nend\n";

/// How many samples a loop has at most.
const SAMPLES: u32 = 20;

/// The text that a word writes for a plant, as it is read again.
fn written<R: Threads + Sync>(
    rt: &R,
    alloc: Global,
    word: &str,
    plant: &[u8],
) -> Result<PackedText, Fail> {
    answers_are_written();
    written_texts_are_read();
    let trial = run_on(rt, alloc, &[word, "1"], plant, &CLEAN, &Open)?;
    Ok(read_text(alloc, trial.out.got())?)
}

/// What a loop from a state does, as long as inputs are to be applied and for so many samples at most: the last reply, the last
/// state, and how many samples there were.
fn driven(text: &PackedText, start: i64, most: u32) -> (Reply, i64, u32) {
    let mut state = [start];
    let mut input = [0];
    for sample in 0..most {
        let reply = control(text, &state, &mut input);
        if reply != Reply::Apply {
            return (reply, state[0], sample);
        }
        state[0] = state[0].wrapping_add(input[0]);
    }
    (Reply::Apply, state[0], most)
}

/// Whether a loop from the first state ends in the target after four samples.
fn ends(text: &PackedText) -> bool {
    written_tables_end();
    followed_tables_end();
    loops_are_followed();
    driven(text, 0, SAMPLES) == (Reply::Arrived, 12, 4)
        && driven(text, 14, SAMPLES) == (Reply::Arrived, 14, 0)
        && driven(text, 15, SAMPLES) == (Reply::NoRow, 15, 0)
}

/// Whether each sample of a loop from a state leads into its box, and a state one cell further on doesn't lie there.
fn is_followed(text: &PackedText, start: i64) -> bool {
    no_false_alarms();
    let mut state = [start];
    let mut input = [0];
    for _ in 0..SAMPLES {
        if control(text, &state, &mut input) != Reply::Apply {
            return true;
        }
        let next = [state[0].wrapping_add(input[0])];
        let beyond = [next[0].wrapping_add(3)];
        if follows(text, &state, &input, &next) != Follow::Inside
            || follows(text, &state, &input, &beyond) != Follow::Outside
        {
            return false;
        }
        state[0] = next[0];
    }
    true
}

/// Whether a loop from a state goes on.
fn goes_on(text: &PackedText, start: i64) -> bool {
    written_tables_keep();
    followed_tables_keep();
    indices_tell();
    let (reply, last, samples) = driven(text, start, SAMPLES);
    reply == Reply::Apply && 0 <= last && last <= 14 && samples == SAMPLES
}

/// Whether a loop from the first state lies in the target after so many samples, and is still driven there.
fn settles(text: &PackedText, samples: u32) -> bool {
    written_stay_texts_settle();
    followed_stay_texts_settle();
    driven(text, 0, samples) == (Reply::Apply, 12, samples)
}

/// How many turns a loop from the first state begins, where each state but the first is visited.
fn turns_of(text: &mut PackedText) -> u32 {
    written_patrol_texts_go_on();
    followed_patrol_texts_go_on();
    calls_are_followed();
    let mut state = [0];
    let mut input = [0];
    let mut turns: u32 = 0;
    for sample in 0..SAMPLES {
        if sample > 0 && visit(text, &state) == Visit::Next {
            turns = turns.wrapping_add(1);
        }
        if control(text, &state, &mut input) != Reply::Apply {
            return 0;
        }
        state[0] = state[0].wrapping_add(input[0]);
    }
    turns
}

#[test]
fn a_written_table_brings_its_loop_to_the_target(rt: HostRuntime) -> Result<(), Fail> {
    let text = written(&rt, rt.alloc(), "synth", PLANT)?;
    assert!(rt; ends(&text));
    assert!(rt; is_followed(&text, 1));
    Ok(())
}

#[test]
fn a_written_table_keeps_its_loop_in_the_range(rt: HostRuntime) -> Result<(), Fail> {
    let text = written(&rt, rt.alloc(), "synth", KEEP)?;
    assert!(rt; goes_on(&text, 0));
    assert!(rt; goes_on(&text, 14));
    assert!(rt; is_followed(&text, 14));
    Ok(())
}

#[test]
fn a_written_stay_text_settles_its_loop(rt: HostRuntime) -> Result<(), Fail> {
    let text = written(&rt, rt.alloc(), "stay", LINE)?;
    assert!(rt; settles(&text, 4));
    assert!(rt; settles(&text, 5));
    assert!(rt; settles(&text, SAMPLES));
    Ok(())
}

/// From 0 to 12 it is four samples, back to 0 four, and so on: the first turn, to the target at 0, ends at its second visit.
#[test]
fn a_written_patrol_text_begins_turn_after_turn(rt: HostRuntime) -> Result<(), Fail> {
    let mut text = written(&rt, rt.alloc(), "patrol", DOCKS)?;
    assert!(rt; turns_of(&mut text) == 5);
    Ok(())
}
