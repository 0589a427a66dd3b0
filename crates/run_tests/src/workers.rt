//! The top call by several workers.

use crate::meeting::{MANY, Rendezvous};
use crate::plants::{DOCKS, DOCKS_TEXT, LINE, LINE_TEXT, PLANT, TABLE};
use crate::trial::{CLEAN, run_on};
use controller_table::laws::one_text;
use std::alloc::Global;
use std::test::Fail;
use std::thread::Threads;
use synth_run::Open;
use synth_run::laws::some_game_per_plant;
use temporal_promises::laws::{patrol_solutions_patrol, stay_solutions_settle};

/// Two goals, 9 to 11 and 12 to 14, so that round 0 has two items.
const CORRIDOR: &[u8] =
    b"plant 1\nstate x 0 14 3\ninput u 4 7\nnoise w -1 1\nnext x = x + u + w\ntarget 9 14\ngoal reach\nend\n";

/// A cell's box is its centre and the input, minus and plus 2: cell 0 comes to cells 1 to 3, of rank 1 at most, by either
/// input; cell 1 to 3 and 4 by the second, cell 2 by the first.
const CORRIDOR_TABLE: &[u8] =
    b"table 2\nplant 1\nstate x 0 14 3\ninput u 4 7\nnoise w -1 1\nnext x = x + u + w\ntarget 9 14\ngoal reach\nend\nrows 4\n0 0 2 0\n1 1 1 1\n2 2 1 0\n3 4 0 -\nend\n";

/// Two obstacles, the items of round 0. The other cells stay where they are.
const ENDS: &[u8] =
    b"plant 1\nstate x 0 14 3\ninput u 0\nnext x = x + u\nobstacle 0 2\nobstacle 12 14\ngoal keep\nend\n";

const ENDS_TABLE: &[u8] =
    b"table 2\nplant 1\nstate x 0 14 3\ninput u 0\nnext x = x + u\nobstacle 0 2\nobstacle 12 14\ngoal keep\nend\nrows 1\n1 3 - 0\nend\n";

/// The cells 0 and 1 are no goals, the items of the first round. Cell 2 can't go left, cells 3 and 4 can.
const ROOM: &[u8] =
    b"plant 1\nstate x 0 14 3\ninput u -3 0 3\nnext x = x + u\ntarget 6 14\ngoal reach\nend\n";

const ROOM_TEXT: &[u8] =
    b"stay 1\nplant 1\nstate x 0 14 3\ninput u -3 0 3\nnext x = x + u\ntarget 6 14\ngoal reach\nend\nrows 4\n0 0 2 2\n1 1 1 2\n2 2 0 1\n3 4 0 0\nend\n";

/// Every cell is a goal and stays where it is: none falls, and the goals are the items of the first round.
const HOME: &[u8] =
    b"plant 1\nstate x 0 14 3\ninput u 0\nnext x = x + u\ntarget 0 14\ngoal reach\nend\n";

const HOME_TEXT: &[u8] =
    b"stay 1\nplant 1\nstate x 0 14 3\ninput u 0\nnext x = x + u\ntarget 0 14\ngoal reach\nend\nrows 1\n0 4 0 0\nend\n";

/// Two cells lie in each target, the items of a first round.
const ROUND: &[u8] =
    b"plant 1\nstate x 0 14 3\ninput u -3 3\nnext x = x + u\ntarget 0 5\ntarget 9 14\ngoal reach\nend\n";

const ROUND_TEXT: &[u8] =
    b"patrol 1\nplant 1\nstate x 0 14 3\ninput u -3 3\nnext x = x + u\ntarget 0 5\ntarget 9 14\ngoal reach\nend\nturn 0 rows 4\n0 0 1 1\n1 2 1 0\n3 3 2 0\n4 4 3 0\nturn 1 rows 4\n0 0 3 1\n1 1 2 1\n2 3 1 1\n4 4 1 0\nend\n";

/// Two obstacles, the items of the first round: they fall. The cells between them are the target, and stay in it.
const YARD: &[u8] =
    b"plant 1\nstate x 0 14 3\ninput u 0\nnext x = x + u\ntarget 3 11\nobstacle 0 2\nobstacle 12 14\ngoal reach\nend\n";

const YARD_TEXT: &[u8] =
    b"patrol 1\nplant 1\nstate x 0 14 3\ninput u 0\nnext x = x + u\ntarget 3 11\nobstacle 0 2\nobstacle 12 14\ngoal reach\nend\nturn 0 rows 1\n1 3 1 0\nend\n";

/// Whether the first two items of a plant meet as told, and its table is written.
fn do_meet<R: Threads + Sync>(
    rt: &R,
    alloc: Global,
    arguments: &[&str],
    turns: u32,
    text: &[u8],
    table: &[u8],
) -> Result<[bool; 2], Fail> {
    let gate = Rendezvous::of(turns);
    let tried = run_on(rt, alloc, arguments, text, &CLEAN, &gate)?;
    Ok([gate.met(), tried.gave(0, table, b"")])
}

#[test]
fn two_workers_meet_where_a_plant_is_won(rt: HostRuntime) -> Result<(), Fail> {
    let told = do_meet(
        &rt,
        rt.alloc(),
        &["synth", "2"],
        MANY,
        CORRIDOR,
        CORRIDOR_TABLE,
    )?;
    assert!(rt; told == [true, true]);
    Ok(())
}

#[test]
fn two_workers_meet_where_a_plant_is_kept(rt: HostRuntime) -> Result<(), Fail> {
    let told = do_meet(&rt, rt.alloc(), &["synth", "2"], MANY, ENDS, ENDS_TABLE)?;
    assert!(rt; told == [true, true]);
    Ok(())
}

/// The second goal comes to the gate only after the first was let go: as many workers are at work as the word asks for, and
/// the table is that of two.
#[test]
fn one_worker_meets_nobody(rt: HostRuntime) -> Result<(), Fail> {
    let told = do_meet(
        &rt,
        rt.alloc(),
        &["synth", "1"],
        10,
        CORRIDOR,
        CORRIDOR_TABLE,
    )?;
    assert!(rt; told == [false, true]);
    Ok(())
}

#[test]
fn two_workers_meet_in_a_demo(rt: HostRuntime) -> Result<(), Fail> {
    let gate = Rendezvous::of(MANY);
    let tried = run_on(&rt, rt.alloc(), &["demo", "1", "2"], b"", &CLEAN, &gate)?;
    assert!(rt; gate.met() && tried.status == 0);
    Ok(())
}

/// Whether each number of workers writes the table, and leaves a board.
fn do_leave_boards<R: Threads + Sync>(rt: &R, alloc: Global) -> Result<bool, Fail> {
    let mut good = true;
    for workers in ["1", "7", "64"] {
        let tried = run_on(rt, alloc, &["synth", workers], PLANT, &CLEAN, &Open)?;
        good = good && tried.gave(0, TABLE, b"") && tried.has_board;
    }
    Ok(good)
}

#[test]
fn each_number_of_workers_leaves_a_board(rt: HostRuntime) -> Result<(), Fail> {
    assert!(rt; do_leave_boards(&rt, rt.alloc())?);
    Ok(())
}

#[test]
fn two_workers_meet_where_a_plant_is_to_stay(rt: HostRuntime) -> Result<(), Fail> {
    let told = do_meet(&rt, rt.alloc(), &["stay", "2"], MANY, ROOM, ROOM_TEXT)?;
    assert!(rt; told == [true, true]);
    Ok(())
}

#[test]
fn two_workers_meet_on_the_way_to_stay(rt: HostRuntime) -> Result<(), Fail> {
    let told = do_meet(&rt, rt.alloc(), &["stay", "2"], MANY, HOME, HOME_TEXT)?;
    assert!(rt; told == [true, true]);
    Ok(())
}

#[test]
fn two_workers_meet_in_a_patrol(rt: HostRuntime) -> Result<(), Fail> {
    let told = do_meet(&rt, rt.alloc(), &["patrol", "2"], MANY, ROUND, ROUND_TEXT)?;
    assert!(rt; told == [true, true]);
    Ok(())
}

#[test]
fn two_workers_meet_where_cells_fall_before_a_patrol(rt: HostRuntime) -> Result<(), Fail> {
    let told = do_meet(&rt, rt.alloc(), &["patrol", "2"], MANY, YARD, YARD_TEXT)?;
    assert!(rt; told == [true, true]);
    Ok(())
}

/// Whether one worker and seven write the same text by a word.
fn do_write<R: Threads + Sync>(
    rt: &R,
    alloc: Global,
    word: &str,
    text: &[u8],
    table: &[u8],
) -> Result<bool, Fail> {
    some_game_per_plant();
    let mut good = true;
    for workers in ["1", "7"] {
        let tried = run_on(rt, alloc, &[word, workers], text, &CLEAN, &Open)?;
        good = good && tried.gave(0, table, b"") && !tried.has_board;
    }
    Ok(good)
}

#[test]
fn stay_text_ends_where_the_plant_can_stay(rt: HostRuntime) -> Result<(), Fail> {
    one_text();
    stay_solutions_settle();
    assert!(rt; do_write(&rt, rt.alloc(), "stay", LINE, LINE_TEXT)?);
    Ok(())
}

#[test]
fn patrol_text_has_a_turn_for_each_target(rt: HostRuntime) -> Result<(), Fail> {
    one_text();
    patrol_solutions_patrol();
    assert!(rt; do_write(&rt, rt.alloc(), "patrol", DOCKS, DOCKS_TEXT)?);
    Ok(())
}
