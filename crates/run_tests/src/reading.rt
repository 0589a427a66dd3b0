//! Stay texts and patrol texts that are read.

use crate::plants::{DOCKS_TEXT, LINE_TEXT};
use controller_table::TableFault;
use controller_table::laws::{no_text_is_neither, no_text_is_refused, one_refusal};
use game_core::Row;
use std::alloc::Global;
use std::test::Fail;
use temporal_texts::laws::{patrol_trajectories_go_on, stay_trajectories_settle};
use temporal_texts::{PatrolFault, read_patrol, read_stay};

/// A rank as great as the number of cells.
const FAR_STAY: &[u8] =
    b"stay 1\nplant 1\nstate x 0 14 3\ninput u -3 0 3\nnext x = x + u\ntarget 12 14\ngoal reach\nend\nrows 1\n0 0 5 2\nend\n";

/// The second turn has the number of the first.
const SAME_TURN: &[u8] =
    b"patrol 1\nplant 1\nstate x 0 14 3\ninput u -3 3\nnext x = x + u\ntarget 0 2\ntarget 12 14\ngoal reach\nend\nturn 0 rows 1\n1 1 1 0\nturn 0 rows 0\nend\n";

/// More than 4,194,304 cells over its 5 targets.
const LONG_PATROL: &[u8] =
    b"patrol 1\nplant 1\nstate x 0 1048575 1\ninput u 1\nnext x = x + u\ntarget 0 1\ntarget 0 2\ntarget 0 3\ntarget 0 4\ntarget 0 5\ngoal reach\nend\n";

/// Whether the stay text has its five rows, and that with a greater rank is refused at its row's line.
fn has_stay_rows(alloc: Global) -> bool {
    one_refusal();
    no_text_is_refused();
    no_text_is_neither();
    stay_trajectories_settle();
    let Ok(stay) = read_stay(alloc, LINE_TEXT) else {
        return false;
    };
    let rows = stay.answer();
    rows.cells() == 5
        && rows.row(0) == Some(Row { rank: 4, input: 2 })
        && rows.row(4) == Some(Row { rank: 0, input: 1 })
        && matches!(
            read_stay(alloc, FAR_STAY),
            Err(TableFault::Malformed { line: 10 })
        )
}

/// Whether the patrol text has its two turns, and the others are refused at the second turn's line and for their turns.
fn has_patrol_rows(alloc: Global) -> bool {
    patrol_trajectories_go_on();
    let Ok(patrol) = read_patrol(alloc, DOCKS_TEXT) else {
        return false;
    };
    if patrol.turns() != 2 {
        return false;
    }
    let rows = patrol.answers();
    rows.turn(1).cells() == 5
        && rows.row(1, 4) == Some(Row { rank: 2, input: 0 })
        && matches!(
            read_patrol(alloc, SAME_TURN),
            Err(PatrolFault::Malformed { line: 12 })
        )
        && matches!(read_patrol(alloc, LONG_PATROL), Err(PatrolFault::Turns))
}

#[test]
fn stay_texts_are_read(rt: HostRuntime) -> Result<(), Fail> {
    assert!(rt; has_stay_rows(rt.alloc()));
    Ok(())
}

#[test]
fn patrol_texts_are_read(rt: HostRuntime) -> Result<(), Fail> {
    assert!(rt; has_patrol_rows(rt.alloc()));
    Ok(())
}
