//! What workers logged, as a list.
ghost use Rattle.std.specs.Prelude.{◌≡◌, ◌^◌, ◌<◌, ◌≤◌};
ghost use Rattle.std.specs.Vec.{vec_capacity};
ghost use Rattle.cell_counters.specs.Accounts.{log_count};
ghost use Rattle.board_rounds.specs.inside.RoundInvariant.{cells_logged_from};

use cell_counters::{Board, Root};

/// Puts on the list what was logged since, and answers how many slots of the log were put on a list then.
pub(crate) fn read_log(board: &Board, root: &mut Root, list: &mut Vec<u32>, listed: u32) -> u32
    requires root { (root.old.board ≡ board.now) × (root.old.out ≡ 0) }
    requires slots { (log_count root.old.accounts ≤ board.now.slots) × (board.now.slots ≤ vec_capacity list.old) }
    requires few { log_count root.old.accounts < 2 ^ 64 }
    requires listed { listed ≤ log_count root.old.accounts }
    ensures root { root.new ≡ root.old }
    ensures listed { result ≡ log_count root.old.accounts }
    ensures list { list.new.items ≡ cells_logged_from listed root.old.accounts }
    ensures capacity { vec_capacity list.new ≡ vec_capacity list.old }
{
    let filled = board.log_len(root);
    list.clear();
    for at in listed..filled {
        list.push_reserved(board.logged(root, at));
    }
    filled
}
