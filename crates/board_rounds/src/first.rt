//! The list of the first round.
ghost use Rattle.std.specs.Prelude.{◌≡◌, ◌≤◌, [], filter, vec_len};
ghost use Rattle.std.specs.Vec.{vec_capacity};
ghost use Rattle.std.specs.List.{range_with_len};
ghost use Rattle.cell_counters.specs.BoardModels.{new_root};

use crate::rule::Rule;
use cell_counters::{Board, Root};

/// Puts the cells on the list that the rule wants on the first.
pub(crate) fn first_list<L: Rule>(board: &Board, root: &mut Root, list: &mut Vec<u32>, rule: &L)
    requires board { L.fits rule.now board.now }
    requires root { root.old ≡ new_root board.now }
    requires none { list.old.items ≡ [] }
    requires capacity { (L.game rule.now).cells ≤ vec_capacity list.old }
    ensures root { root.new ≡ root.old }
    ensures list { list.new.items ≡ filter (L.first rule.now) (range_with_len 0 (L.game rule.now).cells) }
    ensures few { vec_len list.new ≤ (L.game rule.now).cells }
    ensures capacity { vec_capacity list.new ≡ vec_capacity list.old }
{
    for c in 0..rule.cells() {
        if rule.is_first(board, root, c) {
            list.push_reserved(c);
        }
    }
}
