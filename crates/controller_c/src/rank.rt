//! The rank at a state.

ghost use Rattle.std.specs.Prelude.{Some};
ghost use Rattle.text_control.specs.Calls.{IsRanked};

use text_control::statuses::{NO_ROW, RANKED, WRONG_SIZE};
use text_control::{PackedText, rank_at};

/// Tells the rank of the state's cell: 1 where it has one, -1 where it has none, -2 at a wrong number of states.
pub(crate) fn copy_rank(text: &PackedText, state: &[i64], rank: &mut u32) -> i32
    ensures { IsRanked (Some text.now) state.now rank.new result }
{
    *rank = 0;
    if state.len() != text.plant().states() as usize {
        return WRONG_SIZE;
    }
    match rank_at(text, state) {
        Some(least) => {
            *rank = least;
            RANKED
        }
        None => NO_ROW,
    }
}
