//! All items by one hand.
ghost use Rattle.std.specs.Prelude.{◌≡◌, ◌≤◌, ◌++◌};
ghost use Rattle.std.specs.List.{range_with_len};

use crate::gate::Gate;
use crate::job::Toil;

/// Does the items below a number with one hand, in rising order, each after the gate (tested: `Gate`). The worker's number is 0.
///
/// It takes no memory and starts no thread.
pub fn one_by_one<T: Toil, G: Gate>(job: &T, hand: &mut T::Hand, items: u32, gate: &G)
    requires sound { T.sound job.now hand.old }
    requires items { items ≤ T.count job.now }
    ensures done { T.done hand.new ≡ T.done hand.old ++ range_with_len 0 items }
    ensures sound { T.sound job.now hand.new }
{
    for item in 0..items {
        gate.pass(0, item);
        job.one(hand, item);
    }
}
