//! The workers of a round: how they are made, do the items, and are taken in.
ghost use Rattle.std.specs.Prelude.{◌≡◌, ◌+◌, ◌<◌, ◌≤◌, [], ◌++◌, length, reverse, All, vec_len};
ghost use Rattle.std.specs.Vec.{vec_capacity};
ghost use Rattle.cell_counters.specs.BoardModels.{IsLawful};
ghost use Rattle.frontier_pool.specs.Sweeps.{HaveSwept, IsIdle};
ghost use Rattle.board_rounds.specs.Crew.{IsFresh, accounts_of, IsTalliedBy};
ghost use Rattle.base.specs.declared.limits.TheConstants.{WORKERS_LIMIT};

use crate::worker::Worker;
use cell_counters::{Board, Root};
use frontier_pool::{Gate, Member, Toil, one_by_one, sweep};
use game_core::Tally;
use std::alloc::Global;
use std::thread::Threads;

/// Makes so many workers with new hands.
pub(crate) fn add_workers(
    board: &Board,
    root: &mut Root,
    members: &mut Vec<Member<Worker>>,
    count: u32,
)
    requires root { root.old.board ≡ board.now }
    requires hands { root.old.out + count ≤ WORKERS_LIMIT }
    requires none { members.old.items ≡ [] }
    requires capacity { count ≤ vec_capacity members.old }
    ensures root { root.new ≡ record root.old { out = root.old.out + count } }
    ensures members { vec_len members.new ≡ count }
    ensures fresh { All (IsFresh board.now) members.new.items }
    ensures capacity { vec_capacity members.new ≡ vec_capacity members.old }
{
    for _worker in 0..count {
        let worker = Worker::new(board.hand(root));
        members.push_reserved(Member::new(worker));
    }
}

/// The members do all items of a toil, each with exactly one of their hands, once, after the gate (tested: `Gate`).
///
/// One member does them in rising order, and takes no memory. More work beside one another as in a sweep.
pub(crate) fn work<R: Threads + Sync, T: Toil, G: Gate>(
    rt: &R,
    alloc: Global,
    job: &T,
    members: &mut [Member<T::Hand>],
    gate: &G,
)
    requires members { (0 < length members.old) × (length members.old ≤ WORKERS_LIMIT) }
    requires sound { All (λ m. T.sound job.now m.hand) members.old }
    ensures swept { HaveSwept T.done members.old members.new (T.count job.now) }
    ensures sound { All (λ m. T.sound job.now m.hand) members.new }
    ensures idle { All IsIdle members.old → All IsIdle members.new }
{
    let items = job.items();
    if members.len() == 1 {
        let first = &mut members[0];
        one_by_one(job, &mut first.hand, items, gate);
    } else {
        sweep(rt, alloc, job, members, items, gate);
    }
}

/// Takes all hands in, the last member's first, and adds up what the workers counted.
pub(crate) fn take_in(
    board: &Board,
    root: &mut Root,
    members: &mut Vec<Member<Worker>>,
    tally: &mut Tally,
)
    requires root { (root.old.board ≡ board.now) × (root.old.out ≡ vec_len members.old) }
    requires some { 0 < vec_len members.old }
    requires members { All (λ m. m.hand.board ≡ board.now) members.old.items }
    ensures root { (root.new.board ≡ board.now) × (root.new.out ≡ 0) }
    ensures accounts { root.new.accounts ≡ root.old.accounts ++ reverse (accounts_of members.old.items) }
    ensures lawful { IsLawful root.new.accounts board.now.starts board.now.least }
    ensures members { members.new.items ≡ [] }
    ensures capacity { vec_capacity members.new ≡ vec_capacity members.old }
    ensures rounds { tally.new.rounds ≡ tally.old.rounds }
    ensures tally { IsTalliedBy root.old.accounts tally.old → IsTalliedBy root.new.accounts tally.new }
{
    while let Some(member) = members.pop() {
        let Worker { hand, cuts, offers } = member.into_hand();
        board.take_in(root, hand);
        tally.cuts = tally.cuts.wrapping_add(cuts);
        tally.offers = tally.offers.wrapping_add(offers);
    }
}
