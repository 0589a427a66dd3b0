//! The work of one round: each cell of the list cuts the pairs that lead to it.
ghost use Rattle.std.specs.Prelude.{◌<◌, length, All};
ghost use Rattle.board_rounds.specs.inside.WorkerSteps.{IsRoundJob, IsAtWork};

use crate::rule::Rule;
use crate::worker::Worker;
use cell_counters::Board;
use frontier_pool::Toil;

/// How many cells make a block: the counters that a block's cells cut are loaded at once, before the block before it is done.
const CELLS_IN_BLOCK: u32 = 16;

/// The most pairs of a cell whose counters are loaded ahead of their cuts.
const PAIRS_AHEAD: usize = 16;

/// A round, as its workers see it. An item is a slot of the list.
#[derive(Drop)]
pub(crate) struct RoundJob<'a, L: Rule> {
    pub(crate) rule: &'a L,
    pub(crate) board: &'a Board,
    pub(crate) list: &'a [u32],
    pub(crate) round: u32,
    pub(crate) items: u32,
    pub(crate) ghost is_round_job: { IsRoundJob (L.game rule.now) list.now round items },
}

impl<L: Rule> Toil for RoundJob<'_, L> {
    type Hand = Worker;

    ghost done = { λ worker. worker.account.notes };

    ghost sound = { λ round_job worker. IsAtWork (L.game round_job.rule.now) (L.fits round_job.rule.now) (L.keeps round_job.rule.now round_job.round) round_job.board.now round_job.list.now worker };

    ghost count = { λ round_job. round_job.items };

    fn items(&self) -> u32 {
        self.items
    }

    fn one(&self, worker: &mut Worker, item: u32) {
        // A cut lets no later load begin: between cuts each would wait for memory alone.
        if item % CELLS_IN_BLOCK == 0 {
            let next = item as usize + CELLS_IN_BLOCK as usize;
            let from = if item == 0 { 0 } else { next };
            let to = self.list.len().min(next + CELLS_IN_BLOCK as usize);
            for slot in from..to {
                prefetch_list(self.board, self.rule.sources(self.list[slot]));
            }
        }
        let sources = self.rule.sources(self.list[item as usize]);
        for pair in sources {
            self.rule.cut(self.board, worker, self.round, *pair);
        }
        worker.note(self.board, item);
    }
}

/// Loads the counters of the first pairs of a list.
fn prefetch_list(board: &Board, pairs: &[u32])
    requires { All (λ pair. pair < length board.now.starts) pairs.now }
{
    let loaded = pairs.len().min(PAIRS_AHEAD);
    for pair in &pairs[..loaded] {
        board.prefetch(*pair);
    }
}
