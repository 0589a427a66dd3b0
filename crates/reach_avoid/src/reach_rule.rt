//! The rule of a reach game: the cut that leaves nothing of a pair makes an offer to the pair's cell, and the cell's minimum determines its row.
ghost use Rattle.std.specs.Prelude.{◌≡◌, ◌^◌, ◌<◌, ◌≤◌, Some};
ghost use Rattle.game_core.specs.declared.game.Row.{Row};
ghost use Rattle.game_core.specs.Game.{IsGraph, pairs_of};
ghost use Rattle.reach_avoid.specs.ReachBoards.{IsBoardOf};
ghost use Rattle.reach_avoid.specs.inside.ReachRounds.{row_in};
ghost use Rattle.reach_avoid.specs.inside.ReachSteps.{DueOffers, Cuts};
ghost use Rattle.base.specs.declared.limits.TheConstants.{CELLS_LIMIT};

use base::limits::VECTORS_LIMIT;
use board_rounds::{Rule, Worker};
use cell_counters::{Board, NONE, Root};
use game_core::{Graph, Mark, Row};

/// What one rank counts in an offer: more than each input.
const RANK_UNIT: u64 = VECTORS_LIMIT as u64;

/// A round is of the cells of one rank.
#[derive(Drop)]
pub(crate) struct Reach<'a, G: Graph> {
    pub(crate) graph: &'a G,
    pub(crate) inputs: u32,
    pub(crate) ghost is_graph: { IsGraph (G.game graph.now) },
    pub(crate) ghost inputs_are: { inputs ≡ (G.game graph.now).inputs },
}

impl<G: Graph + Sync> Rule for Reach<'_, G> {
    ghost use Rattle.game_core.specs.Game.{mark_of};
    ghost use Rattle.reach_avoid.specs.inside.ReachRounds.{KeepsRule, is_goal, row_in, word_after};
    ghost use Rattle.reach_avoid.specs.inside.ReachInvariant.{IsReachInvariant, IsRunnable};

    ghost game = { λ rule. G.game rule.graph.now };

    ghost fits = { λ rule. IsRunnable (G.game rule.graph.now) };

    ghost first = { λ rule c. is_goal (mark_of (G.game rule.graph.now) c) };

    ghost keeps = { λ rule. KeepsRule (G.game rule.graph.now) };

    ghost holds_before = { λ rule. IsReachInvariant (G.game rule.graph.now) };

    ghost tells = { λ rule accounts c row. row ≡ row_in (word_after (G.game rule.graph.now) accounts c) };

    fn cells(&self) -> u32 {
        self.graph.cells()
    }

    fn sources(&self, c: u32) -> &[u32] {
        self.graph.sources(c)
    }

    fn is_first(&self, _board: &Board, _root: &mut Root, c: u32) -> bool {
        self.graph.mark(c) == Mark::Goal
    }

    fn cut(&self, board: &Board, worker: &mut Worker, round: u32, pair: u32) {
        self.cut_and_offer(board, worker, round, pair);
    }

    fn row(&self, board: &Board, root: &mut Root, c: u32) -> Option<Row> {
        decoded_row(board.read(root, c))
    }

    ghost leads_on = { λ rule board fit. fit.leads };
}

impl<G: Graph> Reach<'_, G> {
    /// Cuts a pair. The cut that leaves nothing is followed by an offer to the pair's cell.
    fn cut_and_offer(&self, board: &Board, worker: &mut Worker, rank: u32, pair: u32)
        requires board { IsBoardOf (G.game self.now.graph.now) board.now }
        requires worker { worker.old.board ≡ board.now }
        requires low { rank ≤ CELLS_LIMIT }
        requires pair { pair < pairs_of (G.game self.now.graph.now) }
        ensures { Cuts (G.game self.now.graph.now) rank pair worker.old worker.new }
    {
        if worker.cut(board, pair) == 0 {
            self.offer_row(board, worker, rank, pair);
        }
    }

    /// Offers the next rank and the pair's input to its cell, and logs the cell where nobody had offered it anything.
    fn offer_row(&self, board: &Board, worker: &mut Worker, rank: u32, pair: u32)
        requires board { IsBoardOf (G.game self.now.graph.now) board.now }
        requires worker { worker.old.board ≡ board.now }
        requires low { rank ≤ CELLS_LIMIT }
        requires pair { pair < pairs_of (G.game self.now.graph.now) }
        ensures { DueOffers (G.game self.now.graph.now) rank pair worker.old worker.new }
    {
        let cell = pair / self.inputs;
        let value = 1 + u64::from(rank + 1) * RANK_UNIT + u64::from(pair % self.inputs);
        if worker.offer(board, cell, value) {
            // Each cell is logged once at most, so there is a slot for it.
            let _ = worker.log(board, cell);
        }
    }
}

/// The row that a word has.
fn decoded_row(word: u64) -> Option<Row>
    requires { (row : Row) → row_in word ≡ Some row → row.rank < 2 ^ 32 }
    ensures { result ≡ row_in word }
{
    if word == 0 || word == NONE {
        return None;
    }
    Some(Row {
        rank: ((word - 1) / RANK_UNIT) as u32,
        input: ((word - 1) % RANK_UNIT) as u32,
    })
}
