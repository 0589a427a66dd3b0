//! The rule of a keep game: the first cut of a pair cuts the pair's cell too, and a cell's row is its least pair that was never cut.
ghost use Rattle.std.specs.Prelude.{◌≡◌, ◌<◌, length};
ghost use Rattle.game_core.specs.Game.{IsGraph, pairs_of, successors_at};
ghost use Rattle.safety_game.specs.KeepBoards.{IsBoardOf};
ghost use Rattle.safety_game.specs.inside.KeepRounds.{is_whole, AreFewCuts};
ghost use Rattle.safety_game.specs.inside.KeepSteps.{CutsFirst, CellCuts, Cuts};

use board_rounds::{Rule, Worker};
use cell_counters::{Board, Root};
use game_core::{Graph, Mark, Row};

/// A round is of the cells that fall in it.
#[derive(Drop)]
pub(crate) struct Keep<'a, G: Graph> {
    pub(crate) graph: &'a G,
    pub(crate) inputs: u32,
    pub(crate) pairs: u32,
    pub(crate) ghost is_graph: { IsGraph (G.game graph.now) },
    pub(crate) ghost inputs_are: { inputs ≡ (G.game graph.now).inputs },
    pub(crate) ghost pairs_are: { pairs ≡ pairs_of (G.game graph.now) },
}

impl<G: Graph + Sync> Rule for Keep<'_, G> {
    ghost use Rattle.game_core.specs.Fallen.{has_fallen};
    ghost use Rattle.safety_game.specs.inside.KeepRounds.{KeepsRule, IsRowDecoded};
    ghost use Rattle.safety_game.specs.inside.KeepInvariant.{IsKeepInvariant, IsRunnable};

    ghost game = { λ rule. G.game rule.graph.now };

    ghost fits = { λ rule. IsRunnable (G.game rule.graph.now) };

    ghost first = { λ rule. has_fallen (G.game rule.graph.now) 0 };

    ghost keeps = { λ rule _. KeepsRule (G.game rule.graph.now) };

    ghost holds_before = { λ rule. IsKeepInvariant (G.game rule.graph.now) };

    ghost tells = { λ rule. IsRowDecoded (G.game rule.graph.now) };

    fn cells(&self) -> u32 {
        self.graph.cells()
    }

    fn sources(&self, c: u32) -> &[u32] {
        self.graph.sources(c)
    }

    fn is_first(&self, board: &Board, root: &mut Root, c: u32) -> bool {
        let enabled = board.left(root, self.pairs + c);
        self.graph.mark(c) == Mark::Obstacle || enabled == 0
    }

    fn cut(&self, board: &Board, worker: &mut Worker, _round: u32, pair: u32) {
        self.cut_pair_and_cell(board, worker, pair);
    }

    fn row(&self, board: &Board, root: &mut Root, c: u32) -> Option<Row> {
        if self.graph.mark(c) == Mark::Obstacle {
            return None;
        }
        let first = c * self.inputs;
        for input in 0..self.inputs {
            if is_whole(self.graph, board, root, first + input) {
                return Some(Row { rank: 0, input });
            }
        }
        None
    }

    ghost leads_on = { λ rule board fit. fit.leads };
}

impl<G: Graph> Keep<'_, G> {
    /// Cuts a pair, and then its cell where that was the pair's first cut.
    fn cut_pair_and_cell(&self, board: &Board, worker: &mut Worker, pair: u32)
        requires board { IsBoardOf (G.game self.now.graph.now) board.now }
        requires worker { worker.old.board ≡ board.now }
        requires pair { pair < pairs_of (G.game self.now.graph.now) }
        requires enabled { 0 < length (successors_at (G.game self.now.graph.now) pair) }
        ensures { Cuts (G.game self.now.graph.now) pair worker.old worker.new }
    {
        if self.cut_first(board, worker, pair) {
            self.cut_cell(board, worker, pair / self.inputs);
        }
    }

    /// Cuts a pair, and answers whether that cut its cell: the pair's first cut, and the cell no obstacle.
    fn cut_first(&self, board: &Board, worker: &mut Worker, pair: u32) -> bool
        requires board { IsBoardOf (G.game self.now.graph.now) board.now }
        requires worker { worker.old.board ≡ board.now }
        requires pair { pair < pairs_of (G.game self.now.graph.now) }
        requires enabled { 0 < length (successors_at (G.game self.now.graph.now) pair) }
        ensures { CutsFirst (G.game self.now.graph.now) pair worker.old worker.new result }
    {
        let first = u64::from(self.graph.fan(pair)) - 1;
        worker.cut(board, pair) == first && self.graph.mark(pair / self.inputs) != Mark::Obstacle
    }

    /// Cuts a cell, and logs it where nothing was left: it falls in the next round.
    fn cut_cell(&self, board: &Board, worker: &mut Worker, cell: u32)
        requires board { IsBoardOf (G.game self.now.graph.now) board.now }
        requires worker { worker.old.board ≡ board.now }
        requires cell { cell < (G.game self.now.graph.now).cells }
        ensures { CellCuts (G.game self.now.graph.now) cell worker.old worker.new }
    {
        if worker.cut(board, self.pairs + cell) == 0 {
            // Each cell is logged once at most, so there is a slot for it.
            let _ = worker.log(board, cell);
        }
    }
}

/// Whether a pair is enabled, and was never cut.
fn is_whole<G: Graph>(g: &G, board: &Board, root: &mut Root, pair: u32) -> bool
    requires board { IsBoardOf (G.game g.now) board.now }
    requires root { (root.old.board ≡ board.now) × (root.old.out ≡ 0) }
    requires few { AreFewCuts (G.game g.now) root.old.accounts }
    requires pair { pair < pairs_of (G.game g.now) }
    ensures root { root.new ≡ root.old }
    ensures whole { result ≡ is_whole (G.game g.now) root.old.accounts pair }
{
    let fan = u64::from(g.fan(pair));
    let left = board.left(root, pair);
    fan > 0 && left == fan
}
