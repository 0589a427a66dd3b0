//! What a game has workers do.
use crate::worker::Worker;
use cell_counters::{Board, Root};
use game_core::Row;

/// The rule of a game that is solved on a board in rounds.
///
/// Each round has a list of cells, the first one those that the rule wants there. A worker cuts the counter of each pair
/// that leads to a cell of the list, and the rule says what else it does then. What is logged is the next list.
pub trait Rule: Sync {
    ghost use Rattle.std.specs.Prelude.{◌≡◌, ℕ, ◌^◌, ◌<◌, ◌≤◌, Bool, List, Option, length};
    ghost use Rattle.cell_counters.specs.declared.account.Account.{Account};
    ghost use Rattle.cell_counters.specs.BoardModels.{BoardModel, new_root};
    ghost use Rattle.game_core.specs.declared.game.Row.{Row};
    ghost use Rattle.game_core.specs.Game.{Game, AreSources, pairs_of, successors_at};
    ghost use Rattle.board_rounds.specs.Rules.{CutsOnce, IsAtEnd, LeadsOn};
    ghost use Rattle.base.specs.declared.limits.TheConstants.{CELLS_LIMIT};

    /// The game.
    ghost game: { Self → Game };

    /// That a board is one of the game.
    ghost fits: { Self → BoardModel → Type 0 };

    /// Whether a cell is on the list of the first round.
    ghost first: { Self → ℕ → Bool };

    /// What the account of a worker keeps in a round, by the round's number.
    ghost keeps: { Self → ℕ → Account → Type 0 };

    /// What stands before a round, by its number, its list and all accounts so far.
    ghost holds_before: { Self → ℕ → List ℕ → List Account → Type 0 };

    /// Which row a cell has, by all accounts at the end.
    ghost tells: { Self → List Account → ℕ → Option Row → Type 0 };

    /// How many cells there are.
    fn cells(&self) -> u32
        ensures { result ≡ (game self.now).cells };

    /// The pairs that lead to a cell.
    fn sources(&self, c: u32) -> &[u32]
        requires { c < (game self.now).cells }
        ensures { AreSources (game self.now) c result.now };

    /// Whether a cell is on the list of the first round, where nothing is done on the board yet.
    fn is_first(&self, board: &Board, root: &mut Root, c: u32) -> bool
        requires board { fits self.now board.now }
        requires root { root.old ≡ new_root board.now }
        requires cell { c < (game self.now).cells }
        ensures root { root.new ≡ root.old }
        ensures first { result ≡ first self.now c };

    /// Cuts an enabled pair, and does what follows from the cut. The rounds cut pairs that lead to cells of the list.
    fn cut(&self, board: &Board, worker: &mut Worker, round: u32, pair: u32)
        requires board { fits self.now board.now }
        requires worker { worker.old.board ≡ board.now }
        requires round { round ≤ CELLS_LIMIT }
        requires pair { pair < pairs_of (game self.now) }
        requires enabled { 0 < length (successors_at (game self.now) pair) }
        ensures once { CutsOnce (pairs_of (game self.now)) pair worker.old worker.new }
        ensures keeps { keeps self.now round worker.old.account → keeps self.now round worker.new.account };

    /// The row of a cell, once no cell is on a list.
    fn row(&self, board: &Board, root: &mut Root, c: u32) -> Option<Row>
        requires board { fits self.now board.now }
        requires root { (root.old.board ≡ board.now) × (root.old.out ≡ 0) }
        requires end { IsAtEnd (game self.now).cells (holds_before self.now) root.old.accounts }
        requires cell { c < (game self.now).cells }
        ensures root { root.new ≡ root.old }
        ensures row { tells self.now root.old.accounts c result };

    /// On a board that fits, each round leads on to the next.
    ghost leads_on: { (rule : Self) (board : BoardModel) → fits rule board → LeadsOn (game rule) board (first rule) (keeps rule) (holds_before rule) };
}
