//! A game that is solved in a scratch, by its rule.
ghost use Rattle.std.specs.Prelude.{◌≡◌, length};
ghost use Rattle.board_rounds.specs.Solving.{AreTold, IsSolvedByRule};
ghost use Rattle.board_rounds.specs.Rules.{IsAtEnd};

use crate::rule::Rule;
use crate::scratch::Scratch;
use cell_counters::{Board, Root};
use frontier_pool::Gate;
use game_core::{Answer, Tally};
use std::alloc::Global;
use std::thread::Threads;

/// A solved game: its rows, what was counted, the board on which it was solved, and the board's root.
#[derive(Drop)]
pub struct SolvedGame {
    /// For each cell its row, None where it has none.
    pub answer: Answer,
    /// The cuts, the offers and the rounds that the solution requires.
    pub tally: Tally,
    pub board: Board,
    /// All hands are taken in.
    pub root: Root,
}

/// Solves a game: does rounds by its rule until a list is empty, then reads the row of each cell.
///
/// The rounds request memory, and can do without it.
pub fn solve_by_rule<R: Threads + Sync, S, L: Rule, T: Gate>(
    rt: &R,
    alloc: Global,
    scratch: Scratch<S>,
    rule: &L,
    gate: &T,
) -> SolvedGame
    requires board { L.fits rule.now scratch }
    requires slots { scratch.slots ≡ (L.game rule.now).cells }
    ensures { IsSolvedByRule (L.game rule.now).cells (L.holds_before rule.now) (L.tells rule.now) scratch result }
{
    let Scratch {
        board,
        mut rounds,
        mut answer,
        workers,
        start: _,
    } = scratch;
    rounds.run_all(rt, alloc, &board, rule, workers, gate);
    read_rows(&board, &mut rounds.root, &mut answer, rule);
    SolvedGame {
        answer,
        tally: rounds.tally,
        board,
        root: rounds.root,
    }
}

/// Reads the row of each cell, and sets it.
fn read_rows<L: Rule>(board: &Board, root: &mut Root, answer: &mut Answer, rule: &L)
    requires board { L.fits rule.now board.now }
    requires root { (root.old.board ≡ board.now) × (root.old.out ≡ 0) }
    requires end { IsAtEnd (L.game rule.now).cells (L.holds_before rule.now) root.old.accounts }
    requires answer { length answer.old ≡ (L.game rule.now).cells }
    ensures root { root.new ≡ root.old }
    ensures rows { AreTold (L.game rule.now).cells (L.tells rule.now root.old.accounts) answer.new }
{
    for c in 0..rule.cells() {
        let row = rule.row(board, root, c);
        answer.set(c, row);
    }
}
