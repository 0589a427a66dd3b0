//! What one worker has in a round.
ghost use Rattle.std.specs.Prelude.{◌≡◌, ◌≢◌, ◌<◌, false, length, slice_index, Any};
ghost use Rattle.cell_counters.specs.BoardModels.{blank, with_cut, with_offer, with_note, Logs};
ghost use Rattle.cell_counters.specs.declared.account.TheConstants.{NONE};

use cell_counters::{Board, Hand};
use std::marker::Model;

/// A hand at a board, which counts its cuts and its offers.
///
/// To a contract it is its hand.
#[derive(Drop)]
pub struct Worker {
    pub(crate) hand: Hand,
    /// Modulo 2^64.
    pub(crate) cuts: u64,
    pub(crate) offers: u64,
}

impl Model for Worker {
    ghost use Rattle.cell_counters.specs.BoardModels.{HandModel};
    ghost use Rattle.board_rounds.specs.inside.WorkerSteps.{IsCounted};

    ghost Value = { HandModel };

    ghost view = { λ w. w.hand };

    ghost invariant = { λ w. IsCounted w.hand.account w.cuts w.offers };
}

impl Worker {
    pub(crate) fn new(hand: Hand) -> Worker
        requires { hand.account ≡ blank }
        ensures { result ≡ hand }
    {
        Worker {
            hand,
            cuts: 0,
            offers: 0,
        }
    }

    /// Takes one from a counter, modulo 2^64, and answers what is then left.
    pub fn cut(&mut self, board: &Board, counter: u32) -> u64
        requires board { self.old.board ≡ board.now }
        requires counter { counter < length board.now.starts }
        ensures { self.new ≡ record self.old { account = with_cut self.old.account counter result } }
    {
        self.cuts = self.cuts.wrapping_add(1);
        board.cut(&mut self.hand, counter)
    }

    /// Lowers a minimum to `value`, unless it is lower, and answers whether it was free.
    pub fn offer(&mut self, board: &Board, word: u32, value: u64) -> bool
        requires board { self.old.board ≡ board.now }
        requires word { word < length board.now.least }
        requires value { value < NONE }
        ensures account { self.new ≡ record self.old { account = with_offer self.old.account word value result } }
        ensures earlier { Any (λ o. o.word ≡ word) self.old.account.offers → result ≡ false }
        ensures taken { slice_index board.now.least word ≢ NONE → result ≡ false }
    {
        self.offers = self.offers.wrapping_add(1);
        board.offer(&mut self.hand, word, value)
    }

    /// Draws the next number of the log, stores the cell at that slot where the log has it, and answers whether it has.
    pub fn log(&mut self, board: &Board, cell: u32) -> bool
        requires { self.old.board ≡ board.now }
        ensures { Logs self.old self.new cell result }
    {
        board.log(&mut self.hand, cell)
    }

    pub(crate) fn note(&mut self, board: &Board, item: u32)
        requires { self.old.board ≡ board.now }
        ensures { self.new ≡ record self.old { account = with_note self.old.account item } }
    {
        board.note(&mut self.hand, item);
    }
}
