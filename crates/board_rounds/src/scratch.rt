//! All memory of a solver, taken before it solves.
ghost use Rattle.std.specs.Prelude.{◌≡◌, ◌≤◌, length, IfOk};
ghost use Rattle.base.specs.Workers.{AreWorkers};
ghost use Rattle.board_rounds.specs.Boards.{IsBegunWith};
ghost use Rattle.board_rounds.specs.inside.FirstWords.{AreUnfilled, first_words, words_from};

use crate::numbers::{fill_numbers, words_per_call};
use crate::rounds::Rounds;
use crate::start::Start;
use cell_counters::Board;
use game_core::{Answer, Forward, NoMemory};
use raw_slots::RawList;
use std::alloc::Global;
use std::marker::{Model, PhantomData};
use std::thread::Threads;

/// The memory in which a graph is solved by so many workers, by a solver whose board begins in its own way.
///
/// To a contract it is the board of its game, on which nothing is done yet.
#[derive(Drop)]
pub struct Scratch<S> {
    pub(crate) board: Board,
    pub(crate) rounds: Rounds,
    /// No row yet.
    pub(crate) answer: Answer,
    pub(crate) workers: u32,
    pub(crate) start: PhantomData<S>,
}

impl<S> Model for Scratch<S> {
    ghost use Rattle.cell_counters.specs.BoardModels.{BoardModel};
    ghost use Rattle.board_rounds.specs.inside.RoundInvariant.{IsScratch};

    ghost Value = { BoardModel };

    ghost view = { λ s. s.board };

    ghost invariant = { λ s. IsScratch s.board s.workers s.rounds s.answer };
}

impl<S: Start> Scratch<S> {
    /// Takes 8 bytes for a pair, on the board, and 32 for a cell: 16 on the board, 4 on the list and 12 in the answer.
    /// While the board is made it takes 16 for a pair and 32 for a cell, half of it for the list of the board's words, which is
    /// given back. It needs no source lists, so these can be filled afterwards.
    pub fn new<R: Threads + Sync, G: Forward + Sync>(
        rt: &R,
        alloc: Global,
        g: &G,
        workers: u32,
    ) -> Result<Scratch<S>, NoMemory>
        requires { AreWorkers workers }
        ensures { IfOk result (IsBegunWith (S.counters (G.game g.now)) (S.words (G.game g.now)) (G.game g.now)) }
    {
        let numbers = Scratch::<S>::numbers(rt, alloc, g)?;
        let cells = g.cells();
        let counters = S::count_counters(g);
        let (board, root) = Board::of_words(alloc, numbers.as_slice(), counters, cells)?;
        // The board has its own copy, and what follows takes memory.
        drop(numbers);
        let rounds = Rounds::new(alloc, root, cells, workers)?;
        let answer = Answer::blank(alloc, cells)?;
        let start = PhantomData;
        Ok(Scratch {
            board,
            rounds,
            answer,
            workers,
            start,
        })
    }

    /// The words with which the board begins: the numbers of the pairs, those of the cells, and zeros for the log of the cells and
    /// its length. Many words are filled by several threads.
    fn numbers<R: Threads + Sync, G: Forward + Sync>(
        rt: &R,
        alloc: Global,
        g: &G,
    ) -> Result<RawList<u64>, NoMemory>
        ensures { IfOk result (λ list. list ≡ first_words (G.game g.now) (S.number (G.game g.now))) }
    {
        let cells = g.cells() as usize;
        let pairs = (g.cells() * g.inputs()) as usize;
        let len = pairs + 2 * cells + 1;
        let size = words_per_call(len);
        let list = RawList::by_chunks(
            rt,
            alloc,
            0,
            len,
            size,
            |first: usize, words: &mut [u64]|
                requires { AreUnfilled (G.game g.now) (S.number (G.game g.now)) first words.now }
                ensures { words.exit.now ≡ words_from (G.game g.entry.now) (S.number (G.game g.entry.now)) first (length words.entry.now) }
            {
                fill_numbers::<S, G>(g, first, words);
            },
        )?;
        Ok(list)
    }
}
