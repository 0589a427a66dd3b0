ghost use Rattle.std.specs.Prelude.{◌≡◌, ◌+◌, ◌<◌, None, map, length, slice_index, IfOk};
ghost use Rattle.game_core.specs.Game.{pairs_of};
ghost use Rattle.game_core.specs.Solution.{row_of, rank_at};
ghost use Rattle.game_core.specs.inside.Search.{search_at_first, with_row, with_offer, with_pair_done, after_cut, IsGathered, IsSearched};

use crate::answer::Answer;
use crate::game::{Graph, Mark, Row};
use base::NoMemory;
use std::alloc::Global;
use std::marker::Model;

/// A search backwards from the goals of a game.
#[derive(Drop)]
pub(crate) struct Search {
    /// For each pair, how many of its successors are still to be taken.
    left: Vec<u32>,
    answer: Answer,
    /// The first `found` are the cells with a row, in the order of their ranks.
    order: Vec<u32>,
    found: usize,
}

impl Model for Search {
    ghost use Rattle.game_core.specs.inside.Search.{SearchProgress, HasCapacity};
    ghost use Rattle.std.specs.Prelude.{take};

    ghost Value = { SearchProgress };

    ghost view = { λ s. record { left = s.left.items; rows = s.answer; queue = take s.found s.order.items } };

    ghost invariant = { λ s. HasCapacity s.answer s.order.items s.found };
}

impl Search {
    /// Nothing is taken yet, and no cell has a row.
    pub(crate) fn new<G: Graph>(alloc: Global, g: &G) -> Result<Search, NoMemory>
        ensures { IfOk result (λ s. s ≡ search_at_first (G.game g.now)) }
    {
        let cells = g.cells();
        let left = fans(alloc, g)?;
        let answer = Answer::blank(alloc, cells)?;
        let order = vec![in alloc; 0; cells as usize]?;
        Ok(Search {
            left,
            answer,
            order,
            found: 0,
        })
    }

    pub(crate) fn into_answer(self) -> Answer
        ensures { result ≡ self.rows }
    {
        self.answer
    }

    /// How many cells have a row.
    pub(crate) fn found(&self) -> usize
        ensures { result ≡ length self.now.queue }
    {
        self.found
    }

    /// Gives each goal its row.
    pub(crate) fn gather<G: Graph>(&mut self, g: &G)
        requires { self.old ≡ search_at_first (G.game g.now) }
        ensures { IsGathered (G.game g.now) (G.game g.now).cells self.new }
    {
        for c in 0..g.cells() {
            if g.mark(c) == Mark::Goal {
                self.settle(c, Row { rank: 0, input: 0 });
            }
        }
    }

    /// Takes a cell: each pair that leads to it has one successor less to wait for.
    pub(crate) fn take<G: Graph>(&mut self, g: &G, head: usize)
        requires at { head < length self.old.queue }
        requires searched { IsSearched (G.game g.now) head self.old }
        ensures searched { IsSearched (G.game g.now) (head + 1) self.new }
        ensures at { head < length self.new.queue }
    {
        let c = self.cell_at(head);
        let rank = self.rank_of(c) + 1;
        for pair in g.sources(c) {
            self.cut(g, *pair, rank);
        }
    }

    fn cell_at(&self, at: usize) -> u32
        requires { at < length self.now.queue }
        ensures { result ≡ slice_index self.now.queue at }
    {
        self.order[at]
    }

    /// The rank of a cell's row, 0 where it has none.
    fn rank_of(&self, c: u32) -> u32
        requires { c < length self.now.rows }
        ensures { result ≡ rank_at self.now.rows c }
    {
        match self.answer.row(c) {
            Some(row) => row.rank,
            None => 0,
        }
    }

    /// One successor of the pair is taken, after which the pair offers its cell this rank.
    fn cut<G: Graph>(&mut self, g: &G, pair: u32, rank: u32)
        requires pair { pair < pairs_of (G.game g.now) }
        requires counters { length self.old.left ≡ pairs_of (G.game g.now) }
        requires rows { length self.old.rows ≡ (G.game g.now).cells }
        requires open { 0 < slice_index self.old.left pair }
        ensures { self.new ≡ after_cut (G.game g.now) pair rank self.old }
    {
        self.left[pair as usize] -= 1;
        if self.left[pair as usize] == 0 {
            self.resolve(g, pair, rank);
        }
    }

    /// Every successor of the pair is taken.
    fn resolve<G: Graph>(&mut self, g: &G, pair: u32, rank: u32)
        requires pair { pair < pairs_of (G.game g.now) }
        requires rows { length self.old.rows ≡ (G.game g.now).cells }
        ensures { self.new ≡ with_pair_done (G.game g.now) pair rank self.old }
    {
        let inputs = g.inputs();
        let c = pair / inputs;
        let input = pair % inputs;
        if g.mark(c) == Mark::Plain {
            self.offer(c, Row { rank, input });
        }
    }

    /// A cell takes its first row, and a lesser input at the same rank.
    fn offer(&mut self, c: u32, row: Row)
        requires { c < length self.old.rows }
        ensures { self.new ≡ with_offer c row self.old }
    {
        match self.answer.row(c) {
            None => self.settle(c, row),
            Some(old) => {
                if old.rank == row.rank && row.input < old.input {
                    self.answer.set(c, Some(row));
                }
            }
        }
    }

    /// Gives a cell its first row.
    fn settle(&mut self, c: u32, row: Row)
        requires within { c < length self.old.rows }
        requires first { row_of self.old.rows c ≡ None }
        ensures { self.new ≡ with_row c row self.old }
    {
        self.answer.set(c, Some(row));
        self.order[self.found] = c;
        self.found += 1;
    }
}

/// How many successors each pair has.
fn fans<G: Graph>(alloc: Global, g: &G) -> Result<Vec<u32>, NoMemory>
    ensures { IfOk result (λ v. v.items ≡ map length (G.game g.now).successors) }
{
    let pairs = g.cells() * g.inputs();
    let mut fans = vec![in alloc; 0; pairs as usize]?;
    for pair in 0..pairs {
        fans[pair as usize] = g.fan(pair);
    }
    Ok(fans)
}
