ghost use Rattle.std.specs.Prelude.{◌≡◌, ℕ, ◌+◌, ◌<◌, length, slice_index, IfOk};
ghost use Rattle.game_core.specs.Game.{pairs_of};
ghost use Rattle.game_core.specs.inside.Falling.{falling_at_first, with_fall, without_pair, after_loss, is_live, is_safe, safe_at_first, safe_pairs, IsFalling, IsFirstSafe, AreFirstSafe, safe_counts};

use crate::answer::Answer;
use crate::game::{Graph, Mark, Row};
use base::NoMemory;
use std::alloc::Global;
use std::marker::Model;

/// The cells that can't be kept, as they fall one by one.
#[derive(Drop)]
pub(crate) struct Falling {
    /// For each pair, whether it is live and no successor of it was taken.
    safe: Vec<bool>,
    /// For each cell, how many of its pairs are safe.
    left: Vec<u32>,
    /// The first `found` are the cells without a safe pair, in the order in which they fell.
    order: Vec<u32>,
    found: usize,
}

impl Model for Falling {
    ghost use Rattle.game_core.specs.inside.Falling.{FallingProgress, HasPositions};
    ghost use Rattle.std.specs.Prelude.{take};

    ghost Value = { FallingProgress };

    ghost view = { λ f. record { safe = f.safe.items; left = f.left.items; queue = take f.found f.order.items } };

    ghost invariant = { λ f. HasPositions f.left.items f.order.items f.found };
}

/// Whether a pair's input is enabled and its cell no obstacle.
fn is_pair_live<G: Graph>(g: &G, pair: u32) -> bool
    requires { pair < pairs_of (G.game g.now) }
    ensures { result ≡ is_live (G.game g.now) pair }
{
    g.fan(pair) > 0 && g.mark(pair / g.inputs()) != Mark::Obstacle
}

fn live_pairs<G: Graph>(alloc: Global, g: &G) -> Result<Vec<bool>, NoMemory>
    ensures { IfOk result (λ v. v.items ≡ safe_at_first (G.game g.now)) }
{
    let pairs = g.cells() * g.inputs();
    let mut safe = vec![in alloc; false; pairs as usize]?;
    for pair in 0..pairs {
        safe[pair as usize] = is_pair_live(g, pair);
    }
    Ok(safe)
}

/// How many pairs of a cell are safe.
fn count_safe<G: Graph>(g: &G, safe: &[bool], c: u32) -> u32
    requires one_each { length safe.now ≡ pairs_of (G.game g.now) }
    requires cell { c < (G.game g.now).cells }
    ensures { result ≡ safe_pairs (G.game g.now) safe.now c }
{
    let first = c * g.inputs();
    let mut count = 0;
    for input in 0..g.inputs() {
        if safe[(first + input) as usize] {
            count += 1;
        }
    }
    count
}

/// How many safe pairs each cell has.
fn counts<G: Graph>(alloc: Global, g: &G, safe: &[bool]) -> Result<Vec<u32>, NoMemory>
    requires { length safe.now ≡ pairs_of (G.game g.now) }
    ensures { IfOk result (λ v. v.items ≡ safe_counts (G.game g.now) safe.now) }
{
    let cells = g.cells();
    let mut counts = vec![in alloc; 0; cells as usize]?;
    for c in 0..cells {
        counts[c as usize] = count_safe(g, safe, c);
    }
    Ok(counts)
}

impl Falling {
    /// Each live pair is safe, and no cell has fallen yet.
    pub(crate) fn new<G: Graph>(alloc: Global, g: &G) -> Result<Falling, NoMemory>
        ensures { IfOk result (λ f. f ≡ falling_at_first (G.game g.now)) }
    {
        let safe = live_pairs(alloc, g)?;
        let left = counts(alloc, g, &safe)?;
        let order = vec![in alloc; 0; left.len()]?;
        Ok(Falling {
            safe,
            left,
            order,
            found: 0,
        })
    }

    /// How many cells have fallen.
    pub(crate) fn found(&self) -> usize
        ensures { result ≡ length self.now.queue }
    {
        self.found
    }

    /// The cells without a safe pair fall: the obstacles, and those without an enabled input.
    pub(crate) fn gather<G: Graph>(&mut self, g: &G)
        requires { self.old ≡ falling_at_first (G.game g.now) }
        ensures { IsFalling (G.game g.now) (G.game g.now).cells 0 self.new }
    {
        for c in 0..g.cells() {
            if self.left_of(c) == 0 {
                self.fall(c);
            }
        }
    }

    /// Takes a fallen cell: the pairs that may lead to it are safe no more.
    pub(crate) fn take<G: Graph>(&mut self, g: &G, head: usize)
        requires at { head < length self.old.queue }
        requires falling { IsFalling (G.game g.now) (G.game g.now).cells head self.old }
        ensures falling { IsFalling (G.game g.now) (G.game g.now).cells (head + 1) self.new }
    {
        let c = self.cell_at(head);
        for pair in g.sources(c) {
            self.lose(g, *pair);
        }
    }

    /// A pair may lead to a fallen cell: its own cell falls with its last safe pair.
    fn lose<G: Graph>(&mut self, g: &G, pair: u32)
        requires pair { pair < pairs_of (G.game g.now) }
        requires falling { (head : ℕ) × IsFalling (G.game g.now) (G.game g.now).cells head self.old }
        ensures { self.new ≡ after_loss (G.game g.now) pair self.old }
    {
        if self.is_safe(pair) {
            let c = pair / g.inputs();
            self.close(pair, c);
            if self.left_of(c) == 0 {
                self.fall(c);
            }
        }
    }

    /// A safe pair of a cell is safe no more.
    fn close(&mut self, pair: u32, c: u32)
        requires pair { pair < length self.old.safe }
        requires cell { c < length self.old.left }
        requires left { 0 < slice_index self.old.left c }
        ensures { self.new ≡ without_pair pair c self.old }
    {
        self.safe[pair as usize] = false;
        self.left[c as usize] -= 1;
    }

    fn is_safe(&self, pair: u32) -> bool
        requires { pair < length self.now.safe }
        ensures { result ≡ is_safe self.now.safe pair }
    {
        self.safe[pair as usize]
    }

    /// How many safe pairs a cell has.
    fn left_of(&self, c: u32) -> u32
        requires { c < length self.now.left }
        ensures { result ≡ slice_index self.now.left c }
    {
        self.left[c as usize]
    }

    fn cell_at(&self, at: usize) -> u32
        requires { at < length self.now.queue }
        ensures { result ≡ slice_index self.now.queue at }
    {
        self.order[at]
    }

    fn fall(&mut self, c: u32)
        requires { length self.old.queue < length self.old.left }
        ensures { self.new ≡ with_fall c self.old }
    {
        self.order[self.found] = c;
        self.found += 1;
    }

    /// The least safe input of a cell.
    fn first_safe<G: Graph>(&self, g: &G, c: u32) -> Option<Row>
        requires one_each { length self.now.safe ≡ pairs_of (G.game g.now) }
        requires cell { c < (G.game g.now).cells }
        ensures { IsFirstSafe (G.game g.now) self.now.safe c result }
    {
        let inputs = g.inputs();
        let first = c * inputs;
        for input in 0..inputs {
            if self.is_safe(first + input) {
                return Some(Row { rank: 0, input });
            }
        }
        None
    }

    /// For each cell the row of its least safe input.
    pub(crate) fn rows<G: Graph>(&self, alloc: Global, g: &G) -> Result<Answer, NoMemory>
        requires { length self.now.safe ≡ pairs_of (G.game g.now) }
        ensures { IfOk result (AreFirstSafe (G.game g.now) self.now.safe) }
    {
        let mut answer = Answer::blank(alloc, g.cells())?;
        for c in 0..g.cells() {
            answer.set(c, self.first_safe(g, c));
        }
        Ok(answer)
    }
}
