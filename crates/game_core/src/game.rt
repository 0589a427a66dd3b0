ghost use Rattle.std.specs.Prelude.{◌≡◌, ℕ, ◌<◌, ◌↔◌, IsTrue, length, slice_index};
ghost use Rattle.game_core.specs.Game.{Game, IsGraph, AreSources, mark_of, successors_at, pairs_of, LeadsOnlyTo};

/// What a cell is to the controller.
#[derive(Clone, Copy, PartialEq, Eq)]
pub enum Mark {
    /// To be reached.
    Goal,
    /// Never to be met.
    Obstacle,
    /// Neither.
    Plain,
}

/// What a table says of one cell: the samples that suffice, and the input to apply.
#[derive(Clone, Copy, PartialEq, Eq)]
pub struct Row {
    pub rank: u32,
    pub input: u32,
}

/// A game in memory. A pair of a cell and an input has the number `cell * inputs + input`.
pub trait Graph {
    ghost game: { Self → Game };

    fn cells(&self) -> u32
        ensures { result ≡ (game self.now).cells };

    fn inputs(&self) -> u32
        ensures { result ≡ (game self.now).inputs };

    fn mark(&self, c: u32) -> Mark
        requires { c < (game self.now).cells }
        ensures { result ≡ mark_of (game self.now) c };

    /// How many successors a pair has: 0 exactly where its input isn't enabled.
    fn fan(&self, pair: u32) -> u32
        requires { pair < pairs_of (game self.now) }
        ensures { result ≡ length (successors_at (game self.now) pair) };

    /// The successors of a pair, in rising order.
    fn successor(&self, pair: u32, at: u32) -> u32
        requires pair { pair < pairs_of (game self.now) }
        requires at { at < length (successors_at (game self.now) pair) }
        ensures { result ≡ slice_index (successors_at (game self.now) pair) at };

    /// The pairs that lead to a cell, in rising order.
    fn sources(&self, c: u32) -> &[u32]
        requires { c < (game self.now).cells }
        ensures { AreSources (game self.now) c result.now };

    ghost lawful: { (g : Self) → IsGraph (game g) };
}

/// A test of cells, which are numbered from 0.
pub trait CellTest {
    ghost cells: { Self → ℕ };

    ghost passes: { Self → ℕ → Type 0 };

    fn passes(&self, c: u32) -> bool
        requires { c < cells self.now }
        ensures { IsTrue result ↔ passes self.now c };
}

/// A game in memory of which only the successors of a pair can be asked, not the pairs that lead to a cell.
/// A pair of a cell and an input has the number `cell * inputs + input`.
pub trait Forward {
    ghost game: { Self → Game };

    fn cells(&self) -> u32
        ensures { result ≡ (game self.now).cells };

    fn inputs(&self) -> u32
        ensures { result ≡ (game self.now).inputs };

    fn mark(&self, c: u32) -> Mark
        requires { c < (game self.now).cells }
        ensures { result ≡ mark_of (game self.now) c };

    /// How many successors a pair has: 0 exactly where its input isn't enabled.
    fn fan(&self, pair: u32) -> u32
        requires { pair < pairs_of (game self.now) }
        ensures { result ≡ length (successors_at (game self.now) pair) };

    /// The successors of a pair, in rising order.
    fn successor(&self, pair: u32, at: u32) -> u32
        requires pair { pair < pairs_of (game self.now) }
        requires at { at < length (successors_at (game self.now) pair) }
        ensures { result ≡ slice_index (successors_at (game self.now) pair) at };

    /// Whether a pair has successors, and each of them passes a test.
    fn leads_only_to<T: CellTest>(&self, pair: u32, test: &T) -> bool
        requires pair { pair < pairs_of (game self.now) }
        requires cells { T.cells test.now ≡ (game self.now).cells }
        ensures { IsTrue result ↔ LeadsOnlyTo (T.passes test.now) (game self.now) pair };

    ghost lawful: { (g : Self) → IsGraph (game g) };
}

/// Every graph can be asked what comes next.
impl<G: Graph> Forward for G {
    ghost game = { G.game };

    fn cells(&self) -> u32 {
        Graph::cells(self)
    }

    fn inputs(&self) -> u32 {
        Graph::inputs(self)
    }

    fn mark(&self, c: u32) -> Mark {
        Graph::mark(self, c)
    }

    fn fan(&self, pair: u32) -> u32 {
        Graph::fan(self, pair)
    }

    fn successor(&self, pair: u32, at: u32) -> u32 {
        Graph::successor(self, pair, at)
    }

    fn leads_only_to<T: CellTest>(&self, pair: u32, test: &T) -> bool {
        let fan = Graph::fan(self, pair);
        for at in 0..fan {
            if !test.passes(Graph::successor(self, pair, at)) {
                return false;
            }
        }
        fan > 0
    }

    ghost lawful = { G.lawful };
}
