ghost use Rattle.std.specs.Prelude.{◌≡◌, length};
ghost use Rattle.game_core.specs.Game.{with_marks};
ghost use Rattle.game_core.specs.inside.Remarks.{remarked_lawful};

use crate::game::{Graph, Mark};

/// A graph with other marks.
#[derive(Drop)]
pub struct Remark<'a, G: Graph> {
    graph: &'a G,
    marks: &'a [Mark],
    ghost one_mark_each: { length marks.now ≡ (G.game graph.now).cells },
}

impl<'a, G: Graph> Remark<'a, G> {
    /// The graph with these marks in place of its own, one for each cell.
    pub fn new(graph: &'a G, marks: &'a [Mark]) -> Remark<'a, G>
        requires { length marks.now ≡ (G.game graph.now).cells }
        ensures { ⟦<Remark<'a, G> as Graph>⟧.game result ≡ with_marks (G.game graph.now) marks.now }
    {
        Remark { graph, marks }
    }
}

impl<'a, G: Graph> Graph for Remark<'a, G> {
    ghost game = { λ r. with_marks (G.game r.graph.now) r.marks.now };

    fn cells(&self) -> u32 {
        self.graph.cells()
    }

    fn inputs(&self) -> u32 {
        self.graph.inputs()
    }

    fn mark(&self, c: u32) -> Mark {
        self.marks[c as usize]
    }

    fn fan(&self, pair: u32) -> u32 {
        self.graph.fan(pair)
    }

    fn successor(&self, pair: u32, at: u32) -> u32 {
        self.graph.successor(pair, at)
    }

    fn sources(&self, c: u32) -> &[u32] {
        self.graph.sources(c)
    }

    ghost lawful = { λ r. remarked_lawful (G.game r.graph.now) r.marks.now r.one_mark_each (G.lawful r.graph.now) };
}
