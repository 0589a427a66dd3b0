ghost use Rattle.plant_game.specs.inside.Props.{box_props};
ghost use Rattle.source_lists.specs.SourceLists.{AreSourcesOf};

use crate::boxed_game::BoxedGame;
use game_core::{Graph, Mark};
use grid_quantiser::CellBox;
use source_lists::Sources;

/// The game of a plant, from both ends of its edges.
#[derive(Drop)]
pub struct Abstraction {
    pub(crate) boxed: BoxedGame,
    pub(crate) sources: Sources,
    ghost in_memory: { AreSourcesOf boxed.grid boxed.boxes sources } by { Prim.hlevel box_props },
}

impl Abstraction {
    ghost use Rattle.std.specs.Prelude.{◌≡◌, ◌<◌};
    ghost use Rattle.game_core.specs.Game.{pairs_of};
    ghost use Rattle.pair_box.specs.PlantBoxes.{box_at};
    ghost use Rattle.abstraction_table.specs.Table.{game_of, boxes_of};

    /// The box of a pair: None where its input isn't enabled.
    pub fn boxes(&self, pair: u32) -> Option<CellBox>
        requires { pair < pairs_of (game_of self.now) }
        ensures { result ≡ box_at (boxes_of self.now) pair }
    {
        self.boxed.boxes(pair)
    }
}

impl Graph for Abstraction {
    ghost use Rattle.abstraction_table.specs.Table.{game_of};

    ghost game = { game_of };

    fn cells(&self) -> u32 {
        self.boxed.cells()
    }

    fn inputs(&self) -> u32 {
        self.boxed.inputs()
    }

    fn mark(&self, c: u32) -> Mark {
        self.boxed.mark(c)
    }

    fn fan(&self, pair: u32) -> u32 {
        self.boxed.fan(pair)
    }

    fn successor(&self, pair: u32, at: u32) -> u32 {
        self.boxed.successor(pair, at)
    }

    fn sources(&self, c: u32) -> &[u32] {
        self.sources.row(c)
    }

    ghost lawful = { λ g. g.boxed.in_memory.graph };
}
