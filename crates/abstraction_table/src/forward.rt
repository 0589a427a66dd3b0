ghost use Rattle.source_lists.specs.inside.Props.{shape_props};
ghost use Rattle.source_lists.specs.Shapes.{EachBoxHasSegments};

use crate::boxed_game::BoxedGame;
use game_core::{CellTest, Forward, Mark};
use grid_quantiser::CellBox;
use source_lists::Shapes;

/// The forward abstraction: the game of a plant by its boxes, with their segments.
#[derive(Drop)]
pub struct ForwardAbstraction {
    pub(crate) boxed: BoxedGame,
    pub(crate) shapes: Shapes,
    ghost listed: { EachBoxHasSegments boxed.grid shapes boxed.boxes } by { Prim.hlevel shape_props },
}

impl ForwardAbstraction {
    ghost use Rattle.std.specs.Prelude.{◌≡◌, ◌<◌};
    ghost use Rattle.game_core.specs.Game.{pairs_of};
    ghost use Rattle.pair_box.specs.PlantBoxes.{box_at};
    ghost use Rattle.abstraction_table.specs.Table.{forward_game, boxes_forward};

    /// The box of a pair: None where its input isn't enabled.
    pub fn boxes(&self, pair: u32) -> Option<CellBox>
        requires { pair < pairs_of (forward_game self.now) }
        ensures { result ≡ box_at (boxes_forward self.now) pair }
    {
        self.boxed.boxes(pair)
    }
}

impl Forward for ForwardAbstraction {
    ghost use Rattle.abstraction_table.specs.Table.{forward_game};

    ghost game = { forward_game };

    fn cells(&self) -> u32 {
        self.boxed.cells()
    }

    fn inputs(&self) -> u32 {
        self.boxed.inputs()
    }

    fn mark(&self, c: u32) -> Mark {
        self.boxed.mark(c)
    }

    fn fan(&self, pair: u32) -> u32 {
        self.boxed.fan(pair)
    }

    fn successor(&self, pair: u32, at: u32) -> u32 {
        self.boxed.successor(pair, at)
    }

    fn leads_only_to<T: CellTest>(&self, pair: u32, test: &T) -> bool {
        self.shapes.box_passes(self.boxes(pair), test)
    }

    ghost lawful = { λ o. o.boxed.in_memory.graph };
}
