//! The game of a plant, of which only the boxes of some cells are kept.
ghost use Rattle.std.specs.Prelude.{◌*◌};
ghost use Rattle.grid_quantiser.specs.Axes.{cells_of};
ghost use Rattle.game_parts.specs.inside.Padded.{padded};
ghost use Rattle.plant_game.specs.BoxGame.{IsBoxGraph};
ghost use Rattle.source_lists.specs.inside.Props.{shape_props};
ghost use Rattle.source_lists.specs.Shapes.{EachBoxHasSegments};

use game_core::{CellTest, Forward, Mark};
use grid_quantiser::{CellBox, Grid};
use pair_box::PairBox;
use source_lists::Shapes;

/// A game in which only the pairs are enabled whose boxes are kept.
#[derive(Drop)]
pub(crate) struct GamePart<'a> {
    pub(crate) grid: Grid,
    pub(crate) inputs: u32,
    pub(crate) marks: &'a [Mark],
    /// The first pair whose box is kept.
    pub(crate) first: u32,
    pub(crate) boxes: &'a [PairBox],
    pub(crate) shapes: &'a Shapes,
    ghost in_memory: { IsBoxGraph grid inputs marks.now (padded first boxes.now (cells_of grid * inputs)) } by { Prim.hlevel shape_props },
    ghost listed: { EachBoxHasSegments grid shapes.now (padded first boxes.now (cells_of grid * inputs)) } by { Prim.hlevel shape_props },
}

impl GamePart<'_> {
    ghost use Rattle.std.specs.Prelude.{◌≡◌, ◌<◌};
    ghost use Rattle.game_core.specs.Game.{pairs_of};
    ghost use Rattle.pair_box.specs.PlantBoxes.{box_at};
    ghost use Rattle.game_parts.specs.inside.GameParts.{part_game};

    /// The box of a pair: None where none is kept.
    #[inline]
    fn box_of(&self, pair: u32) -> Option<CellBox>
        requires { pair < pairs_of (part_game self.now) }
        ensures { result ≡ box_at (padded self.now.first self.now.boxes.now (cells_of self.now.grid * self.now.inputs)) pair }
    {
        if pair < self.first {
            return None;
        }
        let kept = (pair - self.first) as usize;
        if kept >= self.boxes.len() {
            return None;
        }
        self.boxes[kept].get()
    }
}

impl Forward for GamePart<'_> {
    ghost use Rattle.game_parts.specs.inside.GameParts.{part_game};

    ghost game = { part_game };

    fn cells(&self) -> u32 {
        self.grid.cells()
    }

    fn inputs(&self) -> u32 {
        self.inputs
    }

    fn mark(&self, c: u32) -> Mark {
        self.marks[c as usize]
    }

    fn fan(&self, pair: u32) -> u32 {
        match self.box_of(pair) {
            Some(b) => self.grid.box_count(b) as u32,
            None => 0,
        }
    }

    fn successor(&self, pair: u32, at: u32) -> u32 {
        match self.box_of(pair) {
            Some(b) => self.grid.nth_of(b, u64::from(at)),
            None => unreachable!(),
        }
    }

    fn leads_only_to<T: CellTest>(&self, pair: u32, test: &T) -> bool {
        self.shapes.box_passes(self.box_of(pair), test)
    }

    ghost lawful = { λ part. part.in_memory.graph };
}
