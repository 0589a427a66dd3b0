ghost use Rattle.std.specs.Prelude.{◌≡◌, ◌<◌, length, slice_index};
ghost use Rattle.grid_quantiser.specs.CellBoxes.{IsCellBox, cells_between};
ghost use Rattle.plant_game.specs.BoxGame.{IsBoxGraph};
ghost use Rattle.source_lists.specs.Fans.{counts_of, HasFan, AreFansOf};
ghost use Rattle.source_lists.specs.inside.Props.{shape_props};

use game_core::Mark;
use grid_quantiser::{CellBox, Grid};
use pair_box::PairBox;
use raw_slots::RawList;
use source_lists::Fans;

/// The game of a plant by the boxes of its pairs. A pair's successors are the cells of its box, in rising
/// order; they are not listed in memory.
#[derive(Drop)]
pub(crate) struct BoxedGame {
    pub(crate) grid: Grid,
    pub(crate) inputs: u32,
    pub(crate) marks: Vec<Mark>,
    pub(crate) boxes: RawList<PairBox>,
    pub(crate) fans: Fans,
    ghost in_memory: { IsBoxGraph grid inputs marks.items boxes } by { Prim.hlevel shape_props },
    ghost counted: { AreFansOf grid boxes (counts_of fans) } by { Prim.hlevel shape_props },
}

impl BoxedGame {
    ghost use Rattle.std.specs.Prelude.{◌≡◌, ◌<◌, length, slice_index};
    ghost use Rattle.game_core.specs.Game.{pairs_of, mark_of, successors_at};
    ghost use Rattle.pair_box.specs.PlantBoxes.{box_at};
    ghost use Rattle.abstraction_table.specs.Table.{game_in};

    pub(crate) fn cells(&self) -> u32
        ensures { result ≡ (game_in self.now).cells }
    {
        self.grid.cells()
    }

    pub(crate) fn inputs(&self) -> u32
        ensures { result ≡ (game_in self.now).inputs }
    {
        self.inputs
    }

    pub(crate) fn mark(&self, c: u32) -> Mark
        requires { c < (game_in self.now).cells }
        ensures { result ≡ mark_of (game_in self.now) c }
    {
        self.marks[c as usize]
    }

    /// The box of a pair: None where its input isn't enabled.
    pub(crate) fn boxes(&self, pair: u32) -> Option<CellBox>
        requires { pair < pairs_of (game_in self.now) }
        ensures { result ≡ box_at self.now.boxes pair }
    {
        self.boxes.as_slice()[pair as usize].get()
    }

    /// How many successors a pair has.
    pub(crate) fn fan(&self, pair: u32) -> u32
        requires { pair < pairs_of (game_in self.now) }
        ensures { result ≡ length (successors_at (game_in self.now) pair) }
    {
        self.fans.fan_of_box(self.boxes(pair))
    }

    /// The successors of a pair, in rising order.
    pub(crate) fn successor(&self, pair: u32, at: u32) -> u32
        requires pair { pair < pairs_of (game_in self.now) }
        requires at { at < length (successors_at (game_in self.now) pair) }
        ensures { result ≡ slice_index (successors_at (game_in self.now) pair) at }
    {
        match self.boxes(pair) {
            Some(b) => self.cell_of(b, at),
            None => unreachable!(),
        }
    }

    /// The cell at a slot of a box. A box begins and ends with its corners.
    #[inline]
    fn cell_of(&self, b: CellBox, at: u32) -> u32
        requires ordered { IsCellBox self.now.grid b.first b.last }
        requires counted { HasFan self.now.grid (counts_of self.now.fans) b }
        requires at { at < length (cells_between self.now.grid b.first b.last) }
        ensures { result ≡ slice_index (cells_between self.now.grid b.first b.last) at }
    {
        if at == 0 {
            return b.first;
        }
        if at + 1 == self.fans.fan_of_box(Some(b)) {
            return b.last;
        }
        self.grid.nth_of(b, u64::from(at))
    }
}
