//! The arrivals of a turn.
ghost use Rattle.std.specs.Prelude.{◌≡◌, ◌<◌, true, false, length, count_by, IfOk};
ghost use Rattle.plant_game.specs.Abstraction.{IsGameOf};
ghost use Rattle.temporal_games.specs.inside.PatrolSearch.{withdrawn, is_gone, is_goal, AreTargetMarks};

use game_core::{Answer, Graph, Mark, NoMemory, Row};
use plant_game::{mark_obstacles, mark_target};
use plant_record::Plant;
use std::alloc::Global;
use std::marker::Model;

/// The marks of a turn, in which its arrivals are goals. One mark for each cell.
#[derive(Drop)]
pub(crate) struct Arrivals {
    marks: Vec<Mark>,
}

impl Model for Arrivals {
    ghost use Rattle.std.specs.Prelude.{List};
    ghost use Rattle.game_core.specs.declared.game.Mark.{Mark};

    ghost Value = { List Mark };

    ghost view = { λ a. a.marks.items };
}

impl Arrivals {
    /// All cells of a target that are no obstacles.
    pub(crate) fn in_target<G: Graph>(
        alloc: Global,
        g: &G,
        p: &Plant,
        turn: u32,
    ) -> Result<Arrivals, NoMemory>
        requires game { IsGameOf p.now (G.game g.now) }
        requires turn { turn < length p.now.targets }
        ensures { IfOk result (AreTargetMarks p.now (G.game g.now) turn) }
    {
        let mut marks = vec![in alloc; Mark::Plain; g.cells() as usize]?;
        mark_target(p, turn, &mut marks);
        mark_obstacles(p, &mut marks);
        Ok(Arrivals { marks })
    }

    pub(crate) fn marks(&self) -> &[Mark]
        ensures { result.now ≡ self.now }
    {
        &self.marks
    }

    /// Arrivals without a row are arrivals no more. Answers whether there was one.
    pub(crate) fn remove_lost(&mut self, answer: &Answer) -> bool
        requires { length answer.now ≡ length self.old }
        ensures marks { self.new ≡ withdrawn self.old answer.now }
        ensures same { result ≡ false → self.new ≡ self.old }
        ensures fewer { result ≡ true → count_by is_goal self.new < count_by is_goal self.old }
    {
        let mut found = false;
        for c in 0..answer.cells() {
            if is_gone(self.marks[c as usize], answer.row(c)) {
                self.marks[c as usize] = Mark::Plain;
                found = true;
            }
        }
        found
    }
}

/// Whether a goal has no row.
fn is_gone(mark: Mark, row: Option<Row>) -> bool
    ensures { result ≡ is_gone mark row }
{
    mark == Mark::Goal && row.is_none()
}
