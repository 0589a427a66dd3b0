//! The marks of all cells.
ghost use Rattle.std.specs.Prelude.{◌≡◌, ◌<◌, length, IfOk, IfSome};
ghost use Rattle.std.specs.List.{All, Contains};
ghost use Rattle.grid_quantiser.specs.Axes.{cells_of};
ghost use Rattle.grid_quantiser.specs.CellBoxes.{IsCellBox};
ghost use Rattle.game_core.specs.declared.game.Mark.TheVariants.{Goal, Obstacle};
ghost use Rattle.plant_record.specs.Description.{axes_of};
ghost use Rattle.plant_record.specs.CellMarks.{IsObstacleCell};
ghost use Rattle.successor_box.specs.SuccessorBoxes.{cells_in};
ghost use Rattle.turn_rows.specs.Targets.{LiesInTarget};
ghost use Rattle.plant_game.specs.Marks.{LiesInSomeTarget, AreMarked, AreMarksOf};

use game_core::Mark;
use grid_quantiser::{CellBox, Grid, Segments};
use plant_record::Plant;
use std::alloc::{AllocError, Global};

/// The mark of each cell. The obstacles come last, since a cell that touches one is no goal.
pub fn build_marks(alloc: Global, p: &Plant) -> Result<Vec<Mark>, AllocError>
    ensures { IfOk result (λ marks. AreMarksOf p.now marks.items) }
{
    let mut marks = vec![in alloc; Mark::Plain; p.grid().cells() as usize]?;
    mark_targets(p, &mut marks);
    mark_obstacles(p, &mut marks);
    Ok(marks)
}

/// Makes goals of the cells that lie in one of the targets.
fn mark_targets(p: &Plant, marks: &mut [Mark])
    requires { length marks.old ≡ cells_of (axes_of p.now) }
    ensures { AreMarked Goal (LiesInSomeTarget p.now) marks.old marks.new }
{
    for k in 0..p.targets() {
        mark_target(p, k, marks);
    }
}

/// Makes goals of the cells that lie in the target of a number. There is one mark for each cell.
pub fn mark_target(p: &Plant, target: u32, marks: &mut [Mark])
    requires target { target < length p.now.targets }
    requires one_each { length marks.old ≡ cells_of (axes_of p.now) }
    ensures { AreMarked Goal (LiesInTarget p.now target) marks.old marks.new }
{
    let grid = p.grid();
    let (lo, hi) = p.target(target);
    mark_box(grid, grid.within(&lo, &hi), Mark::Goal, marks);
}

/// Makes obstacles of the cells that touch one. There is one mark for each cell.
pub fn mark_obstacles(p: &Plant, marks: &mut [Mark])
    requires { length marks.old ≡ cells_of (axes_of p.now) }
    ensures { AreMarked Obstacle (IsObstacleCell p.now) marks.old marks.new }
{
    let grid = p.grid();
    for k in 0..p.obstacles() {
        let (lo, hi) = p.obstacle(k);
        mark_box(grid, grid.touching(&lo, &hi), Mark::Obstacle, marks);
    }
}

/// Gives the cells of a box a mark.
fn mark_box(grid: &Grid, b: Option<CellBox>, mark: Mark, marks: &mut [Mark])
    requires ordered { IfSome b (λ b. IsCellBox grid.now b.first b.last) }
    requires one_each { length marks.old ≡ cells_of grid.now }
    ensures { AreMarked mark (Contains (cells_in grid.now b)) marks.old marks.new }
{
    if let Some(b) = b {
        mark_cells(grid.segments(b), mark, marks);
    }
}

/// Gives cells a mark, segment by segment.
fn mark_cells(mut cells: Segments, mark: Mark, marks: &mut [Mark])
    requires { All (λ c. c < length marks.old) cells }
    ensures { AreMarked mark (Contains cells) marks.old marks.new }
{
    while let Some((first, len)) = cells.next_segment() {
        let first = first as usize;
        marks[first..first + len as usize].fill(mark);
    }
}
