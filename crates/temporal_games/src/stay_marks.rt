//! Marks under which a solver is called in place of the graph's own.
ghost use Rattle.std.specs.Prelude.{◌≡◌, length, IfOk};
ghost use Rattle.temporal_games.specs.inside.StayMarks.{hold_mark, marks_to_hold, end_mark, marks_to_reach};

use game_core::{Answer, Graph, Mark, NoMemory, Row};
use std::alloc::Global;

/// Marks under which the controller has to keep to the goals.
pub(crate) fn marks_to_hold<G: Graph>(alloc: Global, g: &G) -> Result<Vec<Mark>, NoMemory>
    ensures { IfOk result (λ marks. marks.items ≡ marks_to_hold (G.game g.now)) }
{
    let cells = g.cells();
    let mut marks = vec![in alloc; Mark::Obstacle; cells as usize]?;
    for c in 0..cells {
        marks[c as usize] = hold_mark(g.mark(c));
    }
    Ok(marks)
}

fn hold_mark(mark: Mark) -> Mark
    ensures { result ≡ hold_mark mark }
{
    match mark {
        Mark::Goal => Mark::Plain,
        Mark::Obstacle | Mark::Plain => Mark::Obstacle,
    }
}

/// Marks under which the cells with a row are to be reached.
pub(crate) fn marks_to_reach<G: Graph>(
    alloc: Global,
    g: &G,
    held_answer: &Answer,
) -> Result<Vec<Mark>, NoMemory>
    requires { length held_answer.now ≡ (G.game g.now).cells }
    ensures { IfOk result (λ marks. marks.items ≡ marks_to_reach (G.game g.now) held_answer.now) }
{
    let cells = g.cells();
    let mut marks = vec![in alloc; Mark::Plain; cells as usize]?;
    for c in 0..cells {
        marks[c as usize] = end_mark(g.mark(c), held_answer.row(c));
    }
    Ok(marks)
}

fn end_mark(mark: Mark, row: Option<Row>) -> Mark
    ensures { result ≡ end_mark mark row }
{
    match row {
        Some(_) => Mark::Goal,
        None => match mark {
            Mark::Obstacle => Mark::Obstacle,
            Mark::Goal | Mark::Plain => Mark::Plain,
        },
    }
}
