//! The line that sums up a solved demo plant.

ghost use Rattle.std.specs.Prelude.{◌≡◌, map, length, sum_by, IfOk};
ghost use Rattle.game_core.specs.Solution.{IsReachSolution, rank_in, greatest};
ghost use Rattle.plant_game.specs.Abstraction.{IsGameOf};
ghost use Rattle.demo_plants.specs.Demo.{demo_plant_of, IsSummaryOf};

use crate::generator::push_part;
use game_core::{Answer, Graph};
use run_devices::NoMemory;
use std::alloc::Global;

/// The line of the n-th demo plant, of its game and the game's solution.
pub fn demo_line<G: Graph>(
    alloc: Global,
    n: u32,
    game: &G,
    answer: &Answer,
) -> Result<Vec<u8>, NoMemory>
    requires game { IsGameOf (demo_plant_of n) (G.game game.now) }
    requires solved { IsReachSolution (G.game game.now) answer.now }
    ensures { IfOk result (λ text. IsSummaryOf n (demo_plant_of n) text.items) }
{
    let mut text = Vec::new(alloc);
    push_part(&mut text, b"demo ", n)?;
    push_part(&mut text, b" cells ", game.cells())?;
    push_part(&mut text, b" pairs ", game.cells() * game.inputs())?;
    push_part(&mut text, b" edges ", count_edges(game))?;
    push_part(&mut text, b" won ", answer.row_count())?;
    push_part(&mut text, b" rank ", greatest_rank(answer))?;
    text.extend_from_slice(b"\n")?;
    Ok(text)
}

/// How many successors all pairs have together.
fn count_edges<G: Graph>(game: &G) -> u32
    ensures { result ≡ sum_by length (G.game game.now).successors }
{
    let mut count = 0;
    for pair in 0..game.cells() * game.inputs() {
        count += game.fan(pair);
    }
    count
}

/// The greatest rank, or 0 where no cell has a row.
fn greatest_rank(answer: &Answer) -> u32
    ensures { result ≡ greatest (map rank_in answer.now) }
{
    let mut top = 0;
    for cell in 0..answer.cells() {
        if let Some(row) = answer.row(cell) {
            top = row.rank.max(top);
        }
    }
    top
}
