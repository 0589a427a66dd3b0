//! The row of a cell by the rows of its successors, also where the cell is a goal.
ghost use Rattle.std.specs.Prelude.{◌≡◌, ℕ, ◌<◌, length, Some};
ghost use Rattle.game_core.specs.declared.game.Row.{Row};
ghost use Rattle.game_core.specs.Game.{pairs_of, successors_at};
ghost use Rattle.game_core.specs.Right.{IsRightPlain};
ghost use Rattle.game_core.specs.Solution.{row_of};
ghost use Rattle.temporal_games.specs.inside.BestRows.{IsRankAfter, better};

use game_core::{Answer, Graph, Row};

/// One more than the least rank after an input, and the least such input.
pub(crate) fn best_row<G: Graph>(g: &G, answer: &Answer, c: u32) -> Option<Row>
    requires one_each { length answer.now ≡ (G.game g.now).cells }
    requires ranks { (s : ℕ) (row : Row) → row_of answer.now s ≡ Some row → row.rank < (G.game g.now).cells }
    requires cell { c < (G.game g.now).cells }
    ensures { IsRightPlain (G.game g.now) answer.now c result }
{
    let inputs = g.inputs();
    let first = c * inputs;
    let mut best = None;
    for input in 0..inputs {
        if let Some(rank) = rank_after(g, answer, first + input) {
            best = better(
                best,
                Row {
                    rank: rank + 1,
                    input,
                },
            );
        }
    }
    best
}

/// The greatest rank after a pair; None where its input isn't enabled, or a successor has no row.
fn rank_after<G: Graph>(g: &G, answer: &Answer, pair: u32) -> Option<u32>
    requires one_each { length answer.now ≡ (G.game g.now).cells }
    requires pair { pair < pairs_of (G.game g.now) }
    ensures { IsRankAfter answer.now (successors_at (G.game g.now) pair) result }
{
    let fan = g.fan(pair);
    if fan == 0 {
        return None;
    }
    let mut greatest = 0;
    for at in 0..fan {
        let row = answer.row(g.successor(pair, at))?;
        greatest = greatest.max(row.rank);
    }
    Some(greatest)
}

/// Of two rows that of the lesser rank, and else the older.
fn better(best: Option<Row>, row: Row) -> Option<Row>
    ensures { result ≡ better best row }
{
    match best {
        Some(old) if old.rank <= row.rank => Some(old),
        Some(_) | None => Some(row),
    }
}
