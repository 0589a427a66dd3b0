ghost use Rattle.std.specs.Prelude.{IfOk};
ghost use Rattle.game_core.specs.Keep.{IsKeepSolution};
ghost use Rattle.game_core.specs.Solution.{IsReachSolution};

use crate::answer::Answer;
use crate::falling::Falling;
use crate::game::Graph;
use crate::search::Search;
use base::NoMemory;
use std::alloc::Global;

/// The reach solution of a graph, by one thread.
pub fn solve_plain<G: Graph>(alloc: Global, g: &G) -> Result<Answer, NoMemory>
    ensures { IfOk result (λ a. IsReachSolution (G.game g.now) a) }
{
    let mut search = Search::new(alloc, g)?;
    search.gather(g);
    let mut head = 0;
    while head < search.found() {
        search.take(g, head);
        head += 1;
    }
    Ok(search.into_answer())
}

/// The keep solution of a graph, by one thread. Goals count as plain.
pub fn keep_plain<G: Graph>(alloc: Global, g: &G) -> Result<Answer, NoMemory>
    ensures { IfOk result (λ a. IsKeepSolution (G.game g.now) a) }
{
    let mut falling = Falling::new(alloc, g)?;
    falling.gather(g);
    let mut head = 0;
    while head < falling.found() {
        falling.take(g, head);
        head += 1;
    }
    falling.rows(alloc, g)
}
