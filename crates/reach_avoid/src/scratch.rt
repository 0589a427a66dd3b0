//! With what the board of a reach game begins.
ghost use Rattle.std.specs.Prelude.{◌≡◌};
ghost use Rattle.reach_avoid.specs.ReachBoards.{word_at};

use board_rounds::Start;
use cell_counters::NONE;
use game_core::{Forward, Mark};

/// A counter for each pair, and a minimum for each cell.
pub struct ReachStart;

/// The memory in which a reach game is solved.
pub type Scratch = board_rounds::Scratch<ReachStart>;

impl Start for ReachStart {
    ghost use Rattle.std.specs.Prelude.{refl};
    ghost use Rattle.board_rounds.specs.Boards.{fans_of};
    ghost use Rattle.reach_avoid.specs.ReachBoards.{word_for, first_words};

    ghost number = { word_for };

    ghost counters = { fans_of };

    ghost words = { first_words };

    fn count_counters<G: Forward>(g: &G) -> u32 {
        g.cells() * g.inputs()
    }

    fn number_at<G: Forward>(g: &G, c: u32) -> u64 {
        first_word(g.mark(c))
    }

    ghost joined = { λ g. refl };
}

fn first_word(mark: Mark) -> u64
    ensures { result ≡ word_at mark }
{
    match mark {
        Mark::Goal => 1,
        Mark::Obstacle => 0,
        Mark::Plain => NONE,
    }
}
