//! With what the board of a keep game begins.
ghost use Rattle.std.specs.Prelude.{◌≡◌, ◌<◌};
ghost use Rattle.safety_game.specs.KeepBoards.{enabled_at};

use board_rounds::Start;
use game_core::Forward;

/// A counter for each pair, then one for each cell, and no minimum.
pub struct KeepStart;

/// The memory in which a keep game is solved.
pub type Scratch = board_rounds::Scratch<KeepStart>;

impl Start for KeepStart {
    ghost use Rattle.std.specs.Prelude.{[]};
    ghost use Rattle.std.proofs.lemmas.List.{append-nil};
    ghost use Rattle.safety_game.specs.KeepBoards.{enabled_at, counters_of};

    ghost number = { enabled_at };

    ghost counters = { counters_of };

    ghost words = { λ g. [] };

    fn count_counters<G: Forward>(g: &G) -> u32 {
        g.cells() * g.inputs() + g.cells()
    }

    fn number_at<G: Forward>(g: &G, c: u32) -> u64 {
        count_enabled(g, c)
    }

    ghost joined = { λ g. append-nil (counters_of g) };
}

/// How many inputs of a cell are enabled.
fn count_enabled<G: Forward>(g: &G, c: u32) -> u64
    requires { c < (G.game g.now).cells }
    ensures { result ≡ enabled_at (G.game g.now) c }
{
    let first = c * g.inputs();
    let mut count = 0;
    for input in 0..g.inputs() {
        if g.fan(first + input) > 0 {
            count += 1;
        }
    }
    count
}
