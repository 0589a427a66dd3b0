//! With what the board of a game begins.
use game_core::Forward;

/// With what a solver's board begins: after a counter for each pair, a number for each cell.
///
/// A counter of a pair begins as the number of its successors. The numbers of the cells are further counters, or minima.
pub trait Start: Sync {
    ghost use Rattle.std.specs.Prelude.{◌≡◌, ℕ, ◌<◌, List, ◌++◌, length};
    ghost use Rattle.game_core.specs.Game.{Game};
    ghost use Rattle.board_rounds.specs.Boards.{fans_of, for_each_cell};

    /// The number of a cell.
    ghost number: { Game → ℕ → ℕ };

    /// The first numbers of all counters.
    ghost counters: { Game → List ℕ };

    /// The first numbers of all minima.
    ghost words: { Game → List ℕ };

    /// How many counters there are.
    fn count_counters<G: Forward>(g: &G) -> u32
        ensures { result ≡ length (counters (G.game g.now)) };

    /// The number of a cell.
    fn number_at<G: Forward>(g: &G, c: u32) -> u64
        requires { c < (G.game g.now).cells }
        ensures { result ≡ number (G.game g.now) c };

    /// Counters and minima are the numbers of the pairs and of the cells.
    ghost joined: { (g : Game) → counters g ++ words g ≡ fans_of g ++ for_each_cell g (number g) };
}
