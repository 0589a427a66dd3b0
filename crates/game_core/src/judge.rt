use crate::game::Forward;

/// Judges the cells of a game: which are right, which wrong.
pub trait CellJudge {
    ghost use Rattle.std.specs.Prelude.{ℕ, ◌≤◌};
    ghost use Rattle.game_core.specs.Game.{Game};
    ghost use Rattle.game_core.specs.Judging.{IsSameAt, IsFirstFailure};

    /// That the cells of a game can be judged, by how many cells and inputs it has.
    ghost judges: { Self → ℕ → ℕ → Type 0 };

    /// That a cell of a game is right.
    ghost is_right: { Self → Game → ℕ → Type 0 };

    /// The first of the cells from one up to another that is wrong.
    fn first_wrong<G: Forward>(&self, g: &G, from: u32, to: u32) -> Option<u32>
        requires judged { judges self.now (G.game g.now).cells (G.game g.now).inputs }
        requires range { to ≤ (G.game g.now).cells }
        ensures { IsFirstFailure (is_right self.now (G.game g.now)) from to result };

    /// Only the cell's mark and successors matter.
    ghost local: { (judge : Self) (g h : Game) (c : ℕ) → IsSameAt c g h → is_right judge g c → is_right judge h c };
}
