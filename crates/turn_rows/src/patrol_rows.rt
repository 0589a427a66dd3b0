//! The rows of each turn, of a patrol or of a text with one turn.
ghost use Rattle.std.specs.Prelude.{◌≡◌, ◌<◌, ◌^◌, [], ◌∷◌, length};
ghost use Rattle.game_core.specs.Solution.{row_of};
ghost use Rattle.turn_rows.specs.Rows.{rows_for};

use game_core::{Answer, Row};
use std::marker::Model;

/// The rows of each turn, seen as a list of lists of optional rows.
#[derive(Drop)]
pub struct PatrolRows {
    answers: Vec<Answer>,
}

impl Model for PatrolRows {
    ghost use Rattle.std.specs.Prelude.{List, Option, length, ◌<◌, ◌^◌};
    ghost use Rattle.game_core.specs.declared.game.Row.{Row};

    ghost Value = { List (List (Option Row)) };

    ghost view = { λ r. r.answers.items };

    ghost invariant = { λ r. length r.answers.items < 2 ^ 32 };
}

impl PatrolRows {
    /// One answer for each turn.
    pub fn new(answers: Vec<Answer>) -> PatrolRows
        requires { length answers.items < 2 ^ 32 }
        ensures { result ≡ answers.items }
    {
        PatrolRows { answers }
    }

    /// How many turns there are.
    pub fn turns(&self) -> u32
        ensures { result ≡ length self.now }
    {
        self.answers.len() as u32
    }

    /// None exactly where the cell has no row for the turn.
    pub fn row(&self, turn: u32, c: u32) -> Option<Row>
        requires turn { turn < length self.now }
        requires cell { c < length (rows_for self.now turn) }
        ensures { result ≡ row_of (rows_for self.now turn) c }
    {
        self.turn(turn).row(c)
    }

    /// The rows of the only turn.
    pub fn into_only(self) -> Answer
        requires { length self ≡ 1 }
        ensures { self ≡ result ∷ [] }
    {
        let mut answers = self.answers;
        match answers.pop() {
            Some(answer) => answer,
            None => unreachable!(),
        }
    }

    /// The rows of all turns.
    pub fn as_slice(&self) -> &[Answer]
        ensures rows { result.now ≡ self.now }
        ensures few { length result.now < 2 ^ 32 }
    {
        &self.answers
    }

    /// The rows of one turn.
    pub fn turn(&self, turn: u32) -> &Answer
        requires { turn < length self.now }
        ensures { result.now ≡ rows_for self.now turn }
    {
        &self.answers[turn as usize]
    }
}
