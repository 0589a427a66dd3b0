ghost use Rattle.std.specs.Prelude.{◌≡◌};
ghost use Rattle.text_control.specs.Visits.{visit_number};

use crate::statuses::{NEXT_TURN, SAME_TURN, WRONG_SIZE};

/// What a visit of a state does.
#[derive(Clone, Copy, Debug, PartialEq, Eq)]
pub enum Visit {
    /// The state is an arrival of a patrol, and the next turn is due.
    Next,
    /// The turn is as before.
    Same,
    /// These aren't as many numbers as there are states.
    WrongSize,
}

impl Visit {
    /// The number that a C caller is told.
    pub fn number(self) -> i32
        ensures { result ≡ visit_number self }
    {
        match self {
            Visit::Next => NEXT_TURN,
            Visit::Same => SAME_TURN,
            Visit::WrongSize => WRONG_SIZE,
        }
    }
}
