ghost use Rattle.std.specs.Prelude.{◌≡◌};
ghost use Rattle.text_control.specs.Followed.{follow_number};

use crate::statuses::{FOLLOWED, NO_INPUT, NOT_FOLLOWED, OVERFLOW, WRONG_SIZE};

/// Whether a next state is one to which the plant's equations may lead.
#[derive(Clone, Copy, Debug, PartialEq, Eq)]
pub enum Follow {
    /// It lies in the successor box of the state's cell under the values.
    Inside,
    /// It doesn't, or the box leaves the domain.
    Outside,
    /// The state lies outside the plant's ranges, or the values are no input vector.
    NoInput,
    /// These aren't as many numbers as there are states, inputs and states.
    WrongSizes,
    /// A number of the plant leaves the range: its boxes aren't told.
    Overflow,
}

impl Follow {
    /// The number that a C caller is told.
    pub fn number(self) -> i32
        ensures { result ≡ follow_number self }
    {
        match self {
            Follow::Inside => FOLLOWED,
            Follow::Outside => NOT_FOLLOWED,
            Follow::NoInput => NO_INPUT,
            Follow::WrongSizes => WRONG_SIZE,
            Follow::Overflow => OVERFLOW,
        }
    }
}
