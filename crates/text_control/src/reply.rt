ghost use Rattle.std.specs.Prelude.{◌≡◌};
ghost use Rattle.text_control.specs.Control.{reply_number};

use crate::statuses::{APPLY, ARRIVED, NO_ROW, WRONG_SIZE};

/// What is to be done at a state.
#[derive(Clone, Copy, Debug, PartialEq, Eq)]
pub enum Reply {
    /// The inputs are to be applied.
    Apply,
    /// The state has come to the targets: nothing has to be applied.
    Arrived,
    /// The text promises nothing at the state.
    NoRow,
    /// These aren't as many numbers as there are states and inputs.
    WrongSizes,
}

impl Reply {
    /// The number that a C caller is told.
    pub fn number(self) -> i32
        ensures { result ≡ reply_number self }
    {
        match self {
            Reply::Apply => APPLY,
            Reply::Arrived => ARRIVED,
            Reply::NoRow => NO_ROW,
            Reply::WrongSizes => WRONG_SIZE,
        }
    }
}
