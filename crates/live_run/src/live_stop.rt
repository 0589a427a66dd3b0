ghost use Rattle.std.specs.Prelude.{◌≡◌};
ghost use Rattle.live_run.specs.declared.live_stop.LiveStop.TheVariants.{Unread, Unanswered};
ghost use Rattle.live_run.specs.LiveCauses.{of_script};
ghost use Rattle.live_run.specs.inside.LiveWorking.{outcome_of_stop};

use command_line::{Failure, Outcome, Refusal};
use live_script::ScriptFault;
use run_devices::ReadFault;

/// Why there are no answers.
#[derive(Clone, Copy)]
pub enum LiveStop {
    /// The source wasn't read.
    Unread(ReadFault),
    /// The script is refused, or there was no memory left.
    Unanswered(ScriptFault),
}

impl From<ReadFault> for LiveStop {
    ghost from_gives = { λ fault stop. stop ≡ Unread fault };

    fn from(fault: ReadFault) -> LiveStop {
        LiveStop::Unread(fault)
    }
}

impl From<ScriptFault> for LiveStop {
    ghost from_gives = { λ fault stop. stop ≡ Unanswered fault };

    fn from(fault: ScriptFault) -> LiveStop {
        LiveStop::Unanswered(fault)
    }
}

impl LiveStop {
    /// The end of a run that has no answers.
    pub fn outcome(self) -> Outcome
        ensures { result ≡ outcome_of_stop self }
    {
        match self {
            LiveStop::Unread(fault) => Outcome::Failed(fault.into()),
            LiveStop::Unanswered(fault) => unanswered(fault),
        }
    }
}

fn unanswered(fault: ScriptFault) -> Outcome
    ensures { result ≡ of_script fault }
{
    match fault {
        ScriptFault::Malformed { line } => Outcome::Refused(Refusal::Malformed { line }),
        ScriptFault::Limit { what } => Outcome::Refused(Refusal::Limit { what }),
        ScriptFault::ScriptTooLong => Outcome::Refused(Refusal::ScriptTooLong),
        ScriptFault::TooManyTables => Outcome::Refused(Refusal::TooManyTables),
        ScriptFault::Memory => Outcome::Failed(Failure::Memory),
    }
}
