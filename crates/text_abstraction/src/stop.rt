ghost use Rattle.std.specs.Prelude.{◌≡◌};
ghost use Rattle.text_abstraction.specs.Causes.{of_plant, of_table, of_slopes, of_build, of_read, outcome_of, without_memory};

use abstraction_table::BuildFault;
use command_line::{Failure, Outcome, Refusal};
use controller_table::TableFault;
use plant_record::LimitKind;
use plant_text::PlantFault;
use run_devices::{NoMemory, ReadFault};
use successor_box::SlopeFault;

/// Why a command has no answer.
#[derive(Clone, Copy)]
pub enum Stop {
    /// Its text is refused.
    Refused(Refusal),
    /// Its source failed, or there was no memory left.
    Failed(Failure),
}

impl From<PlantFault> for Stop {
    ghost from_gives = { λ fault stop. stop ≡ of_plant fault };

    fn from(fault: PlantFault) -> Stop {
        match fault {
            PlantFault::Malformed { line } => Stop::Refused(Refusal::Malformed {
                line: u64::from(line),
            }),
            PlantFault::Limit { what } => Stop::Refused(Refusal::Limit { what }),
            PlantFault::Memory => Stop::Failed(Failure::Memory),
        }
    }
}

impl From<TableFault> for Stop {
    ghost from_gives = { λ fault stop. stop ≡ of_table fault };

    fn from(fault: TableFault) -> Stop {
        match fault {
            TableFault::Malformed { line } => Stop::Refused(Refusal::Malformed {
                line: u64::from(line),
            }),
            TableFault::Limit { what } => Stop::Refused(Refusal::Limit { what }),
            TableFault::Memory => Stop::Failed(Failure::Memory),
        }
    }
}

impl From<SlopeFault> for Stop {
    ghost from_gives = { λ fault stop. stop ≡ of_slopes fault };

    fn from(fault: SlopeFault) -> Stop {
        match fault {
            SlopeFault::Overflow { equation, input } => {
                Stop::Refused(Refusal::Overflow { equation, input })
            }
            SlopeFault::Memory => Stop::Failed(Failure::Memory),
        }
    }
}

impl From<BuildFault> for Stop {
    ghost from_gives = { λ fault stop. stop ≡ of_build fault };

    fn from(fault: BuildFault) -> Stop {
        match fault {
            BuildFault::TooManyEdges { .. } => Stop::Refused(Refusal::Limit {
                what: LimitKind::Edges,
            }),
            BuildFault::Memory => Stop::Failed(Failure::Memory),
        }
    }
}

impl From<NoMemory> for Stop {
    ghost from_gives = { λ _ stop. stop ≡ without_memory };

    fn from(_refused: NoMemory) -> Stop {
        Stop::Failed(Failure::Memory)
    }
}

impl From<ReadFault> for Stop {
    ghost from_gives = { λ fault stop. stop ≡ of_read fault };

    fn from(fault: ReadFault) -> Stop {
        Stop::Failed(fault.into())
    }
}

impl Stop {
    /// The end of a run that has no answer.
    pub fn outcome(self) -> Outcome
        ensures { result ≡ outcome_of self }
    {
        match self {
            Stop::Refused(refusal) => Outcome::Refused(refusal),
            Stop::Failed(failure) => Outcome::Failed(failure),
        }
    }
}
