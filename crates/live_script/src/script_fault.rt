ghost use Rattle.std.specs.Prelude.{◌≡◌};
ghost use Rattle.live_script.specs.declared.script_fault.ScriptFault.TheVariants.{Memory};

use base::NoMemory;
use plant_record::LimitKind;

/// Why a script is no more to be read.
#[derive(Clone, Copy, Debug, PartialEq, Eq)]
pub enum ScriptFault {
    /// The first line that doesn't fit after those before it, counted from 1 through the whole script.
    Malformed { line: u64 },
    /// The plant of a table exceeds a limit.
    Limit { what: LimitKind },
    /// The script has too many bytes.
    ScriptTooLong,
    /// A ninth table is announced.
    TooManyTables,
    /// There was no memory left.
    Memory,
}

impl From<NoMemory> for ScriptFault {
    ghost from_gives = { λ _ fault. fault ≡ Memory };

    fn from(_refused: NoMemory) -> ScriptFault {
        ScriptFault::Memory
    }
}
