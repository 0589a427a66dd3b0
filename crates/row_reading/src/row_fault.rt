ghost use Rattle.std.specs.Prelude.{◌≡◌, ℕ, ◌+◌, ◌^◌, ◌<◌};
ghost use Rattle.row_reading.specs.declared.row_fault.RowFault.TheVariants.{Malformed, Memory};
ghost use Rattle.row_reading.specs.TurnSteps.{fault_after};

use base::NoMemory;

/// Why no rows were read.
#[derive(Clone, Copy, Debug, PartialEq, Eq)]
pub enum RowFault {
    /// The first line that is refused, counted from 1.
    Malformed { line: u32 },
    /// There was no memory left.
    Memory,
}

impl RowFault {
    /// The fault where so many lines stand before.
    pub fn after(self, lines: u32) -> RowFault
        requires { (line : ℕ) → self ≡ Malformed line → lines + line < 2 ^ 32 }
        ensures { result ≡ fault_after lines self }
    {
        match self {
            RowFault::Malformed { line } => RowFault::Malformed { line: lines + line },
            RowFault::Memory => RowFault::Memory,
        }
    }
}

impl From<NoMemory> for RowFault {
    ghost from_gives = { λ _ e. e ≡ Memory };

    fn from(_refused: NoMemory) -> RowFault {
        RowFault::Memory
    }
}
