ghost use Rattle.std.specs.Prelude.{◌≡◌};

use plant_reading::LineFault;
use plant_record::LimitKind;

/// Why no plant was read.
#[derive(Clone, Copy, Debug, PartialEq, Eq)]
pub enum PlantFault {
    /// The first line that doesn't fit after those before it, counted from 1.
    Malformed { line: u32 },
    /// The text or its plant exceeds a limit.
    Limit { what: LimitKind },
    /// There was no memory left.
    Memory,
}

/// The fault of a line with this number, counted from 1, that was not read.
pub(crate) fn at_line(fault: LineFault, line: u32) -> PlantFault
    ensures malformed { fault ≡ LineFault.Malformed → result ≡ PlantFault.Malformed line }
    ensures memory { fault ≡ LineFault.Memory → result ≡ PlantFault.Memory }
{
    match fault {
        LineFault::Malformed => PlantFault::Malformed { line },
        LineFault::Memory => PlantFault::Memory,
    }
}
