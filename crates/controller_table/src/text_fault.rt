ghost use Rattle.std.specs.Prelude.{◌≡◌, ◌≢◌};
ghost use Rattle.controller_table.specs.declared.text_fault.TextFault.TheVariants.{Turns};
ghost use Rattle.controller_table.specs.HeadedTexts.{text_fault};

use crate::table_fault::TableFault;
use plant_record::LimitKind;
use row_reading::RowFault;

/// Why no text was read.
#[derive(Clone, Copy, Debug, PartialEq, Eq)]
pub enum TextFault {
    /// The first line that doesn't fit after those before it, counted from 1.
    Malformed { line: u32 },
    /// The text or its plant exceeds a limit.
    Limit { what: LimitKind },
    /// The plant has more cells, over all its targets, than a patrol may have.
    Turns,
    /// There was no memory left.
    Memory,
}

impl TextFault {
    /// The fault of a text that has no limit on its turns.
    pub fn without_turns(self) -> TableFault
        requires { self ≢ Turns }
        ensures { text_fault result ≡ self }
    {
        match self {
            TextFault::Malformed { line } => TableFault::Malformed { line },
            TextFault::Limit { what } => TableFault::Limit { what },
            TextFault::Turns => unreachable!(),
            TextFault::Memory => TableFault::Memory,
        }
    }
}

impl From<RowFault> for TextFault {
    ghost use Rattle.std.specs.Prelude.{◌≡◌};
    ghost use Rattle.controller_table.specs.HeadedTexts.{fault_of_rows};

    ghost from_gives = { λ fault e. e ≡ fault_of_rows fault };

    fn from(fault: RowFault) -> TextFault {
        match fault {
            RowFault::Malformed { line } => TextFault::Malformed { line },
            RowFault::Memory => TextFault::Memory,
        }
    }
}
