use controller_table::TextFault;

/// Why no text was read.
#[derive(Clone, Copy, Debug, PartialEq, Eq)]
pub enum ControlFault {
    /// The first line that doesn't fit after those before it, counted from 1.
    Malformed { line: u32 },
    /// The text or its plant exceeds a limit.
    Limit,
    /// There was no memory left.
    Memory,
}

impl From<TextFault> for ControlFault {
    ghost use Rattle.std.specs.Prelude.{◌≡◌};
    ghost use Rattle.text_control.specs.Texts.{control_fault};

    ghost from_gives = { λ fault e. e ≡ control_fault fault };

    fn from(fault: TextFault) -> ControlFault {
        match fault {
            TextFault::Malformed { line } => ControlFault::Malformed { line },
            TextFault::Limit { .. } | TextFault::Turns => ControlFault::Limit,
            TextFault::Memory => ControlFault::Memory,
        }
    }
}

impl From<base::NoMemory> for ControlFault {
    ghost use Rattle.std.specs.Prelude.{◌≡◌};
    ghost use Rattle.text_control.specs.declared.control_fault.ControlFault.TheVariants.{Memory};

    ghost from_gives = { λ fault e. e ≡ Memory };

    fn from(_none: base::NoMemory) -> ControlFault {
        ControlFault::Memory
    }
}
