ghost use Rattle.std.specs.Prelude.{◌≡◌};
ghost use Rattle.line_words.specs.declared.line_fault.LineFault.TheVariants as read;

use std::alloc::{AllocError, AllocFailed};

/// Why a line or a text was not read.
#[derive(Clone, Copy, Debug, PartialEq, Eq)]
pub enum LineFault {
    /// What stands there fits nothing.
    Malformed,
    /// There was no memory left.
    Memory,
}

impl From<AllocError> for LineFault {
    ghost from_gives = { λ _ e. e ≡ read.Memory };

    fn from(_e: AllocError) -> LineFault {
        LineFault::Memory
    }
}

impl<T: Drop> From<AllocFailed<T>> for LineFault {
    ghost from_gives = { λ _ e. e ≡ read.Memory };

    fn from(_e: AllocFailed<T>) -> LineFault {
        LineFault::Memory
    }
}
