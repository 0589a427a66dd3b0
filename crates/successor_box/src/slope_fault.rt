ghost use Rattle.std.specs.Prelude.{◌≡◌};
ghost use Rattle.successor_box.specs.declared.slope_fault.SlopeFault.TheVariants.{Memory};

use std::alloc::{AllocError, AllocFailed};

/// Why no deviations were found.
#[derive(Clone, Copy, Debug, PartialEq, Eq)]
pub enum SlopeFault {
    /// The first equation, and for it the first input vector, at which a number leaves the range.
    Overflow { equation: u32, input: u32 },
    /// There was no memory left.
    Memory,
}

impl From<AllocError> for SlopeFault {
    ghost from_gives = { λ _ e. e ≡ Memory };

    fn from(_e: AllocError) -> SlopeFault {
        SlopeFault::Memory
    }
}

impl<T: Drop> From<AllocFailed<T>> for SlopeFault {
    ghost from_gives = { λ _ e. e ≡ Memory };

    fn from(_e: AllocFailed<T>) -> SlopeFault {
        SlopeFault::Memory
    }
}
