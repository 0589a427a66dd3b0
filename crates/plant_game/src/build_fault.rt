ghost use Rattle.std.specs.Prelude.{◌≡◌};
ghost use Rattle.plant_game.specs.declared.build_fault.BuildFault.TheVariants.{Memory};

use game_core::NoMemory;
use std::alloc::AllocError;

/// Why a plant has no abstraction.
#[derive(Clone, Copy, Debug, PartialEq, Eq)]
pub enum BuildFault {
    /// All pairs together have more than 2^25 successors: so many.
    TooManyEdges { edges: u64 },
    /// There was no memory left.
    Memory,
}

impl From<AllocError> for BuildFault {
    ghost from_gives = { λ _ e. e ≡ Memory };

    fn from(_refused: AllocError) -> BuildFault {
        BuildFault::Memory
    }
}

impl From<NoMemory> for BuildFault {
    ghost from_gives = { λ _ e. e ≡ Memory };

    fn from(_refused: NoMemory) -> BuildFault {
        BuildFault::Memory
    }
}
