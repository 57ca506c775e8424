use std::alloc::{AllocError, AllocFailed};
use thiserror::Error;

/// Why a network isn't reduced.
#[derive(Clone, Copy, Debug, PartialEq, Eq, Error)]
pub enum ReduceFault {
    /// The search of this item, counted from 0 in learning order, spent its budget, and no earlier
    /// one did.
    #[error("the search of item {0} spent its budget")]
    Spent(u32),
    #[error("out of memory")]
    Memory,
}

impl From<AllocError> for ReduceFault {
    ghost use Rattle.std.specs.Prelude.{◌≡◌};
    ghost use Rattle.net_reduce.specs.declared.fault.ReduceFault.TheVariants.{Memory};

    ghost from_gives = { λ _ e. e ≡ Memory };

    fn from(_refused: AllocError) -> ReduceFault {
        ReduceFault::Memory
    }
}

impl<T: Drop> From<AllocFailed<T>> for ReduceFault {
    ghost use Rattle.std.specs.Prelude.{◌≡◌};
    ghost use Rattle.net_reduce.specs.declared.fault.ReduceFault.TheVariants.{Memory};

    ghost from_gives = { λ _ e. e ≡ Memory };

    fn from(_refused: AllocFailed<T>) -> ReduceFault {
        ReduceFault::Memory
    }
}
