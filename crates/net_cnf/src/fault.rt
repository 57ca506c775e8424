use language::Memory;
use std::alloc::{AllocError, AllocFailed};
use thiserror::Error;

/// Why there is no text of the clauses.
#[derive(Clone, Copy, Debug, PartialEq, Eq, Error)]
pub enum CnfFault {
    /// The text has more than 67,108,864 bytes.
    #[error("more than 67,108,864 bytes")]
    TooLarge,
    #[error("out of memory")]
    Memory,
}

impl From<AllocError> for CnfFault {
    ghost use Rattle.std.specs.Prelude.{◌≡◌};
    ghost use Rattle.net_cnf.specs.declared.fault.CnfFault.TheVariants.{Memory};

    ghost from_gives = { λ _ e. e ≡ Memory };

    fn from(_refused: AllocError) -> CnfFault {
        CnfFault::Memory
    }
}

impl From<Memory> for CnfFault {
    ghost use Rattle.std.specs.Prelude.{◌≡◌};
    ghost use Rattle.net_cnf.specs.declared.fault.CnfFault.TheVariants.{Memory};

    ghost from_gives = { λ _ e. e ≡ Memory };

    fn from(_refused: Memory) -> CnfFault {
        CnfFault::Memory
    }
}
