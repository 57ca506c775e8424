use language::Memory;
use std::alloc::{AllocError, AllocFailed};
use thiserror::Error;
use voc_read::VocFault;

/// Why no certificate is made.
#[derive(Clone, Copy, Debug, PartialEq, Eq, Error)]
pub enum MakeFault {
    /// The candidate of this number has more plain prefixes than the budget, and no earlier one
    /// that is listed does.
    #[error("candidate {0} needs a tree of more branches than the budget")]
    Long(u32),
    /// The text has more than 67,108,864 bytes.
    #[error("more than 67,108,864 bytes")]
    TooLarge,
    #[error("out of memory")]
    Memory,
}

impl From<AllocError> for MakeFault {
    ghost use Rattle.std.specs.Prelude.{◌≡◌};
    ghost use Rattle.cert_check.specs.declared.fault.MakeFault.TheVariants.{Memory};

    ghost from_gives = { λ _ e. e ≡ Memory };

    fn from(_refused: AllocError) -> MakeFault {
        MakeFault::Memory
    }
}

impl From<Memory> for MakeFault {
    ghost use Rattle.std.specs.Prelude.{◌≡◌};
    ghost use Rattle.cert_check.specs.declared.fault.MakeFault.TheVariants.{Memory as OutOfMemory};

    ghost from_gives = { λ _ e. e ≡ OutOfMemory };

    fn from(_refused: Memory) -> MakeFault {
        MakeFault::Memory
    }
}

/// Why a text is no certificate. Lines count from 0; the vocabulary's bytes are line 2.
#[derive(Clone, Copy, Debug, PartialEq, Eq, Error)]
pub enum CertFault {
    /// There are more than 67,108,864 bytes.
    #[error("more than 67,108,864 bytes")]
    TooLong,
    /// The line is missing or not of its form, or has a number that is out of its range.
    #[error("line {0} is wrong")]
    BadLine(u32),
    /// The vocabulary is refused.
    #[error("the vocabulary is refused")]
    Voc(VocFault),
    #[error("out of memory")]
    Memory,
}

impl From<AllocError> for CertFault {
    ghost use Rattle.std.specs.Prelude.{◌≡◌};
    ghost use Rattle.cert_check.specs.declared.fault.CertFault.TheVariants.{Memory};

    ghost from_gives = { λ _ e. e ≡ Memory };

    fn from(_refused: AllocError) -> CertFault {
        CertFault::Memory
    }
}

impl<T: Drop> From<AllocFailed<T>> for CertFault {
    ghost use Rattle.std.specs.Prelude.{◌≡◌};
    ghost use Rattle.cert_check.specs.declared.fault.CertFault.TheVariants.{Memory};

    ghost from_gives = { λ _ e. e ≡ Memory };

    fn from(_refused: AllocFailed<T>) -> CertFault {
        CertFault::Memory
    }
}
