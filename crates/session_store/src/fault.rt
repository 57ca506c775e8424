//! Why a store gives nothing.

ghost use Rattle.std.specs.Prelude.{◌≡◌};
ghost use Rattle.session_store.specs.Faults.{of_journal};
ghost use Rattle.session_store.specs.declared.fault.SFault.TheVariants.{Memory};

use answer_journal::JFault;
use std::alloc::{AllocError, AllocFailed};
use thiserror::Error;
use voc_read::VocFault;

/// Why a call gives nothing. Want of memory is always `Memory`, and never within another fault.
#[derive(Clone, Copy, Debug, PartialEq, Eq, Error)]
pub enum SFault {
    #[error("{0}")]
    Journal(JFault),
    #[error("vocabulary: {0}")]
    Voc(VocFault),
    /// This record is a take-back at which no answer stands. Or its answer stands, and the question
    /// isn't the open one and isn't lawful, or has a value that the vocabulary lacks. The record of
    /// the vocabulary is record 0.
    #[error("record {0} has no place")]
    Stray(u32),
    #[error("out of memory")]
    Memory,
}

impl From<JFault> for SFault {
    ghost from_gives = { λ fault e. e ≡ of_journal fault };

    fn from(fault: JFault) -> Self {
        match fault {
            JFault::Memory => SFault::Memory,
            JFault::SessionThere
            | JFault::NoSession
            | JFault::NotAJournal
            | JFault::Damaged(_)
            | JFault::TooManyRecords
            | JFault::Full
            | JFault::DiskFault => SFault::Journal(fault),
        }
    }
}

impl From<AllocError> for SFault {
    ghost from_gives = { λ _ e. e ≡ Memory };

    fn from(_: AllocError) -> Self {
        SFault::Memory
    }
}

impl<T: Drop> From<AllocFailed<T>> for SFault {
    ghost from_gives = { λ _ e. e ≡ Memory };

    fn from(_: AllocFailed<T>) -> Self {
        SFault::Memory
    }
}

impl From<language::Memory> for SFault {
    ghost from_gives = { λ _ e. e ≡ Memory };

    fn from(_: language::Memory) -> Self {
        SFault::Memory
    }
}
