use rel_table::{CloseFault, Memory, Table};
use smallvec::SmallVec;
use std::alloc::AllocError;
use thiserror::Error;

/// Why there is no language.
#[derive(Clone, Copy, Debug, PartialEq, Eq, Error)]
pub enum LangFault {
    #[error("no variables")]
    NoVariables,
    #[error("more than 128 variables")]
    TooManyVariables,
    #[error("bad domain")]
    BadDomain,
    #[error("no relations")]
    NoRelations,
    /// This scope is empty, longer than 4 or not strictly rising.
    #[error("scope {0} is no rising list of 1 to 4 variables")]
    ScopeOrder(u32),
    /// There are more than 8,192 scopes.
    #[error("more than 8,192 scopes")]
    TooManyScopes,
    /// The second scope is the first once more.
    #[error("scopes {0} and {1} are the same")]
    ScopeRepeated(u32, u32),
    /// One of these scopes lies within the other.
    #[error("one of scopes {0} and {1} lies within the other")]
    Nested(u32, u32),
    /// No relation has as many places as this scope has variables.
    #[error("no relation fits scope {0}")]
    NoRelationOfArity(u32),
    #[error("{0}")]
    Closing(CloseFault),
    #[error("out of memory")]
    Memory,
}

impl From<AllocError> for LangFault {
    ghost use Rattle.std.specs.Prelude.{◌≡◌};
    ghost use Rattle.language.specs.declared.parts.LangFault.TheVariants.{Memory};

    ghost from_gives = { λ _ e. e ≡ Memory };

    fn from(_refused: AllocError) -> LangFault {
        LangFault::Memory
    }
}

impl From<Memory> for LangFault {
    ghost use Rattle.std.specs.Prelude.{◌≡◌};
    ghost use Rattle.language.specs.declared.parts.LangFault.TheVariants.{Memory};

    ghost from_gives = { λ _ e. e ≡ Memory };

    fn from(_refused: Memory) -> LangFault {
        LangFault::Memory
    }
}

/// A relation of the vocabulary.
#[derive(Drop)]
pub struct RelPart {
    pub name: String,
    pub table: Table,
}

/// Which scopes there are.
#[derive(Drop)]
pub enum ScopePart {
    /// For each arity that some relation has, all strictly rising lists of that many variables.
    All,
    /// These, as numbers of variables. One may be of any length here.
    Listed(Vec<SmallVec<u8, 4>>),
}
