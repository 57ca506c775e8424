use language::LangFault;
use rel_formula::{FormulaFault, TableOfFault};
use rel_table::TableFault;
use std::alloc::{AllocError, AllocFailed};
use thiserror::Error;

/// Where in a vocabulary a fault is.
#[derive(Clone, Copy, Debug, PartialEq, Eq)]
pub enum Spot {
    Whole,
    Variables,
    Domain,
    Relations,
    /// The relation of this number, counted from 0.
    Relation(u32),
    Scopes,
    /// The listed scope of this number, counted from 0.
    Scope(u32),
    Ranges,
    /// The range of this number, counted from 0.
    Range(u32),
}

/// Why a vocabulary is refused. Numbers count from 0 in the vocabulary's order.
#[derive(Clone, Copy, Debug, PartialEq, Eq, Error)]
pub enum VocFault {
    /// There are more than 4,194,304 bytes.
    #[error("more than 4,194,304 bytes")]
    TooLong,
    /// The bytes aren't a JSON text in UTF-8.
    #[error("no JSON text")]
    NotJson,
    #[error("something is missing")]
    Missing(Spot),
    #[error("something is of the wrong kind")]
    WrongKind(Spot),
    #[error("an unknown key")]
    UnknownKey(Spot),
    /// The variable's name doesn't have the form of a name.
    #[error("variable {0} has a bad name")]
    BadName(u32),
    /// Two variables have one name: the second is the first that repeats one, the first is the one
    /// that it repeats.
    #[error("variables {0} and {1} have one name")]
    NameRepeated(u32, u32),
    /// The range names something that is no variable.
    #[error("range {0} names no variable")]
    RangeName(u32),
    /// The range is empty, or isn't within the domain.
    #[error("range {0} has bad bounds")]
    BadRange(u32),
    /// Two ranges are of one variable.
    #[error("ranges {0} and {1} are of one variable")]
    RangeRepeated(u32, u32),
    /// The relation's name doesn't have the form of a name.
    #[error("relation {0} has a bad name")]
    BadRelName(u32),
    /// Two relations have one name.
    #[error("relations {0} and {1} have one name")]
    RelRepeated(u32, u32),
    /// The scope names something that is no variable.
    #[error("scope {0} names no variable")]
    UnknownVariable(u32),
    /// The relation's formula is none.
    #[error("relation {0}: {1}")]
    Formula(u32, FormulaFault),
    /// The relation has no table.
    #[error("relation {0}: {1}")]
    Table(u32, TableFault),
    /// The relation's formula has no table.
    #[error("relation {0}: {1}")]
    TableOf(u32, TableOfFault),
    /// The parts make no language.
    #[error("{0}")]
    Lang(LangFault),
    #[error("out of memory")]
    Memory,
}

impl From<AllocError> for VocFault {
    ghost use Rattle.std.specs.Prelude.{◌≡◌};
    ghost use Rattle.voc_read.specs.declared.fault.VocFault.TheVariants.{Memory};

    ghost from_gives = { λ _ e. e ≡ Memory };

    fn from(_refused: AllocError) -> VocFault {
        VocFault::Memory
    }
}

impl<T: Drop> From<AllocFailed<T>> for VocFault {
    ghost use Rattle.std.specs.Prelude.{◌≡◌};
    ghost use Rattle.voc_read.specs.declared.fault.VocFault.TheVariants.{Memory};

    ghost from_gives = { λ _ e. e ≡ Memory };

    fn from(_refused: AllocFailed<T>) -> VocFault {
        VocFault::Memory
    }
}
