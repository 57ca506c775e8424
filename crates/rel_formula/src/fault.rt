use std::alloc::{AllocError, AllocFailed};
use thiserror::Error;

/// Why a JSON value is no formula. Nodes are numbered from 0 in the order of the text, an array
/// before its operands.
#[derive(Clone, Copy, Debug, PartialEq, Eq, Error)]
pub enum FormulaFault {
    /// The node of this number isn't what is wanted there.
    #[error("node {0} is not what is wanted there")]
    BadShape(u32),
    /// The array of this number names no operator.
    #[error("node {0} names no operator")]
    BadOperator(u32),
    /// The string of this number names no position of the tuple.
    #[error("node {0} names no position")]
    BadPosition(u32),
    /// There are more than 32 nodes on the way to some node.
    #[error("more than 32 nodes on the way to some node")]
    TooDeep,
    /// There are more than 200 nodes.
    #[error("more than 200 nodes")]
    TooManyNodes,
    #[error("out of memory")]
    Memory,
}

/// Why there is no table of a formula.
#[derive(Clone, Copy, Debug, PartialEq, Eq, Error)]
pub enum TableOfFault {
    /// At the tuple of this place some part of the formula has a value that leaves 64 bits.
    #[error("a value leaves 64 bits at place {0}")]
    TooBig(u32),
    #[error("out of memory")]
    Memory,
}

impl From<AllocError> for TableOfFault {
    ghost use Rattle.std.specs.Prelude.{◌≡◌};
    ghost use Rattle.rel_formula.specs.declared.fault.TableOfFault.TheVariants.{Memory};

    ghost from_gives = { λ _ e. e ≡ Memory };

    fn from(_refused: AllocError) -> TableOfFault {
        TableOfFault::Memory
    }
}

impl<T: Drop> From<AllocFailed<T>> for TableOfFault {
    ghost use Rattle.std.specs.Prelude.{◌≡◌};
    ghost use Rattle.rel_formula.specs.declared.fault.TableOfFault.TheVariants.{Memory};

    ghost from_gives = { λ _ e. e ≡ Memory };

    fn from(_refused: AllocFailed<T>) -> TableOfFault {
        TableOfFault::Memory
    }
}

impl From<AllocError> for FormulaFault {
    ghost use Rattle.std.specs.Prelude.{◌≡◌};
    ghost use Rattle.rel_formula.specs.declared.fault.FormulaFault.TheVariants.{Memory};

    ghost from_gives = { λ _ e. e ≡ Memory };

    fn from(_refused: AllocError) -> FormulaFault {
        FormulaFault::Memory
    }
}

impl<T: Drop> From<AllocFailed<T>> for FormulaFault {
    ghost use Rattle.std.specs.Prelude.{◌≡◌};
    ghost use Rattle.rel_formula.specs.declared.fault.FormulaFault.TheVariants.{Memory};

    ghost from_gives = { λ _ e. e ≡ Memory };

    fn from(_refused: AllocFailed<T>) -> FormulaFault {
        FormulaFault::Memory
    }
}
