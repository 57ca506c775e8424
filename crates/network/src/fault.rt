ghost use Rattle.std.specs.Prelude.{◌≡◌, ◌++◌, codes, string_bytes, IfOk};
ghost use Rattle.network.specs.FaultTexts.{net_fault_text};

use language::Memory;
use std::alloc::{AllocError, AllocFailed, Global};
use thiserror::Error;

/// Why a network in JSON is refused. Items count from 0.
#[derive(Clone, Copy, Debug, PartialEq, Eq, Error)]
pub enum NetFault {
    /// There are more than 4,194,304 bytes.
    #[error("more than 4,194,304 bytes")]
    TooLong,
    /// The bytes aren't a JSON text in UTF-8.
    #[error("no JSON text")]
    NotJson,
    /// The whole isn't an array.
    #[error("no array")]
    NotList,
    /// The item isn't an array of 2 to 5 strings.
    #[error("item {0} is no array of 2 to 5 strings")]
    BadItem(u32),
    /// The item's variables, in the order given, are no scope.
    #[error("item {0} names no scope")]
    UnknownScope(u32),
    /// A piece of the item's relation is no relation of the scope's arity.
    #[error("item {0} names no relation")]
    UnknownRelation(u32),
    /// The second item has the scope of the first one, and no other before it has.
    #[error("items {0} and {1} have one scope")]
    ScopeRepeated(u32, u32),
    #[error("out of memory")]
    Memory,
}

impl From<AllocError> for NetFault {
    ghost use Rattle.std.specs.Prelude.{◌≡◌};
    ghost use Rattle.network.specs.declared.fault.NetFault.TheVariants.{Memory};

    ghost from_gives = { λ _ e. e ≡ Memory };

    fn from(_refused: AllocError) -> NetFault {
        NetFault::Memory
    }
}

impl<T: Drop> From<AllocFailed<T>> for NetFault {
    ghost use Rattle.std.specs.Prelude.{◌≡◌};
    ghost use Rattle.network.specs.declared.fault.NetFault.TheVariants.{Memory};

    ghost from_gives = { λ _ e. e ≡ Memory };

    fn from(_refused: AllocFailed<T>) -> NetFault {
        NetFault::Memory
    }
}

impl From<Memory> for NetFault {
    ghost use Rattle.std.specs.Prelude.{◌≡◌};
    ghost use Rattle.network.specs.declared.fault.NetFault.TheVariants.{Memory};

    ghost from_gives = { λ _ e. e ≡ Memory };

    fn from(_refused: Memory) -> NetFault {
        NetFault::Memory
    }
}

/// The text of a fault, as a user reads it behind `refused target `. No bytes cause want of memory;
/// it is told as `memory`.
pub fn net_text(alloc: Global, fault: NetFault) -> Result<String, AllocError>
    ensures { IfOk result (λ text. string_bytes text ≡ net_fault_text fault) }
{
    match fault {
        NetFault::TooLong => String::from_str(alloc, "too long"),
        NetFault::NotJson => String::from_str(alloc, "not json"),
        NetFault::NotList => String::from_str(alloc, "not list"),
        NetFault::BadItem(i) => format!(in alloc; "bad item {i}"),
        NetFault::UnknownScope(i) => format!(in alloc; "unknown scope {i}"),
        NetFault::UnknownRelation(i) => format!(in alloc; "unknown relation {i}"),
        NetFault::ScopeRepeated(j, i) => format!(in alloc; "scope repeated {j} {i}"),
        NetFault::Memory => String::from_str(alloc, "memory"),
    }
}
