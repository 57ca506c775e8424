ghost use Rattle.std.specs.Prelude.{◌≡◌, ◌++◌, ◌∷◌, [], codes, string_bytes, IfOk};
ghost use Rattle.net_cnf.specs.ModelTexts.{model_fault_line};

use language::Memory;
use std::alloc::{AllocError, Global};
use thiserror::Error;

/// Why a solver's output gives no solution. Tokens and items count from 0, Booleans from 1,
/// variables from 0.
#[derive(Clone, Copy, Debug, PartialEq, Eq, Error)]
pub enum ModelFault {
    /// There are more than 4,194,304 bytes.
    #[error("more than 4,194,304 bytes")]
    TooLong,
    /// The token is no number of a Boolean, with or without a sign.
    #[error("token {0} is no literal")]
    BadToken(u32),
    /// The Boolean is named with both signs.
    #[error("boolean {0} is named with both signs")]
    Twice(u32),
    /// Not exactly one Boolean of the variable is true.
    #[error("variable {0} has no value, or two")]
    NotOne(u8),
    /// The item of the network is violated.
    #[error("item {0} is violated")]
    Violates(u32),
    #[error("out of memory")]
    Memory,
}

impl From<AllocError> for ModelFault {
    ghost use Rattle.std.specs.Prelude.{◌≡◌};
    ghost use Rattle.net_cnf.specs.declared.model_fault.ModelFault.TheVariants.{Memory};

    ghost from_gives = { λ _ e. e ≡ Memory };

    fn from(_refused: AllocError) -> ModelFault {
        ModelFault::Memory
    }
}

/// What is told of a fault, a line: `refused model twice 1`. No bytes cause want of memory; it is
/// told as `memory`.
pub fn model_fault_text(alloc: Global, fault: &ModelFault) -> Result<String, Memory>
    ensures { IfOk result (λ text. string_bytes text ≡ model_fault_line fault.now) }
{
    let text = match fault {
        ModelFault::TooLong => String::from_str(alloc, "refused model too long\n"),
        ModelFault::BadToken(i) => format!(in alloc; "refused model bad token {i}\n"),
        ModelFault::Twice(b) => format!(in alloc; "refused model twice {b}\n"),
        ModelFault::NotOne(v) => format!(in alloc; "refused model not one {v}\n"),
        ModelFault::Violates(i) => format!(in alloc; "refused model violates {i}\n"),
        ModelFault::Memory => String::from_str(alloc, "refused model memory\n"),
    }?;
    Ok(text)
}
