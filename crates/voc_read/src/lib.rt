//! Reading a vocabulary: from the bytes of a JSON text to the language that they describe, or to
//! the first fault.
//!
//! Bytes are a vocabulary of at most one language (`IsVocabulary`, law `no_two_languages`), and a
//! refused text is one of none (law `read_is_not_refused`). The floor above may rely on
//! `IsLanguage` of what was read. A fault says what is wrong and where: in which relation, scope or
//! range, and at which place in it (`VocFault`). Where a text has several faults, the one is given
//! that comes first by the order in which `read_vocabulary` looks.
//!
//! | to | call |
//! |---|---|
//! | read a vocabulary | `read_vocabulary`, of at most `MOST_VOCABULARY` bytes |
//! | say a fault to a person | `voc_text` |
#![tactic(auto)]

mod domain;
mod fault;
mod keys;
pub mod laws;
mod making;
mod names;
mod outline;
mod parsing;
mod ranges;
mod reading;
mod relations;
mod rules;
mod scopes;
mod text;
mod values;

pub use fault::{Spot, VocFault};
pub use reading::{MOST_VOCABULARY, read_vocabulary};
pub use text::voc_text;
