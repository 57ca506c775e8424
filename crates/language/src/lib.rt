//! The language of a vocabulary: its variables and values, its scopes, the relations on them, and
//! what its candidates say of assignments and answers.
//!
//! A `Language` is seen as a record: names, lowest value, number of values, the range of each
//! variable, the vocabulary's relations, the scopes as lists of variables, and the relations on
//! each scope as lists of truth values. Callers may rely on `IsLanguage`, which the accessors
//! ensure: the relations on a scope are all intersections of the vocabulary's there, none twice, in
//! falling order, and no scope lies within another. On a scope a relation holds at each tuple with
//! a value outside its variable's range, so relations that differ only there are one.
//!
//! The scopes of an arity share its tables. For each candidate a byte names a table that agrees
//! with its relation within the ranges: go by `table_on` where the values are in range, and else by
//! `holds`. Only `build` and the texts take memory. Threads may share a language.
#![tactic(auto)]

mod apart;
mod build;
mod candidates;
mod choosing;
mod frame;
mod lang;
pub mod laws;
mod masks;
mod named;
mod names;
mod narrow;
mod numbering;
mod order;
mod parts;
mod places;
mod ranges;
mod scopes;
mod texts;

pub use candidates::{Candidate, ScopeId};
pub use frame::Frame;
pub use lang::Language;
pub use masks::PairBounds;
pub use names::is_name;
pub use parts::{LangFault, RelPart, ScopePart};
pub use ranges::ValueRange;
pub use rel_table::Memory;
