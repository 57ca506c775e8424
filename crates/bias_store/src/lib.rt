//! The candidates that are still possible.
//!
//! A `Kept` is seen as the list of the kept candidates, by scope and then by relation, beside the
//! number of the language's scopes (`KeptSet`). The floor above may rely on each call's list as the
//! old list filtered: by what a question violates, or by a scope. After `of` no call takes memory,
//! and a `Kept` may be read by several threads.
#![tactic(auto)]

mod kept;
mod left;
mod masks;
mod row;
mod tables;

pub use kept::Kept;
pub use masks::split_first;
