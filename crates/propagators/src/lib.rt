//! Constraints over the variables of a language, and what an assignment tells of them.
//!
//! `Constraints` are a list of candidates that hold and perhaps one candidate that doesn't. The
//! floors above may rely on this: an assignment is allowed where it violates no candidate of the
//! list and doesn't satisfy the one that doesn't hold (`is_allowed`). No call takes memory.
//!
//! Propagation is AC-3 (Mackworth, Artificial Intelligence 8, 1977): a queue of the variables that
//! lost values, whose constraints are revised until none loses a value. A constraint on two
//! variables is revised by rows of bits, as in AC-3bit (Lecoutre and Vion, Constraint Programming
//! Letters 2, 2008).
#![tactic(auto)]

mod arranging;
mod briefs;
mod constraints;
mod differing;
mod domains;
mod entailed;
mod index;
mod indexing;
pub mod laws;
mod looks;
mod openings;
mod pairs;
mod plan;
mod revising;
mod supports;
mod values;
mod visits;
mod waiting;

pub use constraints::Constraints;
pub use domains::Domains;
pub use entailed::Entailed;
pub use index::Index;
pub use plan::Plan;
pub use revising::{Alive, propagate};
pub use visits::{propagate_after, propagate_all, propagate_beside};
