//! A depth-first search for a complete assignment that meets constraints, with an exact outcome
//! under a budget.
//!
//! The search walks over prefixes: values for the first variables of an order. A prefix is a member
//! of the walk where it is alive: among the values of their ranges that it leaves to the variables
//! is an arc-consistent family of nonempty sets. So it violates no candidate that holds and doesn't
//! satisfy the one that doesn't (`laws::alive_is_allowed`). The order of a candidate's search is
//! `order_of`. The floors above may rely on the outcome as the definitions have it for the walk's
//! first members, as many as the budget says (`search_outcome`), and on the laws of such outcomes
//! in `laws`. A search takes no memory: `Work` has its room.
#![tactic(auto)]

mod depth_first;
pub mod laws;
mod order;
mod outcome;
mod stack;
mod work;

pub use depth_first::{search, search_with};
pub use order::order_of;
pub use outcome::Outcome;
pub use work::Work;
