//! The reduced network: a part of a learned network that has its solutions, and in which no line
//! follows from the others.
//!
//! The items are gone through in learning order, and one is dropped exactly where the others that
//! remain imply it (`Sifts`). Whether they do is found by a search under a budget; an item on which
//! it is spent ends the whole. The floor above may rely on this: what is answered is the sifted
//! list and a reduction (`IsReduction`), `Spent` names the first item whose search is spent, and
//! where answers have converged the reduced network has the solutions of the network that gave them
//! (`laws`).
#![tactic(auto)]

mod fault;
pub mod laws;
mod reducing;
mod text;

pub use fault::ReduceFault;
pub use reducing::reduce;
pub use text::{reduced_text, spent_text};
