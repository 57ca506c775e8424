//! Telling the relations on a scope apart by questions about single tuples: FindC (Bessiere et al.,
//! IJCAI 2013).
//!
//! The choices are kept candidates on a scope, and perhaps none of them, which accepts every tuple.
//! While two differ, the least tuple on which they do is asked as an assignment of exactly the
//! scope; a yes leaves those that accept it, a no those that reject it. That the least tuple in
//! table order is asked is this project's own choice.
//!
//! A `RelRun` is seen as its scope, the choices that are left and the tuple that is asked about.
//! The floor above may rely on two facts after each call: what the answer says of the choices that
//! are left (`LeavesChoices`), and that it stands where the choices stand after all replies
//! (`RelStandsFor`). No call takes memory.
#![tactic(auto)]

mod choices;
pub mod laws;
pub mod rows;
mod run;
mod tuples;

pub use run::{RelNext, RelRun};
