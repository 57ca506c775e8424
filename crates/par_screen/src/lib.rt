//! The next question, looked for in eight parts of the candidates side by side.
//!
//! Each part is searched in a place of its own (`Gate`). The parts read the screen alone, and what
//! they found is put into it when all have returned, so the answer is that of one thread, in
//! whatever order the parts ran (`next_query_forked`).
#![tactic(auto)]

mod forked;
mod gate;
mod places;

pub use forked::next_query_forked;
pub use gate::{FreeGate, Gate};
pub use places::places_for;
