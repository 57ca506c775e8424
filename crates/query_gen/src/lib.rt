//! The next question of a session: the first kept candidate, in candidate order, whose search finds
//! one.
//!
//! A `Query` is what the outcomes of the kept candidates' searches say (`next_query`). A `Screen`
//! remembers outcomes from one call to the next, so that what can't have changed isn't searched
//! again. It is seen as a mark for each candidate, by number, and the last find in each eighth of
//! them (`Remembered`). The floor above keeps `MarksHold`, that its marks and finds are true: a
//! screen without any has it, each call ensures it again, and it stays while the network grows
//! (`laws`). The floor above may rely on each answer as if nothing had been remembered, and on what
//! it says of the kept candidates (`laws`).
#![tactic(auto)]

mod find;
pub mod laws;
mod part;
mod place;
mod query;
mod screen;
mod span;

pub use place::Place;
pub use query::{Query, next_query};
pub use screen::Screen;
