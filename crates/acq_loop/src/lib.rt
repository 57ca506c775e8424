//! The loop of questions: what comes next in a session, one turn after another, and how a run ends.
//!
//! A run is seen as the text that the read bytes lead to (`Runs`): its lines, its closing, its
//! events and what it leaves of the bytes. Where the source tells, the loop added the run's events
//! and left its rest, and wrote its text as far as the sink tells; whether they tell or not, each
//! ending says what is true of the answers that stand (`HasFound`). A keeper is seen through
//! `Keeps`: which events were added, and what a crash may leave.
//!
//! The floors above rely on `drive` alone for a session, and on the words of this floor for theirs:
//! an `Ending` is how the program ends, and `Terms` what a session goes by.
//!
//! | to | call |
//! |---|---|
//! | ask until a run ends | `drive` |
//! | ask one question | `take_turn` |
//! | learn what comes next, without asking | `next_of` |
//! | keep an answer or a take-back | `keep_event` |
//! | end | `Ending::status` |
#![tactic(auto)]

mod driving;
mod ending;
pub mod laws;
mod next;
mod terms;

pub use driving::{Drove, Entry, drive, keep_event, take_turn};
pub use ending::Ending;
pub use next::{Upcoming, next_of};
pub use terms::Terms;
