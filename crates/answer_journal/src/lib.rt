//! Answers on a disk: each is there whole or not at all, whatever a crash leaves.
//!
//! The bytes of a file spell at most one session: a plan, a vocabulary and a list of events
//! (`Spells`). `create` makes a file that spells a session with no event, `append` adds one, and
//! `open` gives what the bytes spell, or the one reason why they spell nothing (`ReadsAs`).
//!
//! A record stands behind a gate, a byte that is 1 where the record counts. It is written whole
//! behind a closed gate, and after a sync its gate is opened in a write of its own. So a crash at
//! any moment of an append leaves the events from before it, or these and the new one. What one
//! call ensures of the disk is what the next one requires (`Sits`, `Only`), so a caller needs to
//! know nothing of bytes.
#![tactic(auto)]

mod creating;
mod decode;
mod encode;
mod event_list;
mod fault;
mod head;
mod journal;
mod laws;
mod opening;
mod pieces;
mod record;
mod steps;

pub use creating::create;
pub use event_list::Events;
pub use fault::JFault;
pub use journal::{Journal, MOST_RECORDS};
pub use laws::{each_has_a_reading, each_is_free_or_refused, no_two_readings, no_two_sessions};
pub use opening::{Opened, open};
