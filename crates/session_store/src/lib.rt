//! Sessions with their events, in memory and over a journal.
//!
//! What keeps a session keeps its events, and the session stands where they lead (`Keep`). `Loose`
//! keeps both in memory. `Store` keeps the events in a journal on a disk: after `answer` and
//! `take_back` each content that a crash may leave opens with the new event as its last, and at any
//! moment of them with the events from before the call, or these and the new one.
//!
//! `Store::open` leads a session through the answers that stand after the events of the journal, by
//! `specs/Replay`. A take-back at which no answer stands is a stray, and so is an answer that
//! stands and whose question isn't the open one and isn't lawful, or has a value for no variable of
//! the vocabulary. The first one is named by its record.
//!
//! A take-back leads the session from its beginning through the answers that are left, so it costs
//! as much as an opening.
#![tactic(auto)]

mod fault;
mod held;
mod keep;
pub mod laws;
mod loose;
mod replay;
mod store;

pub use fault::SFault;
pub use keep::Keep;
pub use loose::Loose;
pub use replay::standing_records;
pub use store::Store;
