//! The words of the command line: what they ask for, or why they are refused.
//!
//! They are read by `clap`. The floor above may rely on this: what a list of words asks for is a
//! function of the list, and is answered but for want of memory; a plain list asks for what it
//! reads as, and is never refused as no words.
#![tactic(auto)]

pub mod laws;
mod line;
mod request;
mod words;

pub use request::{Command, JournalPlace, Request, UsageFault, WordsFault};
pub use words::read_words;
