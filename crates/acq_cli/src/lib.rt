//! The program as one call: the words, the vocabulary and the answers in, the questions and the
//! network out.
//!
//! A call is seen as what it did, by what its words ask for (`Does`): the text that it wrote and
//! how it ended, what it took of the input, and what it leaves of the disk, at its end and after a
//! crash at any moment, as far as input, output and disk tell. What a command says is a function
//! that the floor below states. Here stand which command the words ask for (`command_asked`), when
//! each ending comes (`EndsExactly`), that a command comes to its own end where it is given enough
//! (`Completes`), that a crash takes no answer behind which something was written (`Acknowledges`),
//! and what three endings are worth (`FindsNetwork`, `FindsNone`, `LeavesOpen`).
//!
//! The floor above is a `main`. It relies on the clauses of `acquire`, whatever input, output and
//! disk it hands in.
//!
//! | to | call |
//! |---|---|
//! | do what a command line asks for | `acquire` |
//! | learn what it asks for, and do nothing | `read_words` |
//! | ask on in a session that is open | `drive` |
#![tactic(auto)]

mod commands;
mod demo;
pub mod laws;
mod playing;
mod saying;
mod top;

pub use acq_loop::{Drove, Ending, Terms, drive};
pub use acq_words::{Command, JournalPlace, Request, UsageFault, WordsFault, read_words};
pub use top::acquire;
