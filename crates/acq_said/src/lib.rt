//! What each command says, from a session or from bytes: a text and an ending. Nothing here writes
//! but `put`.
//!
//! What is said is a function of what was opened (`asked_said`, `back_said`) or read
//! (`solved_said`, `checked_said`, `made_said`), and each call says exactly that, or that memory
//! was wanting, the input failed or the disk did (`Unsaid`). So the floor above needs one writer,
//! and a command is one function and a row in its table.
//!
//! | to | call |
//! |---|---|
//! | say something of a journal's session, and leave the journal as it is | `say_over` with an `Ask`; `solve_journal` |
//! | take an answer back, make a journal | `back_journal`, `new_journal` |
//! | confirm a certificate | `check_input` |
//! | say how a session's loop ended | `closing` |
//! | refuse a journal or a vocabulary | `refused`, `refused_voc` |
//! | write what is said | `put` |
#![tactic(auto)]

mod ask;
mod back;
mod certifying;
mod confirming;
mod endings;
mod learned;
mod making;
mod opens;
mod over;
mod printing;
mod reducing;
mod refusing;
mod said;
mod shows;
mod solving;

pub use ask::Ask;
pub use back::back_journal;
pub use confirming::check_input;
pub use endings::closing;
pub use making::{new_journal, refused_voc};
pub use over::say_over;
pub use refusing::{lang_of, refused};
pub use said::{Said, Unsaid, fixed, or_silent, put};
pub use solving::solve_journal;
