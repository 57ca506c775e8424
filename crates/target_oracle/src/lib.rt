//! Who answers the questions.
//!
//! A teacher's turn is a function of the language, the question's number, the question and the
//! bytes that are left: the text that it writes, the reply and the bytes after it. `told` does what
//! the turn says.
#![tactic(auto)]

mod generator;
pub mod laws;
mod lines;
mod net;
mod teacher;
mod words;

pub use generator::generate;
pub use lines::LineTeacher;
pub use net::NetTeacher;
pub use teacher::{Teacher, Told};
