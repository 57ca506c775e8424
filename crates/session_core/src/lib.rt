//! A session: what was learned so far and which question is open, one answer at a time.
//!
//! A session stands where the fold of its answers stands (`Stands`): `begin` gives that for no
//! answers, and `answer` carries it on to one answer more, for every list of answers. The question
//! that is put is consumed by its answer, and an idle session by its question.
//!
//! In plan Scopes the questions tell the relations of one scope after the other apart. In plan
//! Quacq a question is a whole example; where it is answered no, its variables are halved until the
//! scope of what it violates is found, and the relations there are told apart (QuAcq, Bessiere et
//! al., IJCAI 2013). In plan Multi the parts of one example are asked about in turn (`multi_tree`),
//! so that several candidates are learned from it. Questions about parts that violate no kept
//! candidate aren't put: they count as answered yes. Only `begin` takes memory.
#![tactic(auto)]

mod answering;
mod examples;
mod going;
mod halving;
mod knowledge;
mod moves;
mod put;
mod scopes;
mod session;
mod shown;

pub use moves::begin;
pub use session::{Asking, Collapsed, Idle, Session};
