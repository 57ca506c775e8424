//! The walk of an example: which part of it is asked about next, so that several candidates are
//! learned from one example.
//!
//! A stack of sets begins with all variables. A set within which a learned candidate is violated
//! gives way to the sets without each of its variables in turn; one on which the example violates a
//! kept candidate is asked about; any other is dropped. After a no and a learned candidate the set
//! that was asked about is put again. The walk ends with the stack, or is cut off once 4,096 sets
//! were taken. The order and the cut are this project's own; it shares its aim with MQuAcq (Tsouros
//! et al., 2018).
//!
//! A `Tree` is seen as where its walk stands (`Stage`): the next turn is due, a set is asked about,
//! or the walk is at its end. The floor above may rely on one relation, `StageStandsFor stage l e
//! moves`: the stage is where the moves lead from the beginning of the walk of e. `start` gives it
//! for no moves; `next` and `again` carry it on to one move more, for every list. Each clause also
//! says the stage outright. At most 385 sets ever wait, and there is room for 1,024, so nothing but
//! `make` takes memory.
#![tactic(auto)]

mod listing;
mod stack;
mod taking;
mod tree;

pub use listing::Listing;
pub use tree::{Tree, TreeNext};
