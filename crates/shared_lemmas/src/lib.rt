//! Rules of truth values, lists and numbers in the words of std alone, which the proofs of several
//! crates cite.
//!
//! It has no code: each rule is a lemma in `proofs/`.
#![tactic(auto)]
