//! Lines of text: where they are cut, their words, and the decimal numbers that words write.
#![tactic(auto)]

mod words;

pub use words::{Words, cut_at, decimal_below, decimal_in, number_from, place_of};
