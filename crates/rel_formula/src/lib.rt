//! Formulas: a truth over the shown values of a tuple, read from a JSON value once and made a table
//! of.
//!
//! A formula is seen as a tree of truths and terms over whole numbers without bound. Whoever makes
//! a table of it learns which tuples make the formula true, or the first place at which some part
//! of it leaves 64 bits.
#![tactic(auto)]

mod batch;
mod fault;
mod formula;
mod machine;
mod names;
mod numbers;
mod reading;
mod step;
mod tables;
mod terms;
mod truths;

pub use fault::{FormulaFault, TableOfFault};
pub use formula::{Formula, read_formula};
pub use tables::table_of;
