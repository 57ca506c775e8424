//! Relations as tables. A relation is seen as the list of its truth values, one for each tuple in
//! the order of the places; a tuple's place is its number in base d. The crates above rely on this
//! alone, and never on the bits in which a table keeps it.
//!
//! | to | call |
//! |---|---|
//! | learn a table's size, a tuple's place, a place's tuple | `table_size`, `place_count`, `place_of`, `tuple_of` |
//! | make a table | `Table::from_tuples`, `Table::from_truth` |
//! | ask about one tuple | `accepts`, `at` |
//! | ask about the tuples that differ in their last value | `row` |
//! | go by two tables | `meet`, `within`, `equals` |
//! | make all intersections of some tables | `close` |
#![tactic(auto)]

mod bits;
mod closing;
mod places;
mod table;

pub use bits::Bits;
pub use closing::{Closed, close};
pub use places::{place_count, tuple_of};
pub use table::{CloseFault, MOST_PLACES, Memory, Table, TableFault, place_of, table_size};
