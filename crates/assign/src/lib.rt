//! Variables, the values that a question gives them, and the events that a session records.
//!
//! A `VarSet` is seen as the strictly rising list of its members, each below 128. A `Partial` is
//! seen as a list of options, one for each variable in vocabulary order. An `Event` is seen as it
//! is written.
//!
//! The floors above rely on exact answers: each call here says what list it gives. No call takes
//! memory.
//!
//! | to | a `VarSet` | a `Partial` |
//! |---|---|---|
//! | make one | `empty`, `all` | `blank` |
//! | ask about one variable, or change it | `has`, `with`, `without` | `get`, `set`, `clear` |
//! | ask about the whole | `len`, `least` | `len`, `vars`, `is_complete` |
//! | take a part | `first_half`, `pop_first` | `restrict` |
//! | go by two | `union`, `common`, `minus`, `within`, `==` | `equals`, `==` |
//! | write an event, and read it | | `widened`, `cut_to` |
#![tactic(auto)]

mod assignment;
mod events;
mod sets;

pub use assignment::{MOST_VARIABLES, Partial};
pub use events::{Event, Plan};
pub use sets::VarSet;
