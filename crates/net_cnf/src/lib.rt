//! A network as clauses for a SAT solver, in DIMACS and by the direct encoding (Walsh, SAT v CSP,
//! CP 2000).
//!
//! There is a Boolean for each variable and each of its values. The clauses say that a variable has
//! one value and no two, and that no learned candidate is violated. The floor above may rely on
//! `laws`: the models of the clauses are the network's solutions, one for one. `read_model` reads
//! the model that a solver prints back as that solution.
#![tactic(auto)]

mod fault;
pub mod laws;
mod lines;
mod literal;
mod model_fault;
mod reading;
mod text;
mod tokens;

pub use fault::CnfFault;
pub use model_fault::{ModelFault, model_fault_text};
pub use reading::{MOST_MODEL, read_model};
pub use text::{cnf_text, solution_text, too_large_text};
