ghost use Rattle.std.specs.Prelude.{◌≤◌, length};

use crate::domains::Domains;
use crate::plan::Plan;
use language::Candidate;

/// A list of candidates that hold, with what is known before searches against others: its plan, and
/// what it leaves to the variables.
#[derive(Drop)]
pub struct Index {
    /// The first ones, so many, are the list. The others mean nothing.
    pub(crate) list: Vec<Candidate>,
    pub(crate) size: usize,
    /// That of the list's conditions.
    pub(crate) plan: Plan,
    /// The values that these leave to the variables, where each has one.
    pub(crate) root: Domains,
    /// Whether each has one.
    pub(crate) is_alive: bool,
    ghost sized: { size ≤ length list.items },
}
