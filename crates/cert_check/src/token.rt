/// A node of a tree that refutes a candidate.
#[derive(Clone, Copy, Debug, PartialEq, Eq)]
pub enum Token {
    /// A node for each value of the next variable stands below this one.
    Branch,
    /// The candidate holds: its scope is given values that satisfy it.
    Holds,
    /// The item of this number is violated.
    Item(u32),
}
