use assign::Partial;

/// What a search ends with.
#[derive(Clone, Copy, Debug, PartialEq, Eq)]
pub enum Outcome {
    /// The first complete member of the walk, which is among its first members.
    Found(Partial),
    /// The walk has no complete member, and no more members than the budget.
    Absent,
    /// The walk's first members have no complete one among them, and there are more.
    Spent,
}
