/// What a check finds.
#[derive(Clone, Copy, Debug, PartialEq, Eq)]
pub enum Verdict {
    /// The answers converge on the network.
    Yes,
    /// The certificate doesn't show it.
    No(Flaw),
}

/// Why a certificate isn't good. All numbers count from 0.
#[derive(Clone, Copy, Debug, PartialEq, Eq)]
pub enum Flaw {
    /// The network doesn't give this answer.
    Answer(u32),
    /// This item of the network is on the scope of an earlier one.
    ScopeTwice(u32),
    /// No answer is a no about exactly the scope of this item.
    NoOwnNo(u32),
    /// The answers don't tell the candidate of this number from the learned one on its scope.
    Rival(u32),
    /// The candidate of this number is on a scope where nothing is learned, neither excluded by a
    /// yes nor listed.
    Uncovered(u32),
    /// The tokens at this place of the list don't refute.
    Refutation(u32),
}
