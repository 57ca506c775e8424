use crate::assignment::Partial;

/// How the questions are chosen.
#[derive(Clone, Copy, Debug, PartialEq, Eq)]
pub enum Plan {
    /// Scope by scope, each relation told apart from the others. Nothing is searched.
    Scopes,
    /// QuAcq: complete questions, then halving, then telling apart (Bessiere et al., IJCAI 2013).
    Quacq,
    /// As `Quacq`, but several constraints are learned from one example. This plan is this
    /// project's own.
    Multi,
}

/// What a session records.
#[derive(Clone, Copy, Debug, PartialEq, Eq)]
pub enum Event {
    /// An answer. Its question has 128 options: those of the language's variables first, then empty
    /// ones.
    Answer { question: Partial, yes: bool },
    /// The last answer that stands is taken back.
    Back,
}
