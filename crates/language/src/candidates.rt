/// The number of a scope.
pub type ScopeId = u16;

/// A relation on a scope, both by number.
#[derive(Clone, Copy, Debug, PartialEq, Eq)]
pub struct Candidate {
    pub scope: ScopeId,
    /// Among the relations on the scope.
    pub rel: u8,
}
