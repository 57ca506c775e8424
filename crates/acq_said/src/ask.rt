/// What is asked of a journal's session by a command that only says something.
#[derive(Clone, Copy, Debug, PartialEq, Eq)]
pub enum Ask {
    Show,
    /// Under a budget for each search.
    Reduce(u32),
    Cnf,
    /// Under a budget for each search.
    Certify(u32),
}
