//! What the loop of questions goes by.

use assign::Plan;

/// How questions are chosen, and how many steps a search may take.
#[derive(Clone, Copy, Debug, PartialEq, Eq)]
pub struct Terms {
    pub plan: Plan,
    pub budget: u32,
}
