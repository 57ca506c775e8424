//! Laws of the definitions, as contracts of functions that do nothing.

ghost use Rattle.target_oracle.specs.Laws.{AreFirstDraws};

/// The first draw of the number 0: the state after it, its upper half, and the value that `v1`
/// hides.
pub fn first_draws()
    ensures { AreFirstDraws }
{}
