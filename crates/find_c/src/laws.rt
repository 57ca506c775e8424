//! Laws of telling apart.

ghost use Rattle.find_c.specs.Standing.{RelStandingTells};

/// Where a run stands tells what is chosen, and the other way round.
pub fn standing_tells()
    ensures { RelStandingTells }
{}
