//! Laws of outcomes and of the order of a candidate. They are claims alone: these functions do
//! nothing.

ghost use Rattle.fd_solver.specs.Laws.{OrdersAreKnown, AbsentIsImplied, SpentIsLong, PlainIsLess};
ghost use Rattle.fd_solver.specs.Laws.{FoundIsLawful, AbsentStays, FoundStays, AliveIsPlain};
ghost use Rattle.fd_solver.specs.Laws.{AliveIsAllowed, WholeIsAlive};

/// A candidate's scope and then the other variables have each variable once.
pub fn orders_are_known()
    ensures { OrdersAreKnown }
{}

/// A candidate for which a search ends with nothing is implied.
pub fn absent_is_implied()
    ensures { AbsentIsImplied }
{}

/// Where a search is spent, there are more plain prefixes than its budget.
pub fn spent_is_long()
    ensures { SpentIsLong }
{}

/// A longer network has no more plain prefixes.
pub fn plain_is_less()
    ensures { PlainIsLess }
{}

/// What a search finds may be put as a question.
pub fn found_is_lawful()
    ensures { FoundIsLawful }
{}

/// A search that ends with nothing does so too when the network has grown, under the same budget.
pub fn absent_stays()
    ensures { AbsentStays }
{}

/// What a search finds is found too when the network has grown by candidates that accept it, under
/// the same budget.
pub fn found_stays()
    ensures { FoundStays }
{}

/// An alive prefix is plain: its values are their variables', it violates nothing of the network
/// and doesn't satisfy the candidate.
pub fn alive_is_plain()
    ensures { AliveIsPlain }
{}

/// In any order an alive prefix violates nothing of the list, and doesn't satisfy the candidate
/// against it, if there is one.
pub fn alive_is_allowed()
    ensures { AliveIsAllowed }
{}

/// A complete prefix is alive exactly where it is plain.
pub fn whole_is_alive()
    ensures { WholeIsAlive }
{}
