//! Laws of the next question and of marks. They are claims alone: these functions do nothing.

ghost use Rattle.query_gen.specs.Laws.{PickedAreInOrder, AllAreImplied, AskedIsLawful};
ghost use Rattle.query_gen.specs.Laws.{UndecidedIsSpent, NoMarksHold, MarksStay, PartsAreJoined};
ghost use Rattle.query_gen.specs.Laws.{WholeIsNext};

/// Candidates that a test picks from all of them stand in candidate order.
pub fn picked_are_in_order()
    ensures { PickedAreInOrder }
{}

/// Where all is implied, each kept candidate is.
pub fn all_are_implied()
    ensures { AllAreImplied }
{}

/// A question that is asked may be put: it is complete, the network accepts it, and it violates a
/// kept candidate.
pub fn asked_is_lawful()
    ensures { AskedIsLawful }
{}

/// Where nothing is decided, some search is spent, and each candidate whose search isn't is
/// implied.
pub fn undecided_is_spent()
    ensures { UndecidedIsSpent }
{}

/// A screen without marks has only true ones.
pub fn no_marks_hold()
    ensures { NoMarksHold }
{}

/// True marks stay true while the network grows, under the same budget.
pub fn marks_stay()
    ensures { MarksStay }
{}

/// What two parts of the candidates say together is what the first says, and then the second.
pub fn parts_are_joined()
    ensures { PartsAreJoined }
{}

/// What all candidates say is the next question.
pub fn whole_is_next()
    ensures { WholeIsNext }
{}
