//! Laws of the definitions, as contracts of functions that do nothing.

ghost use Rattle.language.specs.Laws.{BuiltIsOne, CandidatesAreClosed, CandidatesAreNumbered};
ghost use Rattle.language.specs.Laws.{CoveredIsConverged};

/// Two candidates on one scope have an intersection among the candidates there.
pub fn candidates_are_closed()
    ensures { CandidatesAreClosed }
{}

/// A covered network is the one that the answers converge on.
pub fn covered_is_converged()
    ensures { CoveredIsConverged }
{}

/// Each candidate stands in the list of all at its number.
pub fn candidates_are_numbered()
    ensures { CandidatesAreNumbered }
{}

/// Of the same frame, relations and scopes no two languages are built.
pub fn built_is_one()
    ensures { BuiltIsOne }
{}
