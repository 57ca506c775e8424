//! Laws of the definitions, as contracts of functions that do nothing.

ghost use Rattle.acq_loop.specs.Laws.{EachHasARun, EndingsExclude};

/// The ways in which the loop ends exclude one another: after the same answers it converges,
/// collapses, is undecided, or a question was due.
pub fn endings_exclude()
    ensures { EndingsExclude }
{}

/// Whatever the bytes, there is a run from events that have their places, where these are no more
/// than a journal takes.
pub fn each_has_a_run()
    ensures { EachHasARun }
{}
