//! Laws of the sessions, as contracts of functions that do nothing.

ghost use Rattle.session_laws.specs.Laws.{AnswersAreAtMost, AnswersAreFew, AnswersFit};
ghost use Rattle.session_laws.specs.Laws.{EndedIsWalked, FuelIsEnough, HalvingAsks, IdleIsInStep};
ghost use Rattle.session_laws.specs.Laws.{ImpliedIsCovered, KeptSteps, LearnedAreFew, NetworkGrows};
ghost use Rattle.session_laws.specs.Laws.{NetworkHalves, NeverStuck, OneAnswerMore, OverMeansNone};
ghost use Rattle.session_laws.specs.Laws.{QuestionsHavePlaces, QuestionsHaveValues};
ghost use Rattle.session_laws.specs.Laws.{ScopesAreCovered, ScopesNeverOver, SettleSteps};

// ---- One answer, and its place

/// One answer more is one step more.
pub fn one_answer_more()
    ensures { OneAnswerMore }
{}

/// Each question that may be put has a place, whatever the reply.
pub fn questions_have_places()
    ensures { QuestionsHavePlaces }
{}

/// A session that halves, chooses or walks has an open question.
pub fn never_stuck()
    ensures { NeverStuck }
{}

// ---- What is asked

/// Each question that is asked is one of the language, and gives some variable a value.
pub fn questions_have_values()
    ensures { QuestionsHaveValues }
{}

// ---- What an answer does, as equations for a program's loop

/// What an answer makes of the kept candidates.
pub fn kept_steps()
    ensures { KeptSteps }
{}

/// A quiet halving goes on, and another one stands.
pub fn settle_steps()
    ensures { SettleSteps }
{}

/// The quiet replies come to an end before their fuel does.
pub fn fuel_is_enough()
    ensures { FuelIsEnough }
{}

// ---- What a state says

/// A session that halves has an open question, and it violates a kept candidate.
pub fn halving_asks()
    ensures { HalvingAsks }
{}

/// Where nothing is open, the network gives each answer.
pub fn idle_is_in_step()
    ensures { IdleIsInStep }
{}

/// Where nothing is open and each kept candidate is implied, the network is covered.
pub fn implied_is_covered()
    ensures { ImpliedIsCovered }
{}

/// In plan Scopes, where no scope is next, the network is covered.
pub fn scopes_are_covered()
    ensures { ScopesAreCovered }
{}

/// A session is over only where no network agrees with the answers.
pub fn over_means_none()
    ensures { OverMeansNone }
{}

/// In plan Scopes a session is never over.
pub fn scopes_never_over()
    ensures { ScopesNeverOver }
{}

// ---- What is learned stays learned

/// After one answer more the network has what it had, and then what was learned.
pub fn network_grows()
    ensures { NetworkGrows }
{}

// ---- What a walk of an example leaves

/// Where a walk of an example has ended and wasn't cut off, nothing is left to learn from the
/// example.
pub fn ended_is_walked()
    ensures { EndedIsWalked }
{}

// ---- How many answers there are

/// Where nothing is open, the answers are at most as many as the bound says.
pub fn answers_are_few()
    ensures { AnswersAreFew }
{}

/// At any time there are at most so many answers.
pub fn answers_are_at_most()
    ensures { AnswersAreAtMost }
{}

/// That number fits in 32 bits.
pub fn answers_fit()
    ensures { AnswersFit }
{}

/// Where some network agrees, no more candidates are learned than it has scopes.
pub fn learned_are_few()
    ensures { LearnedAreFew }
{}

// ---- A halving that one network answers

/// Where each reply is a network's and it rejects the whole, it rejects the found set and accepts
/// it without any one variable, and the found set is the scope of one of its candidates.
pub fn network_halves()
    ensures { NetworkHalves }
{}
