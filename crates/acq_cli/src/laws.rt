//! Laws of the definitions, as contracts of functions that do nothing.

ghost use Rattle.acq_cli.specs.Laws.{BudgetIsEnough, GeneratedIsShort, RoomIsLeft};
ghost use Rattle.acq_cli.specs.OneText.{EachHasAText, RunIsOne, TextIsOne};

// ---- What is enough for a session

/// A budget that is enough for each candidate where nothing is learned is enough for every session.
pub fn budget_is_enough()
    ensures { BudgetIsEnough }
{}

/// The default budget of 100,000 is enough for every session about the generated language, since no
/// search there has more than 88,573 steps.
#[tactic(auto, using(crate::proofs::Enough::generated_is_short))]
pub fn generated_is_short()
    ensures { GeneratedIsShort }
{}

/// A journal without take-backs has a record for each answer that its session may still take, and
/// so has one with as many records left as any session takes answers.
#[tactic(auto, using(crate::proofs::Room::room_is_left))]
pub fn room_is_left()
    ensures { RoomIsLeft }
{}

// ---- What a run of given bytes is

/// From the same events and bytes there is one run.
pub fn run_is_one()
    ensures { RunIsOne }
{}

/// Of the same bytes `try` has one whole text.
pub fn text_is_one()
    ensures { TextIsOne }
{}

/// Of each list of bytes `try` has a whole text: a refusal, or that of a run.
pub fn each_has_a_text()
    ensures { EachHasAText }
{}
