//! What holds of every list of events and of every file. These functions do nothing.

ghost use Rattle.session_store.specs.Laws.{RecordsAreAnswers, ReplayIsState, FrontsHavePlaces};
ghost use Rattle.session_store.specs.Laws.{StrayIsFirst};
ghost use Rattle.session_store.specs.Opened.{OpensAlways, OpensOnce};

use answer_journal::{each_has_a_reading, no_two_readings};

/// What is replayed are the answers that stand, each with the number of the record that holds it.
pub fn records_are_answers()
    ensures { RecordsAreAnswers }
{}

/// Where events have their places, they lead to the state to which the answers that stand lead.
pub fn replay_is_state()
    ensures { ReplayIsState }
{}

/// Where events have their places, so have others after which the first of their answers stand:
/// those with a take-back more.
pub fn fronts_have_places()
    ensures { FrontsHavePlaces }
{}

/// The record that a replay names is the first take-back at which no answer stands. Without one it
/// is that of the first answer that stands and has no place.
pub fn stray_is_first()
    ensures { StrayIsFirst }
{}

/// No bytes open in two ways: with two sessions, with one and a refusal, or with two refusals.
pub fn no_two_openings()
    ensures { OpensOnce }
{
    // a law: no bytes have two readings
    no_two_readings();
}

/// Each list of bytes opens with a session, or is refused for what it says, and not for want of
/// memory.
pub fn each_opens_or_is_refused()
    ensures { OpensAlways }
{
    // a law: each list of bytes has a reading
    each_has_a_reading();
}
