//! What holds of the bytes of journals, whoever wrote them.

ghost use Rattle.std.specs.Prelude.{◌≡◌, ℕ, List};
ghost use Rattle.assign.specs.declared.events.Plan.{Plan};
ghost use Rattle.assign.specs.declared.events.Event.{Event};
ghost use Rattle.answer_journal.specs.Journal.{Reading, ReadsAs, Spells};
ghost use Rattle.answer_journal.specs.Laws.{EachHasAReading, EachIsFreeOrRefused};

/// No bytes spell two sessions.
pub fn no_two_sessions()
    ensures { (bytes : List ℕ) (p : Plan) (v : List ℕ) (es : List Event) (q : Plan)
        (w : List ℕ) (fs : List Event) → Spells bytes p v es → Spells bytes q w fs →
        (p ≡ q) × (v ≡ w) × (es ≡ fs) }
{}

/// No bytes have two readings: `open` gives the only one, and a damaged file is damaged at one
/// place.
pub fn no_two_readings()
    ensures { (bytes : List ℕ) (r s : Reading) → ReadsAs bytes r → ReadsAs bytes s → r ≡ s }
{}

/// Each list of bytes has a reading, and by the law above no other.
pub fn each_has_a_reading()
    ensures { EachHasAReading }
{}

/// Over each list of bytes a journal is made, or it is refused: a session is there, or it is no
/// journal.
pub fn each_is_free_or_refused()
    ensures { EachIsFreeOrRefused }
{}
