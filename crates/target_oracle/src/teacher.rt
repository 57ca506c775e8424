ghost use Rattle.std.specs.Prelude.{◌≡◌, ◌<◌, ◌≤◌, [], Bool, IsFalse};
ghost use Rattle.std.specs.Option.{ForSome};
ghost use Rattle.acq_io.specs.Streams.{HasCalled, Rose};
ghost use Rattle.assign.specs.Assignment.{Assignment};
ghost use Rattle.language.specs.Language.{Language, IsQuestion};
ghost use Rattle.target_oracle.specs.Turns.{Turns};
ghost use Rattle.target_oracle.specs.Tells.{AsksFirst, Tells};
ghost use Rattle.target_oracle.specs.Teaching.{TeachesOn};
ghost use Rattle.target_oracle.specs.declared.teacher.Told.{Told};

use acq_io::{Sink, Source};
use assign::Partial;
use language::Language;
use std::alloc::Global;

/// What a teacher says to a question.
#[derive(Clone, Copy, Debug, PartialEq, Eq)]
pub enum Told {
    Yes,
    No,
    /// The last answer that stands is taken back.
    Back,
    /// The one who answers wants to stop.
    Stop,
    /// The source ended before a whole line.
    End,
    /// A line has more than 256 bytes before its newline.
    TooLong,
    /// Too many lines in a row are no answers.
    Unreadable,
    /// The source failed.
    ReadFault,
    /// The sink failed.
    WriteFault,
    Memory,
}

/// Who answers the questions, reading from a source and writing to a sink.
pub trait Teacher<S: Source, K: Sink> {
    /// Whether the teacher can answer questions of a language.
    ghost fits: { Self → Language → Type 0 };

    /// What a turn writes and hears.
    ghost turn: { Self → Turns };

    /// What the teacher may say to a question, whether or not source and sink tell their bytes.
    ghost may_say: { Self → Language → Assignment → Told → Type 0 };

    /// Whether it may read the source.
    ghost reads: { Self → Bool };

    /// Puts question number `k`, counted from 1, and says what comes back.
    fn told(
        &mut self,
        alloc: Global,
        source: &mut S,
        sink: &mut K,
        lang: &Language,
        k: u32,
        q: &Partial,
    ) -> Told
        requires question { IsQuestion lang.now q.now }
        requires fits { fits self.old lang.now }
        // where the source tells its bytes, whether or not the sink does
        ensures tells { ForSome (S.left source.old) (λ bytes. Tells (turn self.old lang.now k q.now
            bytes) (K.written sink.old) (S.left source.new) (K.written sink.new) result) }
        // what a turn writes where no bytes are left stands written before any are taken
        ensures asks { AsksFirst (S.left source.old) (K.written sink.old) (S.left source.new)
            (K.written sink.new) (turn self.old lang.now k q.now []).text }
        ensures on { TeachesOn turn fits may_say reads self.old self.new }
        ensures says { may_say self.old lang.now q.now result }
        // an answer is taken back only where one stands, whether or not source and sink tell
        ensures back { result ≡ Told.Back → 1 < k }
        ensures unread { IsFalse (reads self.old) → source.new ≡ source.old }
        ensures later_sink { K.faults sink.old ≤ K.faults sink.new }
        ensures called { HasCalled (S.faults source.old) (S.faults source.new) (S.late source.old)
            (S.late source.new) (result ≡ Told.ReadFault) }
        ensures write { result ≡ Told.WriteFault → Rose (K.faults sink.old) (K.faults sink.new) };
}
