ghost use Rattle.std.specs.Prelude.{◌≡◌, ◌≢◌, true, ℕ, zero, suc, ◌+◌, ◌<◌, ◌≤◌, ◌++◌, ◌∷◌, []};
ghost use Rattle.std.specs.Prelude.{List, OnOk, IfSome, Option, Some, None, length, string_bytes};
ghost use Rattle.std.specs.Option.{ForSome};
ghost use Rattle.acq_io.specs.Streams.{Adds, AddsOn, HasCalled, Rose, TakesSome};
ghost use Rattle.language.specs.Language.{IsQuestion};
ghost use Rattle.language.specs.Texts.{question_text};
ghost use Rattle.target_oracle.specs.Lines.{line_turn, no_answer_text};
ghost use Rattle.target_oracle.specs.Tells.{AsksFirst, Tells};
ghost use Rattle.target_oracle.specs.Hearing.{HearsLine, CutsOff, Passes, TellsOf};

use crate::teacher::{Teacher, Told};
use crate::words::told_in;
use acq_io::{Line, LineGot, Put, Sink, Source, read_line};
use assign::Partial;
use language::Language;
use std::alloc::{AllocError, Global};

/// A person, who reads the questions as lines and answers by lines.
///
/// An answer is `yes` or `y`, `no` or `n`, `stop`, or, where an answer stands, `back`, with or
/// without spaces, tabs and carriage returns at both ends. After any other line the person is told
/// that it is no answer, and the next line is read; the 1,000th such line in a row ends the turn.
#[derive(Drop)]
pub struct LineTeacher {
    /// The line of the last question. The next one is written in its place.
    asked: Option<String>,
    /// A place for the lines that are read.
    heard: Line,
}

impl LineTeacher {
    /// A person who has been asked nothing yet.
    pub fn new() -> LineTeacher {
        LineTeacher {
            asked: None,
            heard: Line::empty(),
        }
    }
}

/// How many lines in a row that are no answers are passed over.
const PATIENCE: u32 = 999;

const NO_ANSWER: &[u8] = b"not an answer\n";

/// What a line says to question number `k`. None where it is no answer.
fn hear_line<S: Source>(source: &mut S, line: &mut Line, k: u32) -> Option<Told>
    ensures hears { HearsLine k (S.left source.old) (S.left source.new) result }
    ensures back { result ≡ Some Told.Back → 1 < k }
    ensures takes { TakesSome (S.left source.old) (S.left source.new) }
    ensures called { HasCalled (S.faults source.old) (S.faults source.new) (S.late source.old)
        (S.late source.new) (result ≡ Some Told.ReadFault) }
    ensures write { result ≢ Some Told.WriteFault }
{
    match read_line(source, line) {
        LineGot::Line => told_in(line.bytes(), k),
        LineGot::End => Some(Told::End),
        LineGot::TooLong => Some(Told::TooLong),
        LineGot::Fault => Some(Told::ReadFault),
    }
}

/// Says that a line was no answer. None where that was written.
fn pass_line<K: Sink>(sink: &mut K) -> Option<Told>
    ensures passed { result ≡ None → Adds (K.written sink.old) (K.written sink.new) no_answer_text }
    ensures cut { IfSome result (CutsOff no_answer_text (K.written sink.old) (K.written sink.new)) }
    ensures adds { AddsOn (K.written sink.old) (K.written sink.new) [] }
    ensures later_sink { K.faults sink.old ≤ K.faults sink.new }
    ensures write { result ≡ Some Told.WriteFault → Rose (K.faults sink.old) (K.faults sink.new) }
{
    match sink.write(NO_ANSWER) {
        Ok(()) => None,
        Err(Put::Failed) => Some(Told::WriteFault),
        Err(Put::Memory) => Some(Told::Memory),
    }
}

/// What a line says, of which more may follow. None where it is no answer, and that was written.
fn hear_or_pass<S: Source, K: Sink>(
    source: &mut S,
    sink: &mut K,
    line: &mut Line,
    k: u32,
) -> Option<Told>
    ensures passes { result ≡ None →
        Passes k (S.left source.old) (K.written sink.old) (S.left source.new) (K.written sink.new) }
    ensures tells { IfSome result (λ told. (patience : ℕ) → TellsOf k (suc patience)
        (S.left source.old) (K.written sink.old) (S.left source.new) (K.written sink.new) told) }
    ensures back { result ≡ Some Told.Back → 1 < k }
    ensures takes { TakesSome (S.left source.old) (S.left source.new) }
    ensures adds { AddsOn (K.written sink.old) (K.written sink.new) [] }
    ensures later_sink { K.faults sink.old ≤ K.faults sink.new }
    ensures called { HasCalled (S.faults source.old) (S.faults source.new) (S.late source.old)
        (S.late source.new) (result ≡ Some Told.ReadFault) }
    ensures write { result ≡ Some Told.WriteFault → Rose (K.faults sink.old) (K.faults sink.new) }
{
    match hear_line(source, line, k) {
        Some(told) => Some(told),
        None => pass_line(sink),
    }
}

/// What a line says where no more may follow.
fn hear_last<S: Source>(source: &mut S, line: &mut Line, k: u32) -> Told
    ensures tells { (written : Option (List ℕ)) →
        TellsOf k zero (S.left source.old) written (S.left source.new) written result }
    ensures back { result ≡ Told.Back → 1 < k }
    ensures takes { TakesSome (S.left source.old) (S.left source.new) }
    ensures called { HasCalled (S.faults source.old) (S.faults source.new) (S.late source.old)
        (S.late source.new) (result ≡ Told.ReadFault) }
    ensures write { result ≢ Told.WriteFault }
{
    match hear_line(source, line, k) {
        Some(told) => told,
        None => Told::Unreadable,
    }
}

/// What the lines say to question number `k`, up to an answer.
fn hear_lines<S: Source, K: Sink>(source: &mut S, sink: &mut K, line: &mut Line, k: u32) -> Told
    ensures tells { TellsOf k 999 (S.left source.old) (K.written sink.old) (S.left source.new)
        (K.written sink.new) result }
    ensures back { result ≡ Told.Back → 1 < k }
    ensures takes { TakesSome (S.left source.old) (S.left source.new) }
    ensures adds { AddsOn (K.written sink.old) (K.written sink.new) [] }
    ensures later_sink { K.faults sink.old ≤ K.faults sink.new }
    ensures called { HasCalled (S.faults source.old) (S.faults source.new) (S.late source.old)
        (S.late source.new) (result ≡ Told.ReadFault) }
    ensures write { result ≡ Told.WriteFault → Rose (K.faults sink.old) (K.faults sink.new) }
{
    for _passed in 0..PATIENCE {
        if let Some(told) = hear_or_pass(source, sink, line, k) {
            return told;
        }
    }
    hear_last(source, line, k)
}

/// Writes the line of a question in place of what the text held.
fn write_line(line: &mut String, lang: &Language, k: u32, q: &Partial) -> Result<(), AllocError>
    requires { IsQuestion lang.now q.now }
    ensures { OnOk result (string_bytes line.new ≡ question_text lang.now k q.now ++ 10 ∷ []) }
{
    let Ok(()) = lang.write_question(line, k, q) else {
        return Err(AllocError);
    };
    line.push('\n')
}

/// Puts question number `k`, and hears what the lines say to it. `line` and `heard` are places for
/// the lines.
fn put_and_hear<S: Source, K: Sink>(
    source: &mut S,
    sink: &mut K,
    line: &mut String,
    heard: &mut Line,
    lang: &Language,
    k: u32,
    q: &Partial,
) -> Told
    requires question { IsQuestion lang.now q.now }
    ensures tells { ForSome (S.left source.old) (λ bytes. Tells (line_turn lang.now k q.now bytes)
        (K.written sink.old) (S.left source.new) (K.written sink.new) result) }
    ensures asks { AsksFirst (S.left source.old) (K.written sink.old) (S.left source.new)
        (K.written sink.new) (line_turn lang.now k q.now []).text }
    ensures back { result ≡ Told.Back → 1 < k }
    ensures later_sink { K.faults sink.old ≤ K.faults sink.new }
    ensures called { HasCalled (S.faults source.old) (S.faults source.new) (S.late source.old)
        (S.late source.new) (result ≡ Told.ReadFault) }
    ensures write { result ≡ Told.WriteFault → Rose (K.faults sink.old) (K.faults sink.new) }
{
    let Ok(()) = write_line(line, lang, k, q) else {
        return Told::Memory;
    };
    match sink.write(line.as_bytes()) {
        Ok(()) => hear_lines(source, sink, heard, k),
        Err(Put::Failed) => Told::WriteFault,
        Err(Put::Memory) => Told::Memory,
    }
}

impl<S: Source, K: Sink> Teacher<S, K> for LineTeacher {
    ghost fits = { λ _ _. Unit {0} };

    ghost turn = { λ _. line_turn };

    ghost may_say = { λ _ _ _ _. Unit {0} };

    ghost reads = { λ _. true };

    fn told(
        &mut self,
        alloc: Global,
        source: &mut S,
        sink: &mut K,
        lang: &Language,
        k: u32,
        q: &Partial,
    ) -> Told {
        let mut line = self.asked.take().unwrap_or(String::new(alloc));
        let told = put_and_hear(source, sink, &mut line, &mut self.heard, lang, k, q);
        self.asked = Some(line);
        told
    }
}
