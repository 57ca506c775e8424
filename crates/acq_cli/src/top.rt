ghost use Rattle.std.specs.Prelude.{◌≡◌, ◌≤◌, ◌≢◌, ◌⊎◌, ℕ, List, [], map, IfOk, IsFalse, OnErr, Ok};
ghost use Rattle.std.specs.Prelude.{Err};
ghost use Rattle.assign.specs.declared.events.Event.{Event};
ghost use Rattle.std.specs.String.{string_bytes};
ghost use Rattle.acq_io.specs.Streams.{Adds, AddsFront, HasCalled, Rose, TakesSome};
ghost use Rattle.assign.specs.Events.{Answer};
ghost use Rattle.disk_model.specs.Disk.{Rose as DiskRose};
ghost use Rattle.language.specs.Language.{IsLanguage};
ghost use Rattle.language.specs.Answers.{standing_on};
ghost use Rattle.query_gen.specs.Marks.{AreMarksFor};
ghost use Rattle.session_core.specs.Settled.{IsSettled};
ghost use Rattle.session_core.specs.Standing.{Stands, knowledge_of};
ghost use Rattle.session_store.specs.Keeps.{Keeps, IsKeeping, IsSameSession};
ghost use Rattle.target_oracle.specs.Lines.{line_turn};
ghost use Rattle.acq_loop.specs.Driven.{HasEnded, Loses, TellsOpen};
ghost use Rattle.acq_loop.specs.Added.{IsTaught, MayEnd};
ghost use Rattle.acq_loop.specs.Points.{point_of, terms_with};
ghost use Rattle.acq_loop.specs.Loop.{HasReadAndWritten};
ghost use Rattle.acq_said.specs.Breaks.{BreaksRun};
ghost use Rattle.acq_said.specs.Trying.{Acquires, HasBrokenOff};
ghost use Rattle.acq_said.specs.Exactly.{IsBrokenOff};
ghost use Rattle.acq_said.specs.Endings.{HasAsked, Says, SaysPart, Tries};
ghost use Rattle.acq_loop.specs.Program.{TellsCauses, ended_as};
ghost use Rattle.acq_words.specs.Request.{IsBudget, CommandIsWithin};
ghost use Rattle.acq_said.specs.Said.{HasWritten};
ghost use Rattle.acq_said.specs.Saying.{saying};
ghost use Rattle.acq_cli.specs.Commands.{EndsExactly};
ghost use Rattle.acq_cli.specs.Doing.{Does};
ghost use Rattle.acq_cli.specs.Headline.{FindsNetwork, FindsNone, LeavesOpen};
ghost use Rattle.acq_cli.specs.Acknowledged.{Acknowledges};
ghost use Rattle.acq_cli.specs.Completing.{Completes};
ghost use Rattle.acq_cli.specs.Words.{IsCommandOf, Spares, command_asked};
ghost use Rattle.acq_loop.specs.Texts.{refusal_text, usage_text};

use crate::commands::run_journal;
use crate::demo::demo_number;
use crate::playing::play_journal;
use crate::saying::speak;
use acq_io::{AllFault, Put, Sink, Source, read_first_line};
use acq_loop::{Drove, Ending, Terms, drive};
use acq_said::{closing, fixed, or_silent, put, refused_voc};
use acq_words::{Command, UsageFault, WordsFault, read_words};
use answer_journal::no_two_readings;
use disk_model::{Disk, MemDisk, Room};
use language::Language;
use par_screen::{Gate, places_for};
use query_gen::Screen;
use session_core::Session;
use session_store::{Keep, Loose};
use std::alloc::Global;
use std::thread::Threads;
use target_oracle::{LineTeacher, Teacher};
use voc_read::{MOST_VOCABULARY, VocFault, read_vocabulary};

/// Says how the loop ended.
pub(crate) fn say<K: Sink>(
    alloc: Global,
    session: &Session,
    screen: &Screen,
    drove: Drove,
    out: &mut K,
) -> Result<Ending, Put>
    requires made { AreMarksFor (knowledge_of session.now).lang screen.now }
    ensures says { (budget : _) (t : List Answer) → Stands session.now t →
        let k = knowledge_of session.now in let terms = terms_with k.plan budget in
        HasEnded k.lang terms t drove →
        ((m : _) → drove ≡ Drove.Undecided m → TellsOpen k.lang terms t screen.now)
        → IfOk result (Says k.lang terms t (K.written out.old) (K.written out.new) drove) }
    ensures part { (budget : _) (t : List Answer) → Stands session.now t →
        let k = knowledge_of session.now in let terms = terms_with k.plan budget in
        HasEnded k.lang terms t drove →
        ((m : _) → drove ≡ Drove.Undecided m → TellsOpen k.lang terms t screen.now)
        → OnErr result (SaysPart k.lang terms t (K.written out.old) (K.written out.new) drove) }
    ensures failed { result ≡ Err Put.Failed → drove ≢ Drove.WriteFault →
        Rose (K.faults out.old) (K.faults out.new) }
    ensures later_sink { K.faults out.old ≤ K.faults out.new }
{
    match drove {
        Drove::WriteFault => Err(Put::Failed),
        _ => put(closing(alloc, session, screen, drove), out),
    }
}

/// Asks on from where a session stands until the answers converge, nothing more can be asked, or
/// the teacher stops, and says how that ended.
#[tactic(auto, using(acq_loop::proofs::Taking::takes_same, crate::proofs::Causes::called_idle))]
pub(crate) fn ask_on<
    R: Threads + Sync,
    S: Source,
    K: Sink,
    D: Disk,
    T: Teacher<S, K>,
    P: Keep<D>,
    G: Gate,
>(
    rt: &R,
    alloc: Global,
    budget: u32,
    input: &mut S,
    out: &mut K,
    disk: &mut D,
    teacher: &mut T,
    keep: &mut P,
    gate: &G,
) -> Result<Ending, Put>
    requires keeper { IsKeeping P.Keep keep.old disk.old }
    requires fits { T.fits teacher.old (P.lang keep.old) }
    requires settled { IsSettled (P.lang keep.old) (P.plan keep.old)
        (standing_on (P.lang keep.old) (P.record_of keep.old)) (P.question keep.old) }
    requires budget { IsBudget budget }
    ensures asked { HasAsked (T.turn teacher.old) (P.lang keep.old)
        (terms_with (P.plan keep.old) budget) (P.record_of keep.old) (P.record_of keep.new)
        (S.left input.old) (K.written out.old) (S.left input.new) (K.written out.new) result }
    ensures faults { HasReadAndWritten (S.left input.old) (S.left input.new) (S.faults input.old)
        (S.faults input.new) (S.late input.old) (S.late input.new) (K.faults out.old)
        (K.faults out.new) (result ≡ Ok Ending.ReadFault) (result ≡ Err Put.Failed) }
    ensures no_fault { IfOk result (λ ending. ending ≢ Ending.WriteFault) }
    ensures taught { IsTaught (P.lang keep.old) (P.plan keep.old)
        (T.may_say teacher.old (P.lang keep.old)) (P.record_of keep.old) (P.record_of keep.new)
        (MayEnd (T.may_say teacher.old (P.lang keep.old)) result) }
    // where the teacher doesn't read, nothing does
    ensures unread { IsFalse (T.reads teacher.old) → input.new ≡ input.old }
    ensures keeps { Keeps P.Keep D.Disk (result ≡ Ok Ending.DiskFault)
        (Loses (T.turn teacher.old) (P.lang keep.old) (terms_with (P.plan keep.old) budget)
        (point_of (P.record_of keep.old) (S.left input.old) (K.written out.old))
        (point_of (P.record_of keep.new) (S.left input.new) (K.written out.new)))
        keep.old keep.new disk.old disk.new }
    ensures same { IsSameSession P.Keep keep.old keep.new }
    ensures lawful { IsLanguage (P.lang keep.old) }
{
    let start = keep.session();
    let lang = start.lang();
    let Ok(mut places) = places_for(alloc, lang) else {
        return Err(Put::Memory);
    };
    let Ok(mut screen) = Screen::new(alloc, lang) else {
        return Err(Put::Memory);
    };
    let drove = drive(
        rt,
        alloc,
        &mut places,
        &mut screen,
        budget,
        input,
        out,
        disk,
        teacher,
        keep,
        gate,
    );
    let session = keep.session();
    say(alloc, session, &screen, drove, out)
}

/// Asks about a language, with the answers in memory. No disk is touched.
#[tactic(auto, using(acq_loop::proofs::Taking::takes_same, crate::proofs::Causes::called_idle))]
fn try_language<R: Threads + Sync, S: Source, K: Sink, G: Gate>(
    rt: &R,
    alloc: Global,
    lang: Language,
    terms: Terms,
    input: &mut S,
    out: &mut K,
    gate: &G,
) -> Result<Ending, Put>
    requires { IsBudget terms.budget }
    ensures tries { IfOk result (λ ending. (events : List Event)
        × Tries line_turn lang terms [] events (S.left input.old) (K.written out.old)
        (S.left input.new) (K.written out.new) ending) }
    ensures part { OnErr result ((events : List Event) × BreaksRun line_turn lang terms [] events
        (S.left input.old) (K.written out.old) (S.left input.new) (K.written out.new)) }
    ensures takes { TakesSome (S.left input.old) (S.left input.new) }
    ensures read { HasCalled (S.faults input.old) (S.faults input.new) (S.late input.old)
        (S.late input.new) (result ≡ Ok Ending.ReadFault) }
    ensures no_fault { IfOk result (λ ending. ending ≢ Ending.WriteFault) }
    ensures no_disk { IfOk result (λ ending. ending ≢ Ending.DiskFault) }
    ensures failed { result ≡ Err Put.Failed → Rose (K.faults out.old) (K.faults out.new) }
    ensures later_sink { K.faults out.old ≤ K.faults out.new }
{
    let _variables = lang.n();
    let room = Room { bytes: 0, calls: 0 };
    let Ok(mut disk) = MemDisk::new(alloc, Vec::new(alloc), Vec::new(alloc), room) else {
        return Err(Put::Memory);
    };
    let Ok(mut keep) = Loose::new(alloc, lang, terms.plan) else {
        return Err(Put::Memory);
    };
    let mut teacher = LineTeacher::new();
    ask_on(
        rt,
        alloc,
        terms.budget,
        input,
        out,
        &mut disk,
        &mut teacher,
        &mut keep,
        gate,
    )
}

/// Refuses the vocabulary.
fn refuse<K: Sink>(alloc: Global, fault: VocFault, out: &mut K) -> Result<Ending, Put>
    ensures ok { IfOk result (λ ending. (ending ≡ Ending.VocRefused fault)
        × Adds (K.written out.old) (K.written out.new) (refusal_text fault)) }
    ensures part { OnErr result
        (AddsFront (K.written out.old) (K.written out.new) (refusal_text fault)) }
    ensures failed { result ≡ Err Put.Failed → Rose (K.faults out.old) (K.faults out.new) }
{
    put(or_silent(refused_voc(alloc, fault)), out)
}

/// Reads a vocabulary's line, and asks about it.
fn try_input<R: Threads + Sync, S: Source, K: Sink, G: Gate>(
    rt: &R,
    alloc: Global,
    terms: Terms,
    input: &mut S,
    out: &mut K,
    gate: &G,
) -> Result<Ending, Put>
    requires { IsBudget terms.budget }
    ensures acquires { IfOk result (Acquires terms (S.left input.old) (K.written out.old)
        (S.left input.new) (K.written out.new)) }
    ensures part { OnErr result (HasBrokenOff terms (S.left input.old) (K.written out.old)
        (S.left input.new) (K.written out.new)) }
    ensures takes { TakesSome (S.left input.old) (S.left input.new) }
    ensures read { HasCalled (S.faults input.old) (S.faults input.new) (S.late input.old)
        (S.late input.new) (result ≡ Ok Ending.ReadFault) }
    ensures no_fault { IfOk result (λ ending. ending ≢ Ending.WriteFault) }
    ensures failed { result ≡ Err Put.Failed → Rose (K.faults out.old) (K.faults out.new) }
{
    let line = match read_first_line(alloc, input, MOST_VOCABULARY) {
        Ok(line) => line,
        Err(AllFault::TooLong) => return refuse(alloc, VocFault::TooLong, out),
        Err(AllFault::Fault) => return Ok(Ending::ReadFault),
        Err(AllFault::Memory) => return Err(Put::Memory),
    };
    match read_vocabulary(alloc, &line) {
        Ok(lang) => try_language(rt, alloc, lang, terms, input, out, gate),
        Err(VocFault::Memory) => Err(Put::Memory),
        Err(fault) => refuse(alloc, fault, out),
    }
}

/// Says how the program is used, where the words are refused.
fn refuse_words<K: Sink>(alloc: Global, fault: UsageFault, out: &mut K) -> Result<Ending, Put>
    ensures tells { HasWritten (Ok (saying usage_text (Ending.Usage fault))) (K.written out.old)
        (K.written out.new) result }
    ensures failed { result ≡ Err Put.Failed → Rose (K.faults out.old) (K.faults out.new) }
{
    let usage = "usage: acquire JOURNAL COMMAND [--plan P] [--budget N] [--number N]\n";
    put(or_silent(fixed(alloc, usage, Ending::Usage(fault))), out)
}

/// The command that the words ask for.
fn command_asked(alloc: Global, words: &[String]) -> Result<Command, WordsFault>
    ensures is { IsCommandOf (command_asked (map string_bytes words.now)) result }
    ensures within { IfOk result CommandIsWithin }
{
    match read_words(alloc, words) {
        Ok(request) => Ok(request.command),
        Err(fault) => Err(fault),
    }
}

/// What the program does, and how it ends where the output takes all: a command over the journal on
/// the disk, or one that touches no disk.
#[tactic(auto, using(acq_loop::proofs::Taking::takes_same, crate::proofs::Causes::told_causes, crate::proofs::Causes::called_idle))]
fn perform<R: Threads + Sync, S: Source, K: Sink, D: Disk, G: Gate>(
    rt: &R,
    alloc: Global,
    words: &[String],
    input: &mut S,
    out: &mut K,
    disk: &mut D,
    gate: &G,
) -> Result<Ending, Put>
    ensures does { Does D.Disk (command_asked (map string_bytes words.now)) (S.left input.old)
        (K.written out.old) (S.left input.new) (K.written out.new) disk.old disk.new result }
    ensures spares { Spares
        (command_asked (map string_bytes words.now)) S.left input.old input.new disk.old disk.new }
    ensures causes { TellsCauses (S.faults input.old) (S.faults input.new) (S.late input.old)
        (S.late input.new) (K.faults out.old) (K.faults out.new) (D.faults disk.old)
        (D.faults disk.new) (ended_as result) }
{
    let command = match command_asked(alloc, words) {
        Ok(command) => command,
        Err(WordsFault::Usage(fault)) => return refuse_words(alloc, fault, out),
        Err(WordsFault::Memory) => return Err(Put::Memory),
    };
    match command {
        Command::Run(budget) => run_journal(rt, alloc, budget, input, out, disk, gate),
        Command::Try(plan, budget) => try_input(
            rt,
            alloc,
            Terms { plan, budget },
            input,
            out,
            gate,
        ),
        Command::Play(budget) => play_journal(rt, alloc, budget, input, out, disk, gate),
        Command::Demo(number, budget) => demo_number(rt, alloc, number, budget, out, gate),
        Command::New(_)
        | Command::Show
        | Command::Back
        | Command::Reduce(_)
        | Command::Cnf
        | Command::Model
        | Command::Certify(_)
        | Command::Check => put(speak(rt, alloc, command, input, disk, gate), out),
    }
}

/// How the program ends, where the output may have failed or memory was wanting.
fn ended(got: Result<Ending, Put>) -> Ending
    ensures { result ≡ ended_as got }
{
    match got {
        Ok(ending) => ending,
        Err(Put::Failed) => Ending::WriteFault,
        Err(Put::Memory) => Ending::Memory,
    }
}

/// The program: reads the words, and does what they ask for with the input, the output and the
/// disk. The gate does the searches for questions.
pub fn acquire<R: Threads + Sync, S: Source, K: Sink, D: Disk, G: Gate>(
    rt: &R,
    alloc: Global,
    words: &[String],
    input: &mut S,
    out: &mut K,
    disk: &mut D,
    gate: &G,
) -> Ending
    // where it converges, the learned network agrees with each answer and has the solutions of
    // every network that does; where it collapses, none agrees; where it is undecided, no search
    // under the budget finds a question, and some are larger than it
    ensures converged { (m : ℕ) → result ≡ Ending.Converged m →
        FindsNetwork (command_asked (map string_bytes words.now)) (S.left input.old)
        (D.content disk.old) (K.written out.new) m }
    ensures collapsed { (m : ℕ) → result ≡ Ending.Collapsed m → FindsNone
        (command_asked (map string_bytes words.now)) (S.left input.old) (D.content disk.old) m }
    ensures undecided { (m : ℕ) → result ≡ Ending.Undecided m →
        LeavesOpen (command_asked (map string_bytes words.now)) (S.left input.old)
        (D.content disk.old) (K.written out.new) m }
    ensures does { (got : _) × (result ≡ ended_as got)
        × Does D.Disk (command_asked (map string_bytes words.now)) (S.left input.old)
        (K.written out.old) (S.left input.new) (K.written out.new) disk.old disk.new got }
    // An answer behind whose lines something was written is in each content that a crash may leave
    // at the call's end, and those from before the call are there at any moment of it. Of a disk
    // that stops at a call, this is said of what was written up to then.
    ensures acknowledged { Acknowledges D.Disk (command_asked (map string_bytes words.now)) (S.left
        input.old) (K.written out.old) (S.left input.new) (K.written out.new) disk.old disk.new }
    ensures spares { Spares
        (command_asked (map string_bytes words.now)) S.left input.old input.new disk.old disk.new }
    ensures refuses { (fault : UsageFault)
        → (command_asked (map string_bytes words.now) ≡ Err fault → (got : _)
        × (result ≡ ended_as got) × HasWritten (Ok (saying usage_text (Ending.Usage fault)))
        (K.written out.old) (K.written out.new) got)
        × (result ≡ Ending.Usage fault → command_asked (map string_bytes words.now) ≡ Err fault) }
    ensures causes { TellsCauses (S.faults input.old) (S.faults input.new) (S.late input.old)
        (S.late input.new) (K.faults out.old) (K.faults out.new) (D.faults disk.old)
        (D.faults disk.new) result }
    ensures exactly { IsBrokenOff result ⊎ IfOk (command_asked (map string_bytes words.now))
        (λ command. EndsExactly command (S.left input.old) (D.content disk.old) result) }
    // where nothing fails, what is given enough comes to its own end
    ensures completes { (Rose (S.faults input.old) (S.faults input.new) → ⊥) →
        (Rose (K.faults out.old) (K.faults out.new) → ⊥) →
        (DiskRose (D.faults disk.old) (D.faults disk.new) → ⊥)
        → result ≢ Ending.Memory → IfOk (command_asked (map string_bytes words.now))
        (λ command. Completes command (S.left input.old) (D.content disk.old) result) }
{
    // a law: what refuses a file is the only reason
    no_two_readings();
    ended(perform(rt, alloc, words, input, out, disk, gate))
}
