//! The command that makes a language and a target of a number.

ghost use Rattle.std.specs.Prelude.{◌≡◌, ◌∷◌, ◌++◌, [], length, true, IsTrue, IfOk, None, Err};
ghost use Rattle.std.specs.Prelude.{codes};
ghost use Rattle.std.specs.Fmt.{decimal};
ghost use Rattle.acq_io.specs.Streams.{Rose};
ghost use Rattle.acq_words.specs.Request.{IsBudget};
ghost use Rattle.language.specs.Language.{IsLanguage};
ghost use Rattle.language.specs.Answers.{IsNetwork, agrees, standing_on};
ghost use Rattle.session_store.specs.Loose.{lang_of as lang_in, plan_of, events_of, question_of};
ghost use Rattle.session_store.specs.Loose.{IsSound};
ghost use Rattle.acq_cli.specs.Demoing.{Demos, HasDriven, IsQuietEnd, SaysSum, demo_text};
ghost use Rattle.session_store.specs.Keeps.{IsSameSession};
ghost use Rattle.acq_loop.specs.Points.{terms_with};
ghost use Rattle.acq_said.specs.Saying.{is_told, saying};
ghost use Rattle.acq_loop.specs.Texts.{learned_after};

use acq_io::{PlainSink, PlainSource, Put, Sink};
use acq_loop::{Drove, Ending, drive};
use acq_said::{Said, Unsaid, lang_of, or_silent, put};
use assign::Plan;
use disk_model::{Disk, MemDisk, Room};
use language::{Language, Memory};
use network::Network;
use par_screen::{Gate, places_for};
use query_gen::Screen;
use session_store::{Keep, Loose};
use std::alloc::Global;
use std::thread::Threads;
use target_oracle::{NetTeacher, generate};

/// Says which language the number made.
fn made(alloc: Global, number: u32, lang: &Language) -> Result<Said, Memory>
    ensures says { IfOk result (λ said. said ≡ saying (demo_text number lang.now) Ending.Done) }
    ensures lawful { IsLanguage lang.now }
{
    let variables = lang.n();
    let scopes = lang.scopes();
    let candidates = lang.candidates();
    let Ok(text) = format!(in alloc;
        "demo {number} variables {variables} scopes {scopes} candidates {candidates}\n"
    ) else {
        return Err(Memory);
    };
    Ok(Said::new(text, Ending::Done))
}

/// Lets a network answer without a word. Nothing is read, written or kept on a disk, so what the
/// loop is handed of these is its own.
fn drive_quietly<R: Threads + Sync, G: Gate>(
    rt: &R,
    alloc: Global,
    budget: u32,
    target: Network,
    keep: &mut Loose,
    gate: &G,
) -> Drove
    requires budget { IsBudget budget }
    requires sound { IsSound keep.old }
    requires fresh { events_of keep.old ≡ [] }
    requires idle { question_of keep.old ≡ None }
    requires target { IsNetwork (lang_in keep.old) target.list }
    ensures driven { HasDriven target.list (lang_in keep.old) (terms_with (plan_of keep.old) budget)
        (events_of keep.new) result }
    ensures agreeing { IsTrue (agrees (lang_in keep.old) target.list
        (standing_on (lang_in keep.old) (events_of keep.new))) }
    ensures same { IsSameSession ⟦<Loose as Keep<MemDisk>>⟧ keep.old keep.new }
{
    let lang = lang_of::<MemDisk, Loose>(keep);
    // for the law that no session about a language takes as many answers as there are records
    let _variables = lang.n();
    let Ok(mut places) = places_for(alloc, lang) else {
        return Drove::Memory;
    };
    let Ok(mut screen) = Screen::new(alloc, lang) else {
        return Drove::Memory;
    };
    let room = Room { bytes: 0, calls: 0 };
    let Ok(mut disk) = MemDisk::new(alloc, Vec::new(alloc), Vec::new(alloc), room) else {
        return Drove::Memory;
    };
    let mut source = PlainSource::new(Vec::new(alloc));
    let mut sink = PlainSink::new(alloc);
    let mut teacher = NetTeacher::of(alloc, lang, target, true);
    drive(
        rt,
        alloc,
        &mut places,
        &mut screen,
        budget,
        &mut source,
        &mut sink,
        &mut disk,
        &mut teacher,
        keep,
        gate,
    )
}

/// Says how it ended after so many answers, and how many candidates were learned.
fn summary(alloc: Global, word: &str, m: u32, learned: u32, ending: Ending) -> Result<Said, Memory>
    requires { is_told ending ≡ true }
    ensures { IfOk result (λ said. said ≡ saying (word.now ++ (32
        ∷ (decimal m ++ (10 ∷ (codes "learned " ++ (decimal learned ++ 10 ∷ [])))))) ending) }
{
    let text = format!(in alloc; "{word} {m}\nlearned {learned}\n")?;
    Ok(Said::new(text, ending))
}

/// Says how the loop ended.
fn summed(alloc: Global, drove: Drove, learned: u32) -> Result<Said, Unsaid>
    requires { IsQuietEnd drove }
    ensures { SaysSum learned drove result }
{
    match drove {
        Drove::Converged(m) => or_silent(summary(
            alloc,
            "converged",
            m,
            learned,
            Ending::Converged(m),
        )),
        Drove::Undecided(m) => or_silent(summary(
            alloc,
            "undecided",
            m,
            learned,
            Ending::Undecided(m),
        )),
        Drove::Memory => Err(Unsaid::Memory),
        _ => unreachable!(),
    }
}

/// How many candidates the session of a keeper has learned.
fn learned_by<D: Disk, P: Keep<D>>(keep: &P) -> u32
    requires { P.sound keep.now }
    ensures is { (budget : _) → result ≡ length (learned_after (P.lang keep.now) (terms_with
        (P.plan keep.now) budget) (standing_on (P.lang keep.now) (P.record_of keep.now))) }
{
    keep.session().network().len()
}

/// Makes a language and a target of a number, lets the target answer in plan Quacq, and says how
/// that ended.
pub fn demo_number<R: Threads + Sync, K: Sink, G: Gate>(
    rt: &R,
    alloc: Global,
    number: u32,
    budget: u32,
    out: &mut K,
    gate: &G,
) -> Result<Ending, Put>
    requires { IsBudget budget }
    ensures demos { Demos number budget (K.written out.old) (K.written out.new) result }
    ensures failed { result ≡ Err Put.Failed → Rose (K.faults out.old) (K.faults out.new) }
{
    let Ok((lang, target)) = generate(alloc, number) else {
        return Err(Put::Memory);
    };
    put(or_silent(made(alloc, number, &lang)), out)?;
    let Ok(mut keep) = Loose::new(alloc, lang, Plan::Quacq) else {
        return Err(Put::Memory);
    };
    let drove = drive_quietly(rt, alloc, budget, target, &mut keep, gate);
    let learned = learned_by::<MemDisk, Loose>(&keep);
    put(summed(alloc, drove, learned), out)
}
