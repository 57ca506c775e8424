//! The command that makes a journal.

ghost use Rattle.std.specs.Prelude.{◌≡◌, ◌≢◌, ◌⊎◌, IfOk, MatchOption, Ok, Err};
ghost use Rattle.acq_io.specs.Streams.{HasCalled, TakesSome};
ghost use Rattle.disk_model.specs.Disk.{Rose as DiskRose};
ghost use Rattle.acq_said.specs.Journals.{untold};
ghost use Rattle.acq_said.specs.Making.{IsJournalMade, IsNotMade, News, made_said, voc_refused};
ghost use Rattle.acq_said.specs.Said.{IsSaid};

use crate::refusing::{lang_of, refused};
use crate::said::{Said, Unsaid, or_silent};
use acq_io::{AllFault, Source, read_all};
use acq_loop::Ending;
use answer_journal::JFault;
use assign::Plan;
use disk_model::Disk;
use language::{Language, Memory};
use session_store::{SFault, Store};
use std::alloc::Global;
use voc_read::{MOST_VOCABULARY, VocFault, voc_text};

/// Says that a journal was made.
fn created(alloc: Global, lang: &Language) -> Result<Said, Memory>
    ensures { IfOk result (λ said. said ≡ made_said (Ok lang.now)) }
{
    let variables = lang.n();
    let scopes = lang.scopes();
    let candidates = lang.candidates();
    let text = format!(in alloc;
        "created variables {variables} scopes {scopes} candidates {candidates}\n"
    )?;
    Ok(Said::new(text, Ending::Done))
}

/// Says why the vocabulary is refused.
pub fn refused_voc(alloc: Global, fault: VocFault) -> Result<Said, Memory>
    ensures { IfOk result (λ said. said ≡ voc_refused fault) }
{
    let reason = voc_text(alloc, fault)?;
    let text = format!(in alloc; "refused vocabulary {reason}\n")?;
    Ok(Said::new(text, Ending::VocRefused(fault)))
}

/// Says why no journal is made.
fn unmade(alloc: Global, fault: SFault) -> Result<Said, Unsaid>
    ensures refuses { MatchOption (untold fault) (IsSaid (made_said (Err fault)) result)
        (λ why. result ≡ Err why) }
    ensures no_read { result ≢ Err Unsaid.ReadFault }
    ensures lost { result ≡ Err Unsaid.DiskFault → fault ≡ SFault.Journal JFault.DiskFault }
{
    match fault {
        SFault::Voc(fault) => or_silent(refused_voc(alloc, fault)),
        SFault::Journal(_) => refused(alloc, fault),
        SFault::Stray(_) => refused(alloc, fault),
        SFault::Memory => refused(alloc, fault),
    }
}

/// Makes a journal of this plan and vocabulary.
fn make_journal<D: Disk>(
    alloc: Global,
    plan: Plan,
    voc: &[u8],
    disk: &mut D,
) -> Result<Said, Unsaid>
    ensures makes { IsJournalMade D.Disk plan voc.now disk.old disk.new result
        ⊎ IsNotMade D.Disk plan voc.now disk.old disk.new result }
    ensures no_read { result ≢ Err Unsaid.ReadFault }
    ensures lost { result ≡ Err Unsaid.DiskFault →
        DiskRose (D.faults disk.old) (D.faults disk.new) }
{
    match Store::create(alloc, disk, plan, voc) {
        Ok(store) => or_silent(created(alloc, lang_of::<D, Store>(&store))),
        Err(fault) => unmade(alloc, fault),
    }
}

/// Reads a vocabulary to the end of the input, and makes a journal of it.
pub fn new_journal<S: Source, D: Disk>(
    alloc: Global,
    plan: Plan,
    input: &mut S,
    disk: &mut D,
) -> Result<Said, Unsaid>
    ensures news { News D.Disk plan (S.left input.old) (S.left input.new) disk.old disk.new result }
    ensures takes { TakesSome (S.left input.old) (S.left input.new) }
    ensures read { HasCalled (S.faults input.old) (S.faults input.new) (S.late input.old)
        (S.late input.new) (result ≡ Err Unsaid.ReadFault) }
    ensures lost { result ≡ Err Unsaid.DiskFault →
        DiskRose (D.faults disk.old) (D.faults disk.new) }
{
    match read_all(alloc, input, MOST_VOCABULARY) {
        Ok(voc) => make_journal(alloc, plan, &voc, disk),
        Err(AllFault::TooLong) => or_silent(refused_voc(alloc, VocFault::TooLong)),
        Err(AllFault::Fault) => Err(Unsaid::ReadFault),
        Err(AllFault::Memory) => Err(Unsaid::Memory),
    }
}
