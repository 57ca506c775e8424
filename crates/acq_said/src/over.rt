//! The commands that only say something of a journal's session.

ghost use Rattle.std.specs.Prelude.{◌≡◌, ◌≢◌, IfOk, MatchResult, Err};
ghost use Rattle.disk_model.specs.Disk.{Rose as DiskRose};
ghost use Rattle.language.specs.Answers.{standing_on};
ghost use Rattle.session_core.specs.Settled.{IsSettled};
ghost use Rattle.session_store.specs.Opened.{opened_as};
ghost use Rattle.voc_read.specs.Vocabulary.{IsVocabulary};
ghost use Rattle.acq_said.specs.Asks.{AsksTruly, IsBudgeted, SaysAsked, asked_said};
ghost use Rattle.acq_said.specs.Journals.{SaysRefusal};
ghost use Rattle.acq_said.specs.Over.{SaysOver};
ghost use Rattle.acq_said.specs.Said.{IsSaid};

use crate::ask::Ask;
use crate::certifying::certified;
use crate::printing::printed;
use crate::reducing::reduced;
use crate::refusing::refused;
use crate::said::{Said, Unsaid, or_silent};
use crate::shows::shown;
use disk_model::Disk;
use language::Memory;
use par_screen::Gate;
use session_store::{Keep, Store};
use std::alloc::Global;
use std::thread::Threads;

/// What is said of a keeper's session, whose vocabulary has these bytes.
fn asked<R: Threads + Sync, D: Disk, P: Keep<D>, G: Gate>(
    rt: &R,
    alloc: Global,
    ask: Ask,
    voc: &[u8],
    keep: &P,
    gate: &G,
) -> Result<Said, Memory>
    requires sound { P.sound keep.now }
    requires settled { IsSettled (P.lang keep.now) (P.plan keep.now)
        (standing_on (P.lang keep.now) (P.record_of keep.now)) (P.question keep.now) }
    requires read { IsVocabulary voc.now (P.lang keep.now) }
    requires voc { voc.now ≡ P.voc keep.now }
    requires budget { IsBudgeted ask }
    ensures { IfOk result (SaysAsked ask
        (opened_as (P.plan keep.now) (P.voc keep.now) (P.record_of keep.now) (P.lang keep.now))) }
{
    match ask {
        Ask::Show => shown::<D, P>(alloc, keep),
        Ask::Reduce(budget) => reduced::<D, P>(alloc, keep, budget),
        Ask::Cnf => printed::<D, P>(alloc, keep),
        Ask::Certify(budget) => certified::<R, D, P, G>(rt, alloc, budget, voc, keep, gate),
    }
}

/// Opens a journal, and says what is asked of its session. Nothing is written to it.
pub fn say_over<R: Threads + Sync, D: Disk, G: Gate>(
    rt: &R,
    alloc: Global,
    ask: Ask,
    disk: &mut D,
    gate: &G,
) -> Result<Said, Unsaid>
    requires { IsBudgeted ask }
    ensures says { SaysOver D.Disk (λ opening said.
        MatchResult opening (λ o. IsSaid (asked_said ask o) said) (λ fault. SaysRefusal fault said))
        (AsksTruly ask) disk.old disk.new result }
    ensures no_read { result ≢ Err Unsaid.ReadFault }
    ensures lost { result ≡ Err Unsaid.DiskFault →
        DiskRose (D.faults disk.old) (D.faults disk.new) }
{
    match Store::open(alloc, disk) {
        Ok(store) => or_silent(asked::<R, D, Store, G>(
            rt,
            alloc,
            ask,
            store.vocabulary(),
            &store,
            gate,
        )),
        Err(fault) => refused(alloc, fault),
    }
}
