//! The commands over a journal.

ghost use Rattle.std.specs.Prelude.{◌≡◌, ◌≢◌, IfOk, Ok, Err};
ghost use Rattle.acq_io.specs.Streams.{HasCalled, Rose, TakesSome};
ghost use Rattle.acq_words.specs.Request.{IsBudget};
ghost use Rattle.disk_model.specs.Disk.{Rose as DiskRose};
ghost use Rattle.acq_said.specs.Journals.{SaysRefusal};
ghost use Rattle.acq_said.specs.Said.{SaysSo};
ghost use Rattle.acq_words.specs.declared.request.Command.TheVariants.{Run};
ghost use Rattle.acq_cli.specs.Doing.{Does};

use crate::top::ask_on;
use acq_io::{Put, Sink, Source};
use acq_loop::Ending;
use acq_said::{put, refused};
use answer_journal::JFault;
use disk_model::Disk;
use par_screen::Gate;
use session_store::{SFault, Store};
use std::alloc::Global;
use std::thread::Threads;
use target_oracle::LineTeacher;

/// Says so, and writes it.
pub(crate) fn refuse_journal<K: Sink>(
    alloc: Global,
    fault: SFault,
    out: &mut K,
) -> Result<Ending, Put>
    ensures refuses { SaysSo (SaysRefusal fault) (K.written out.old) (K.written out.new) result }
    ensures no_fault { IfOk result (λ ending. ending ≢ Ending.WriteFault) }
    ensures no_read { IfOk result (λ ending. ending ≢ Ending.ReadFault) }
    ensures failed { result ≡ Err Put.Failed → Rose (K.faults out.old) (K.faults out.new) }
    ensures lost { result ≡ Ok Ending.DiskFault → fault ≡ SFault.Journal JFault.DiskFault }
{
    put(refused(alloc, fault), out)
}

/// Opens a journal, and asks on from where its session stands.
#[tactic(auto, using(acq_loop::proofs::Taking::takes_same, crate::proofs::Causes::called_idle))]
pub fn run_journal<R: Threads + Sync, S: Source, K: Sink, D: Disk, G: Gate>(
    rt: &R,
    alloc: Global,
    budget: u32,
    input: &mut S,
    out: &mut K,
    disk: &mut D,
    gate: &G,
) -> Result<Ending, Put>
    requires { IsBudget budget }
    ensures runs { Does D.Disk (Ok (Run budget)) (S.left input.old) (K.written out.old)
        (S.left input.new) (K.written out.new) disk.old disk.new result }
    ensures takes { TakesSome (S.left input.old) (S.left input.new) }
    ensures read { HasCalled (S.faults input.old) (S.faults input.new) (S.late input.old)
        (S.late input.new) (result ≡ Ok Ending.ReadFault) }
    ensures no_fault { IfOk result (λ ending. ending ≢ Ending.WriteFault) }
    ensures failed { result ≡ Err Put.Failed → Rose (K.faults out.old) (K.faults out.new) }
    ensures lost { result ≡ Ok Ending.DiskFault → DiskRose (D.faults disk.old) (D.faults disk.new) }
{
    match Store::open(alloc, disk) {
        Ok(mut store) => {
            let mut teacher = LineTeacher::new();
            ask_on(
                rt,
                alloc,
                budget,
                input,
                out,
                disk,
                &mut teacher,
                &mut store,
                gate,
            )
        }
        Err(fault) => refuse_journal(alloc, fault, out),
    }
}
