//! The commands that ask nothing: what each says.

ghost use Rattle.std.specs.Prelude.{◌≡◌, true, Ok, Err};
ghost use Rattle.acq_io.specs.Streams.{HasCalled};
ghost use Rattle.acq_words.specs.Request.{CommandIsWithin};
ghost use Rattle.disk_model.specs.Disk.{Rose as DiskRose};
ghost use Rattle.acq_cli.specs.Doing.{Spoke};
ghost use Rattle.acq_cli.specs.Words.{Spares, is_speaking};

use acq_io::Source;
use acq_said::{
    Ask, Said, Unsaid, back_journal, check_input, new_journal, say_over, solve_journal,
};
use acq_words::Command;
use disk_model::Disk;
use par_screen::Gate;
use std::alloc::Global;
use std::thread::Threads;

/// Does what a command asks for that asks nothing itself, and says what is to be written.
#[tactic(auto, using(acq_loop::proofs::Taking::takes_same, acq_io::proofs::CallLemmas::called_not))]
pub(crate) fn speak<R: Threads + Sync, S: Source, D: Disk, G: Gate>(
    rt: &R,
    alloc: Global,
    command: Command,
    input: &mut S,
    disk: &mut D,
    gate: &G,
) -> Result<Said, Unsaid>
    requires speaking { is_speaking command ≡ true }
    requires within { CommandIsWithin command }
    ensures spoke { Spoke D.Disk command (S.left input.old)
        (S.left input.new) disk.old disk.new result }
    ensures spares { Spares (Ok command) S.left input.old input.new disk.old disk.new }
    ensures read { HasCalled (S.faults input.old) (S.faults input.new) (S.late input.old)
        (S.late input.new) (result ≡ Err Unsaid.ReadFault) }
    ensures lost { result ≡ Err Unsaid.DiskFault →
        DiskRose (D.faults disk.old) (D.faults disk.new) }
{
    match command {
        Command::New(plan) => new_journal(alloc, plan, input, disk),
        Command::Show => say_over(rt, alloc, Ask::Show, disk, gate),
        Command::Back => back_journal(alloc, disk),
        Command::Reduce(budget) => say_over(rt, alloc, Ask::Reduce(budget), disk, gate),
        Command::Cnf => say_over(rt, alloc, Ask::Cnf, disk, gate),
        Command::Model => solve_journal(alloc, input, disk),
        Command::Certify(budget) => say_over(rt, alloc, Ask::Certify(budget), disk, gate),
        Command::Check => check_input(rt, alloc, input),
        Command::Run(_) | Command::Try(_, _) | Command::Play(_) | Command::Demo(_, _) => {
            unreachable!()
        }
    }
}
