//! What `reduce` says: a session's network without the items that follow from the others.

ghost use Rattle.std.specs.Prelude.{◌≡◌, IfOk};
ghost use Rattle.acq_words.specs.Request.{IsBudget};
ghost use Rattle.language.specs.Answers.{IsNetwork};
ghost use Rattle.net_reduce.specs.Texts.{reduced_text, spent_text};
ghost use Rattle.session_store.specs.Opened.{opened_as};
ghost use Rattle.acq_said.specs.Asks.{SaysAsked};
ghost use Rattle.acq_said.specs.declared.ask.Ask.TheVariants.{Reduce};
ghost use Rattle.acq_said.specs.Saying.{saying};

use crate::learned::learned_by;
use crate::said::Said;
use acq_loop::Ending;
use disk_model::Disk;
use fd_solver::Work;
use language::{Candidate, Language, Memory};
use net_reduce::{ReduceFault, reduce, reduced_text, spent_text};
use session_store::Keep;
use std::alloc::Global;

/// Says what remains of a network of so many items.
fn said_part(alloc: Global, lang: &Language, part: &[Candidate], of: u32) -> Result<Said, Memory>
    requires { IsNetwork lang.now part.now }
    ensures { IfOk result (λ said. said ≡ saying (reduced_text lang.now part.now of) Ending.Done) }
{
    let text = reduced_text(alloc, lang, part, of)?;
    Ok(Said::new(text, Ending::Done))
}

/// Says which item's search was spent.
fn said_spent(alloc: Global, number: u32) -> Result<Said, Memory>
    ensures { IfOk result (λ said. said ≡ saying (spent_text number) (Ending.ReduceSpent number)) }
{
    let text = spent_text(alloc, number)?;
    Ok(Said::new(text, Ending::ReduceSpent(number)))
}

/// What `reduce` says of a keeper's session, in whatever state it is.
pub(crate) fn reduced<D: Disk, P: Keep<D>>(
    alloc: Global,
    keep: &P,
    budget: u32,
) -> Result<Said, Memory>
    requires sound { P.sound keep.now }
    requires budget { IsBudget budget }
    ensures { IfOk result (SaysAsked (Reduce budget)
        (opened_as (P.plan keep.now) (P.voc keep.now) (P.record_of keep.now) (P.lang keep.now))) }
{
    let (lang, network) = learned_by::<D, P>(keep);
    let Ok(mut work) = Work::new(alloc, lang) else {
        return Err(Memory);
    };
    match reduce(alloc, &mut work, lang, network, budget) {
        Ok(part) => said_part(alloc, lang, &part, network.len()),
        Err(ReduceFault::Spent(number)) => said_spent(alloc, number),
        Err(ReduceFault::Memory) => Err(Memory),
    }
}
