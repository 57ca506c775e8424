//! What `cnf` says: a session's network for a SAT solver.

ghost use Rattle.std.specs.Prelude.{◌≡◌, IfOk, Err};
ghost use Rattle.language.specs.Answers.{IsNetwork};
ghost use Rattle.net_cnf.specs.Texts.{cnf_of};
ghost use Rattle.session_store.specs.Opened.{opened_as};
ghost use Rattle.acq_said.specs.Asks.{SaysAsked};
ghost use Rattle.acq_said.specs.Printing.{clauses_said};

use crate::ask::Ask;
use crate::learned::learned_by;
use crate::said::Said;
use acq_loop::Ending;
use disk_model::Disk;
use language::{Language, Memory};
use net_cnf::laws::clauses_encode;
use net_cnf::{CnfFault, cnf_text, too_large_text};
use network::Network;
use session_store::Keep;
use std::alloc::Global;

/// Says that the text of the clauses is too large.
fn said_too_large(alloc: Global) -> Result<Said, Memory>
    ensures { IfOk result (λ said. said ≡ clauses_said (Err CnfFault.TooLarge)) }
{
    let text = too_large_text(alloc)?;
    Ok(Said::new(text, Ending::CnfTooLarge))
}

/// Says the clauses of a network.
fn clauses(alloc: Global, lang: &Language, network: &Network) -> Result<Said, Memory>
    requires { IsNetwork lang.now network.now.list }
    ensures { IfOk result (λ said. said ≡ clauses_said (cnf_of lang.now network.now.list)) }
{
    match cnf_text(alloc, lang, network) {
        Ok(text) => Ok(Said::new(text, Ending::Done)),
        Err(CnfFault::TooLarge) => said_too_large(alloc),
        Err(CnfFault::Memory) => Err(Memory),
    }
}

/// What `cnf` says of a keeper's session, in whatever state it is.
pub(crate) fn printed<D: Disk, P: Keep<D>>(alloc: Global, keep: &P) -> Result<Said, Memory>
    requires { P.sound keep.now }
    ensures { IfOk result (SaysAsked Ask.Cnf
        (opened_as (P.plan keep.now) (P.voc keep.now) (P.record_of keep.now) (P.lang keep.now))) }
{
    // a law: the models of the clauses are the solutions
    clauses_encode();
    let (lang, network) = learned_by::<D, P>(keep);
    clauses(alloc, lang, network)
}
