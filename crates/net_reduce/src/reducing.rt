ghost use Rattle.std.specs.Prelude.{◌≡◌, ◌≢◌, ◌<◌, ◌≤◌, [], IfOk, IfErr};
ghost use Rattle.language.specs.Language.{IsCandidate, IsImplied, IsLanguage};
ghost use Rattle.language.specs.Answers.{IsNetwork};
ghost use Rattle.fd_solver.specs.Outcomes.{outcome_of_candidate};
ghost use Rattle.net_reduce.specs.Reduction.{IsReduction, Sifts};
ghost use Rattle.net_reduce.specs.Searched.{HasReduceCause, IsReducedBySearch};

use crate::fault::ReduceFault;
use fd_solver::{Outcome, Work, order_of, search};
use language::{Candidate, Language};
use network::Network;
use propagators::Constraints;
use std::alloc::Global;

/// The outcome of a candidate's search against others, in its own order.
fn outcome_of(
    work: &mut Work,
    lang: &Language,
    others: &[Candidate],
    c: Candidate,
    budget: u32,
) -> Outcome
    requires candidate { IsCandidate lang.now c }
    requires network { IsNetwork lang.now others.now }
    requires budget { 1 ≤ budget }
    ensures is { result ≡ outcome_of_candidate lang.now others.now c budget }
    ensures lawful { IsLanguage lang.now }
{
    let _variables = lang.n();
    let constraints = Constraints {
        lang,
        list: others,
        against: Some(c),
    };
    search(work, &constraints, &order_of(lang, c), budget)
}

/// A part of the network with its solutions, in which no item is implied by the others.
///
/// The items are gone through in learning order. Each is searched against the others that remain,
/// under the budget: it is dropped where the search ends with nothing, and kept where it finds
/// something. The first item whose search is spent is refused with its number. The cost is a search
/// for each item, and the work of moving the items behind it by one place.
pub fn reduce(
    alloc: Global,
    work: &mut Work,
    lang: &Language,
    net: &Network,
    budget: u32,
) -> Result<Vec<Candidate>, ReduceFault>
    requires network { IsNetwork lang.now net.now.list }
    requires some_budget { 1 ≤ budget }
    requires small_budget { budget ≤ 1000000000 }
    ensures searched { IfOk result
        (λ part. IsReducedBySearch lang.now net.now.list budget part.items) }
    ensures sifted { IfOk result (λ part. Sifts lang.now [] net.now.list part.items) }
    ensures reduction { IfOk result (λ part. IsReduction lang.now net.now.list part.items) }
    ensures known { IfOk result (λ part. IsNetwork lang.now part.items) }
    ensures spent { IfErr result (λ fault. HasReduceCause lang.now net.now.list budget fault) }
{
    let mut part = Vec::from_slice(alloc, net.list())?;
    // How many of the items before this one remain.
    let mut kept = 0;
    for number in 0..net.len() {
        let c = part.remove(kept);
        match outcome_of(work, lang, &part, c, budget) {
            Outcome::Found(_) => {
                part.insert(kept, c)?;
                kept += 1;
            }
            Outcome::Absent => {}
            Outcome::Spent => return Err(ReduceFault::Spent(number)),
        }
    }
    Ok(part)
}
