ghost use Rattle.std.specs.Prelude.{◌≡◌, ◌≢◌, ◌<◌, ◌^◌, ◌↔◌, All, IfOk, Some, None, List, length};
ghost use Rattle.std.specs.Prelude.{position};
ghost use Rattle.language.specs.Language.{IsLanguage, IsQuestion, candidates};
ghost use Rattle.language.specs.Answers.{IsConverged, IsNetwork};
ghost use Rattle.cert_check.specs.declared.verdict.Verdict.TheVariants.{Yes};
ghost use Rattle.cert_check.specs.Checking.{flaw_before_list, is_other, is_unearned, verdict};
ghost use Rattle.cert_check.specs.Told.{IsToldBy, flaw_told};
ghost use Rattle.assign.specs.Events.{Answer};
ghost use Rattle.cert_check.specs.Good.{IsGood, is_earned};

use crate::cert::{Cert, Listed};
use crate::entry::Entry;
use crate::telling::{
    first_other, first_repeated, first_rival, first_uncovered, first_without_no, scopes_of,
};
use crate::told::Told;
use crate::verdict::{Flaw, Verdict};
use crate::walk::refutes;
use language::{Candidate, Language, Memory};
use std::alloc::Global;
use std::thread;
use std::thread::Threads;

/// In how many chunks the list is cut at most.
const CHUNKS: usize = 8;

/// The first answer that the network doesn't give.
fn first_answer(
    alloc: Global,
    lang: &Language,
    net: &[Candidate],
    answers: &[Entry],
) -> Result<Option<u32>, Memory>
    requires lawful { IsLanguage lang.now }
    requires network { IsNetwork lang.now net.now }
    requires questions { All (λ a. IsQuestion lang.now a.question) answers.now }
    requires few_answers { length answers.now < 2 ^ 32 }
    ensures { IfOk result (λ first. first ≡ position (is_other lang.now net.now) answers.now) }
{
    let sets = scopes_of(alloc, lang, net)?;
    Ok(first_other(lang, net, &sets, answers))
}

/// The first flaw of a kind that what the answers tell shows.
fn flaw_told(lang: &Language, net: &[Candidate], told: &Told, items: &[Listed]) -> Option<Flaw>
    requires network { IsNetwork lang.now net.now }
    requires few_items { length net.now < 2 ^ 32 }
    ensures { (t : List Answer) → IsToldBy lang.now t told.now →
        result ≡ flaw_told lang.now net.now t items.now }
{
    if let Some(i) = first_without_no(lang, net, told) {
        return Some(Flaw::NoOwnNo(i));
    }
    if let Some(number) = first_rival(lang, net, told) {
        return Some(Flaw::Rival(number));
    }
    let number = first_uncovered(lang, net, told, items)?;
    Some(Flaw::Uncovered(number))
}

/// The first flaw of a kind that comes before the list's tokens.
fn flaw_before_list(
    alloc: Global,
    lang: &Language,
    net: &[Candidate],
    answers: &[Entry],
    items: &[Listed],
) -> Result<Option<Flaw>, Memory>
    requires lawful { IsLanguage lang.now }
    requires network { IsNetwork lang.now net.now }
    requires questions { All (λ a. IsQuestion lang.now a.question) answers.now }
    requires few_items { length net.now < 2 ^ 32 }
    requires few_answers { length answers.now < 2 ^ 32 }
    ensures { IfOk result (λ flaw. flaw ≡ flaw_before_list lang.now net.now answers.now items.now) }
{
    if let Some(i) = first_answer(alloc, lang, net, answers)? {
        return Ok(Some(Flaw::Answer(i)));
    }
    if let Some(i) = first_repeated(net) {
        return Ok(Some(Flaw::ScopeTwice(i)));
    }
    let told = Told::of(alloc, lang, answers)?;
    Ok(flaw_told(lang, net, &told, items))
}

/// Whether the tokens refute the candidate.
fn is_earned(lang: &Language, net: &[Candidate], item: &Listed) -> bool
    requires network { IsNetwork lang.now net.now }
    requires known { item.now.candidate < length (candidates lang.now) }
    ensures { result ≡ is_earned lang.now net.now item.now }
{
    let c = lang.candidate(item.candidate());
    refutes(lang, net, c, item.tokens())
}

/// The first listed candidate whose tokens don't refute it.
fn first_unearned(lang: &Language, net: &[Candidate], items: &[Listed]) -> Option<usize>
    requires network { IsNetwork lang.now net.now }
    requires known { All (λ r. r.candidate < length (candidates lang.now)) items.now }
    ensures { result ≡ position (is_unearned lang.now net.now) items.now }
{
    for i in 0..items.len() {
        if !is_earned(lang, net, &items[i]) {
            return Some(i);
        }
    }
    None
}

/// The same, where the list is cut into chunks that threads look at side by side.
fn first_unearned_forked<R: Threads + Sync>(
    rt: &R,
    alloc: Global,
    lang: &Language,
    net: &[Candidate],
    items: &[Listed],
) -> Result<Option<u32>, Memory>
    requires network { IsNetwork lang.now net.now }
    requires known { All (λ r. r.candidate < length (candidates lang.now)) items.now }
    requires few { length items.now < 2 ^ 32 }
    ensures { IfOk result (λ first. first ≡ position (is_unearned lang.now net.now) items.now) }
{
    let size = items.len() / CHUNKS + 1;
    let found = thread::map_chunks(
        rt,
        alloc,
        items,
        size,
        &|_start, chunk: &[Listed]|
            requires { IsNetwork lang.now net.now
                × All (λ r. r.candidate < length (candidates lang.now)) chunk.now }
            ensures { result ≡ position (is_unearned lang.entry.now net.entry.now) chunk.entry.now }
        { first_unearned(lang, net, chunk) },
    )?;
    for chunk in 0..found.len() {
        if let Some(i) = found[chunk] {
            return Ok(Some((chunk * size + i) as u32));
        }
    }
    Ok(None)
}

/// Whether the certificate shows that the answers converge on the network, or the first flaw that
/// it has.
pub fn check<R: Threads + Sync>(rt: &R, alloc: Global, cert: &Cert) -> Result<Verdict, Memory>
    ensures is { IfOk result (λ found. found ≡ verdict cert.now) }
    ensures good { IfOk result (λ found. (found ≡ Yes)
        ↔ IsGood cert.now.language cert.now.network cert.now.answers cert.now.refutations) }
    ensures converged { IfOk result (λ found. found ≡ Yes →
        IsConverged cert.now.language cert.now.network cert.now.answers) }
{
    let lang = cert.lang();
    let net = cert.net();
    let items = cert.items();
    if let Some(flaw) = flaw_before_list(alloc, lang, net, cert.answers(), items)? {
        return Ok(Verdict::No(flaw));
    }
    match first_unearned_forked(rt, alloc, lang, net, items)? {
        None => Ok(Verdict::Yes),
        Some(i) => Ok(Verdict::No(Flaw::Refutation(i))),
    }
}
