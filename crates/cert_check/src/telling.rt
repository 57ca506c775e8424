//! What the answers tell of a network and of candidates.

ghost use Rattle.std.specs.Prelude.{◌≡◌, ◌<◌, ◌^◌, not, List, All, length, map, position, IfOk};
ghost use Rattle.assign.specs.Sets.{numbers};
ghost use Rattle.assign.specs.Assignment.{variables_of};
ghost use Rattle.assign.specs.Events.{Answer};
ghost use Rattle.language.specs.Language.{IsCandidate, IsLanguage, IsQuestion, accepts, candidates};
ghost use Rattle.language.specs.Language.{scope_of, violates, Language as Lang};
ghost use Rattle.language.specs.Answers.{IsNetwork, has_scope};
ghost use Rattle.cert_check.specs.Checking.{has_other, has_own_no, is_other, is_rival};
ghost use Rattle.cert_check.specs.Checking.{is_uncovered, repeats_scope};
ghost use Rattle.cert_check.specs.Good.{has_refutation};
ghost use Rattle.cert_check.specs.Told.{IsToldBy};

use crate::cert::Listed;
use crate::entry::Entry;
use crate::told::Told;
use assign::{Partial, VarSet};
use language::{Candidate, Language, Memory, ScopeId};
use std::alloc::Global;

// ---- One answer, one candidate

/// For each item the variables of its scope.
pub(crate) fn scopes_of(
    alloc: Global,
    lang: &Language,
    net: &[Candidate],
) -> Result<Vec<VarSet>, Memory>
    requires { IsNetwork lang.now net.now }
    ensures { IfOk result (λ sets. sets.items ≡ map (scope_of lang.now) net.now) }
{
    let mut sets = Vec::new(alloc);
    for c in net {
        sets.push(lang.scope_set(c.scope))?;
    }
    Ok(sets)
}

/// Whether the question violates an item whose scope is this. A set is looked at first, since most
/// scopes aren't covered.
fn is_violated(lang: &Language, c: Candidate, scope: VarSet, q: &Partial, vars: VarSet) -> bool
    requires lawful { IsLanguage lang.now }
    requires candidate { IsCandidate lang.now c }
    requires question { IsQuestion lang.now q.now }
    requires scope { scope ≡ scope_of lang.now c }
    requires vars { vars ≡ variables_of q.now }
    ensures { result ≡ violates lang.now c q.now }
{
    scope.within(vars) && lang.candidate_violated(c, q)
}

/// Whether the question violates no item.
fn accepts(lang: &Language, net: &[Candidate], sets: &[VarSet], q: &Partial) -> bool
    requires lawful { IsLanguage lang.now }
    requires network { IsNetwork lang.now net.now }
    requires sets { sets.now ≡ map (scope_of lang.now) net.now }
    requires question { IsQuestion lang.now q.now }
    ensures { result ≡ accepts lang.now net.now q.now }
{
    let vars = q.vars();
    for i in 0..net.len() {
        if is_violated(lang, net[i], sets[i], q, vars) {
            return false;
        }
    }
    true
}

/// Whether the network gives another answer.
fn is_other(lang: &Language, net: &[Candidate], sets: &[VarSet], entry: &Entry) -> bool
    requires lawful { IsLanguage lang.now }
    requires network { IsNetwork lang.now net.now }
    requires sets { sets.now ≡ map (scope_of lang.now) net.now }
    requires question { IsQuestion lang.now entry.now.question }
    ensures { result ≡ is_other lang.now net.now entry.now }
{
    accepts(lang, net, sets, &entry.question) != entry.yes
}

/// Whether there is an item on the scope.
pub(crate) fn has_scope(net: &[Candidate], s: ScopeId) -> bool
    ensures { result ≡ has_scope net.now s }
{
    net.iter().any(|c| c.scope == s)
}

/// Whether there is another item on the candidate's scope.
fn has_other(net: &[Candidate], c: Candidate) -> bool
    ensures { result ≡ has_other net.now c }
{
    net.iter().any(|d| d.scope == c.scope && d.rel != c.rel)
}

/// Whether the answers don't tell the candidate from another item on its scope.
fn is_rival(net: &[Candidate], told: &Told, c: Candidate) -> bool
    ensures { (l : Lang) (t : List Answer) → IsToldBy l t told.now → IsCandidate l c →
        result ≡ is_rival l net.now t c }
{
    !told.is_struck(c) && !told.is_spared(c) && has_other(net, c)
}

/// Whether the candidate of this number is listed.
fn has_refutation(items: &[Listed], number: u32) -> bool
    ensures { result ≡ has_refutation items.now number }
{
    for item in items {
        if item.candidate() == number {
            return true;
        }
    }
    false
}

/// Whether the candidate is on a scope without items, and neither excluded by a yes nor listed.
fn is_uncovered(
    lang: &Language,
    net: &[Candidate],
    told: &Told,
    items: &[Listed],
    c: Candidate,
) -> bool
    requires { IsCandidate lang.now c }
    ensures { (t : List Answer) → IsToldBy lang.now t told.now →
        result ≡ is_uncovered lang.now net.now t items.now c }
{
    !told.is_struck(c) && !has_scope(net, c.scope) && !has_refutation(items, lang.number_of(c))
}

// ---- The first of each kind

/// The first answer that the network doesn't give.
pub(crate) fn first_other(
    lang: &Language,
    net: &[Candidate],
    sets: &[VarSet],
    answers: &[Entry],
) -> Option<u32>
    requires lawful { IsLanguage lang.now }
    requires network { IsNetwork lang.now net.now }
    requires sets { sets.now ≡ map (scope_of lang.now) net.now }
    requires questions { All (λ a. IsQuestion lang.now a.question) answers.now }
    requires few { length answers.now < 2 ^ 32 }
    ensures { result ≡ position (is_other lang.now net.now) answers.now }
{
    for i in 0..answers.len() {
        if is_other(lang, net, sets, &answers[i]) {
            return Some(i as u32);
        }
    }
    None
}

/// The first item on the scope of an earlier one.
pub(crate) fn first_repeated(net: &[Candidate]) -> Option<u32>
    requires { length net.now < 2 ^ 32 }
    ensures { result ≡ position (repeats_scope net.now) (numbers (length net.now)) }
{
    for i in 0..net.len() {
        if has_scope(&net[..i], net[i].scope) {
            return Some(i as u32);
        }
    }
    None
}

/// The first item without a no about exactly its scope.
pub(crate) fn first_without_no(lang: &Language, net: &[Candidate], told: &Told) -> Option<u32>
    requires network { IsNetwork lang.now net.now }
    requires few { length net.now < 2 ^ 32 }
    ensures { (t : List Answer) → IsToldBy lang.now t told.now →
        result ≡ position (λ c. not (has_own_no lang.now t c)) net.now }
{
    for i in 0..net.len() {
        if !told.has_own_no(net[i]) {
            return Some(i as u32);
        }
    }
    None
}

/// The first candidate that the answers don't tell from the learned one on its scope.
pub(crate) fn first_rival(lang: &Language, net: &[Candidate], told: &Told) -> Option<u32>
    ensures { (t : List Answer) → IsToldBy lang.now t told.now →
        result ≡ position (is_rival lang.now net.now t) (candidates lang.now) }
{
    for number in 0..lang.candidates() {
        if is_rival(net, told, lang.candidate(number)) {
            return Some(number);
        }
    }
    None
}

/// The first candidate on a scope without items that is neither excluded by a yes nor listed.
pub(crate) fn first_uncovered(
    lang: &Language,
    net: &[Candidate],
    told: &Told,
    items: &[Listed],
) -> Option<u32>
    ensures { (t : List Answer) → IsToldBy lang.now t told.now →
        result ≡ position (is_uncovered lang.now net.now t items.now) (candidates lang.now) }
{
    for number in 0..lang.candidates() {
        if is_uncovered(lang, net, told, items, lang.candidate(number)) {
            return Some(number);
        }
    }
    None
}
