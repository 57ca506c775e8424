//! What the answers tell of all candidates, in one pass over them.

ghost use Rattle.std.specs.Prelude.{◌≡◌, ◌<◌, ℕ, true, List, All, IfOk, IfSome, Some, length, not};
ghost use Rattle.assign.specs.SetLemmas.{is_one};
ghost use Rattle.assign.specs.Events.{Answer};
ghost use Rattle.language.specs.Language.{IsCandidate, IsLanguage, IsQuestion, relations_on};
ghost use Rattle.language.specs.Language.{violates, Language as Lang};
ghost use Rattle.language.specs.Answers.{is_struck};
ghost use Rattle.cert_check.specs.Checking.{has_own_no, is_spared};
ghost use Rattle.cert_check.specs.Told.{AreSpared, AreUnstruck, HaveLost, IsToldBy, is_no_about};

use crate::entry::Entry;
use assign::Partial;
use language::{Candidate, Language, Memory, ScopeId};
use std::alloc::Global;

/// The most variables that a scope has.
const MOST_IN_SCOPE: u8 = 4;

/// What the answers tell, by scope.
#[derive(Drop)]
pub(crate) struct Told {
    /// For each scope the relations whose candidates no yes violates: bit r is one for relation r.
    unstruck: Vec<u64>,
    /// For each scope that a no is about exactly the relations that accept the tuple of such a no:
    /// bit r is one for relation r.
    spared: Vec<Option<u64>>,
}

/// The relations on a scope that the question doesn't violate: bit r is one for relation r.
fn unviolated(lang: &Language, s: ScopeId, q: &Partial) -> u64
    requires lawful { IsLanguage lang.now }
    requires scope { s < length lang.now.scopes }
    requires question { IsQuestion lang.now q.now }
    ensures { (r : ℕ) → r < length (relations_on lang.now s) →
        is_one result r ≡ not (violates lang.now (record { scope = s; rel = r }) q.now) }
{
    match lang.place_on(s, q) {
        None => u64::MAX,
        Some(place) => lang.accepting(s, place),
    }
}

/// Takes away on each scope the relations that the question violates.
fn strike(left: &mut [u64], lang: &Language, q: &Partial)
    requires lawful { IsLanguage lang.now }
    requires question { IsQuestion lang.now q.now }
    requires scopes { length left.old ≡ length lang.now.scopes }
    ensures { HaveLost lang.now q.now (length left.old) left.old left.new }
{
    for s in 0..left.len() {
        if left[s] != 0 {
            left[s] &= unviolated(lang, s as ScopeId, q);
        }
    }
}

/// For each scope the relations whose candidates no yes violates.
pub(crate) fn unstruck(
    alloc: Global,
    lang: &Language,
    answers: &[Entry],
) -> Result<Vec<u64>, Memory>
    requires { All (λ a. IsQuestion lang.now a.question) answers.now }
    ensures { IfOk result (λ list. AreUnstruck lang.now answers.now list.items) }
{
    let mut list = vec![in alloc; u64::MAX; lang.scopes() as usize]?;
    for entry in answers {
        if entry.yes {
            strike(&mut list, lang, &entry.question);
        }
    }
    Ok(list)
}

/// Whether no yes violates the candidate, by what is left on each scope.
pub(crate) fn is_unstruck(left: &[u64], c: Candidate) -> bool
    ensures { (l : Lang) (t : List Answer) → AreUnstruck l t left.now → IsCandidate l c →
        result ≡ not (is_struck l t c) }
{
    match left.get(usize::from(c.scope)) {
        Some(relations) => c.rel < 64 && (*relations >> c.rel) & 1 == 1,
        None => false,
    }
}

/// The scope that the answer is a no about exactly, if there is one.
fn own_scope(lang: &Language, entry: &Entry) -> Option<ScopeId>
    requires { IsLanguage lang.now }
    ensures known { IfSome result (λ s. s < length lang.now.scopes) }
    ensures about { IfSome result (λ s. is_no_about lang.now s entry.now ≡ true) }
    ensures only { (s : ℕ) → s < length lang.now.scopes → is_no_about lang.now s entry.now ≡ true →
        result ≡ Some s }
{
    if entry.yes {
        return None;
    }
    let vars = entry.question.vars();
    if vars.len() > MOST_IN_SCOPE {
        return None;
    }
    lang.scope_of(vars)
}

/// For each scope that a no is about exactly the relations that accept the tuple of such a no.
fn spared(alloc: Global, lang: &Language, answers: &[Entry]) -> Result<Vec<Option<u64>>, Memory>
    requires { All (λ a. IsQuestion lang.now a.question) answers.now }
    ensures { IfOk result (λ list. AreSpared lang.now answers.now list.items) }
{
    let mut list = vec![in alloc; None; lang.scopes() as usize]?;
    for entry in answers {
        if let Some(s) = own_scope(lang, entry) {
            let accepting = unviolated(lang, s, &entry.question);
            let before = list[usize::from(s)].unwrap_or(0);
            list[usize::from(s)] = Some(before | accepting);
        }
    }
    Ok(list)
}

impl Told {
    /// What these answers tell.
    pub(crate) fn of(alloc: Global, lang: &Language, answers: &[Entry]) -> Result<Told, Memory>
        requires { All (λ a. IsQuestion lang.now a.question) answers.now }
        ensures { IfOk result (λ told. IsToldBy lang.now answers.now told) }
    {
        let unstruck = unstruck(alloc, lang, answers)?;
        let spared = spared(alloc, lang, answers)?;
        Ok(Told { unstruck, spared })
    }

    /// Whether a yes violates the candidate.
    pub(crate) fn is_struck(&self, c: Candidate) -> bool
        ensures { (l : Lang) (t : List Answer) → IsToldBy l t self.now → IsCandidate l c →
            result ≡ is_struck l t c }
    {
        !is_unstruck(&self.unstruck, c)
    }

    /// Whether a no is about exactly the candidate's scope.
    pub(crate) fn has_own_no(&self, c: Candidate) -> bool
        ensures { (l : Lang) (t : List Answer) → IsToldBy l t self.now → IsCandidate l c →
            result ≡ has_own_no l t c }
    {
        match self.spared.get(usize::from(c.scope)) {
            Some(Some(_)) => true,
            Some(None) | None => false,
        }
    }

    /// Whether a no about exactly its scope doesn't exclude the candidate.
    pub(crate) fn is_spared(&self, c: Candidate) -> bool
        ensures { (l : Lang) (t : List Answer) → IsToldBy l t self.now → IsCandidate l c →
            result ≡ is_spared l t c }
    {
        match self.spared.get(usize::from(c.scope)) {
            Some(Some(relations)) => c.rel < 64 && (*relations >> c.rel) & 1 == 1,
            Some(None) | None => false,
        }
    }
}
