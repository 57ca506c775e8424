//! The kept candidates.

ghost use Rattle.std.specs.Prelude.{ℕ, ◌≡◌, ◌+◌, ◌<◌, ◌≤◌, ◌↔◌, ◌==◌, ◌≢◌, IsTrue, true, List, []};
ghost use Rattle.std.specs.Prelude.{IfOk, Contains, length, take, filter, not};
ghost use Rattle.std.specs.List.{list_any};
ghost use Rattle.language.specs.Language.{Language, candidates, violates, IsQuestion};
ghost use Rattle.assign.specs.Sets.{is_within, ones_of};
ghost use Rattle.bias_store.specs.Accepting.{accepting_on, places_on};
ghost use Rattle.bias_store.specs.KeptSet.{kept_relations, is_struck_within, CoversOnly, IsMadeFor};

use crate::left::Left;
use crate::masks::{first_relations, has_relation, relation_count};
use crate::tables::{Tables, violated_on};
use assign::{Partial, VarSet};
use language::{Candidate, Language, Memory, ScopeId};
use std::alloc::Global;
use std::marker::Model;

/// The candidates that no answer has struck, on the scopes that were not dropped.
#[derive(Drop)]
pub struct Kept {
    /// For each scope its kept relations.
    relations: Left,
    /// How many candidates are kept.
    count: u32,
    /// Which relations accept which tuples.
    tables: Tables,
}

impl Model for Kept {
    ghost use Rattle.bias_store.specs.KeptSet.{KeptSet};

    ghost Value = { KeptSet };

    ghost use Rattle.bias_store.specs.Inside.{seen, CountsCandidates};

    ghost view = { seen };

    ghost invariant = { CountsCandidates };
}

impl Kept {
    /// All candidates of the language: 16 bytes and a bit for each scope, and for each number of
    /// variables that a scope has whose variables have all values 8 bytes for each tuple, at most
    /// 512 KB.
    /// Scopes of two variables share such a table where their relations have the same tables, also
    /// with ranges, and have 17 at most. `Memory` where there is none for them.
    pub fn of(alloc: Global, lang: &Language) -> Result<Kept, Memory>
        ensures all { IfOk result (λ k. k.members ≡ candidates lang.now) }
        ensures made { IfOk result (λ k. IsMadeFor lang.now k) }
    {
        let Ok(relations) = Left::none(alloc, lang.scopes() as usize) else {
            return Err(Memory);
        };
        let mut kept = Kept {
            relations,
            count: 0,
            tables: Tables::of(alloc, lang)?,
        };
        kept.reset(lang);
        Ok(kept)
    }

    /// How many candidates are kept.
    pub fn len(&self) -> u32
        ensures { result ≡ length self.now.members }
    {
        self.count
    }

    /// Whether the candidate is kept. A scope or a relation that the language lacks has no kept
    /// candidate.
    pub fn is_kept(&self, c: Candidate) -> bool
        ensures { IsTrue result ↔ Contains self.now.members c }
    {
        usize::from(c.scope) < self.relations.len()
            && has_relation(self.relations.on(c.scope), c.rel)
    }

    /// The kept relations on a scope: bit r is one where relation r is kept, in the language's
    /// order of relations.
    #[inline]
    pub fn on_scope(&self, s: ScopeId) -> u64
        requires { s < self.now.scopes }
        ensures { ones_of result ≡ kept_relations self.now.members s }
    {
        self.relations.on(s)
    }

    /// The first scope from one on, and before an end, on which a relation is kept; the end where
    /// there is none.
    pub fn first_kept(&self, from: u32, end: u32) -> u32
        requires rising { from ≤ end }
        requires known { end ≤ self.now.scopes }
        ensures from { from ≤ result }
        ensures within { result ≤ end }
        ensures none { (s : ℕ) → from ≤ s → s < result → kept_relations self.now.members s ≡ [] }
        ensures some { result < end → kept_relations self.now.members result ≢ [] }
    {
        self.relations.next_some(from as usize, end as usize) as u32
    }

    /// The relations on a scope that accept the tuple at a place, kept or not: bit r is one exactly
    /// where relation r does.
    pub fn accepting(&self, lang: &Language, s: ScopeId, place: u32) -> u64
        requires made { IsMadeFor lang.now self.now }
        requires scope { s < length lang.now.scopes }
        requires place { place < places_on lang.now s }
        ensures { ones_of result ≡ accepting_on lang.now s place }
    {
        self.tables.accepting(lang, s, place)
    }

    /// Whether the question violates a kept candidate. Scopes are looked at in their order, up to
    /// the first such one.
    pub fn strikes_any(&self, lang: &Language, q: &Partial) -> bool
        requires made { IsMadeFor lang.now self.now }
        requires question { IsQuestion lang.now q.now }
        ensures { result ≡ list_any (λ c. violates lang.now c q.now) self.now.members }
    {
        let found = self
            .tables
            .next_violated(lang, q, q.vars(), &self.relations, 0);
        found.is_some()
    }

    /// Lists the variables of the scopes with a kept candidate that the question violates, in the
    /// order of scopes, as far as there is room. Says how many sets these are, and whether they are
    /// all.
    pub fn list_struck(&self, lang: &Language, q: &Partial, sets: &mut [VarSet]) -> (usize, bool)
        requires made { IsMadeFor lang.now self.now }
        requires question { IsQuestion lang.now q.now }
        ensures room { result.0 ≤ length sets.new }
        ensures some { (w : List ℕ) → list_any (λ set. is_within set w) (take result.0 sets.new)
            ≡ true → is_struck_within lang.now self.now.members q.now w ≡ true }
        ensures all { result.1 ≡ true → (w : List ℕ) → is_struck_within lang.now self.now.members
            q.now w ≡ true → list_any (λ set. is_within set w) (take result.0 sets.new) ≡ true }
    {
        self.tables.list_violated(lang, q, &self.relations, sets)
    }

    /// Takes out the candidates that the question violates, and answers how many they were.
    pub fn strike(&mut self, lang: &Language, q: &Partial) -> u32
        requires made { IsMadeFor lang.now self.old }
        requires question { IsQuestion lang.now q.now }
        ensures kept { self.new.members
            ≡ filter (λ c. not (violates lang.now c q.now)) self.old.members }
        ensures count { result + length self.new.members ≡ length self.old.members }
        ensures made { IsMadeFor lang.now self.new }
    {
        let count_before = self.count;
        let shown = q.vars();
        let mut from = 0;
        while let Some(found) = self
            .tables
            .next_violated(lang, q, shown, &self.relations, from)
        {
            let others = self.relations.on(found.scope) & !found.relations;
            self.relations.set(found.scope, others);
            self.count -= relation_count(found.relations);
            from = found.scope + 1;
        }
        count_before - self.count
    }

    /// The same for a question that gives values to all variables of no other scope than this one,
    /// which alone is looked at.
    pub fn strike_on(&mut self, lang: &Language, s: ScopeId, q: &Partial)
        requires made { IsMadeFor lang.now self.old }
        requires scope { s < length lang.now.scopes }
        requires question { IsQuestion lang.now q.now }
        requires alone { CoversOnly lang.now s q.now }
        ensures kept { self.new.members
            ≡ filter (λ c. not (violates lang.now c q.now)) self.old.members }
        ensures made { IsMadeFor lang.now self.new }
    {
        let relations = self.relations.on(s);
        let struck = violated_on(&self.tables, lang, s, q, relations);
        self.relations.set(s, relations & !struck);
        self.count -= relation_count(struck);
    }

    /// Takes out the candidates on a scope, as when something is learned there.
    pub fn drop_scope(&mut self, s: ScopeId)
        requires { s < self.old.scopes }
        ensures kept { self.new.members ≡ filter (λ c. not (s == c.scope)) self.old.members }
        ensures scopes { self.new.scopes ≡ self.old.scopes }
        ensures made { (l : Language) → IsMadeFor l self.old → IsMadeFor l self.new }
    {
        let dropped = self.relations.on(s);
        self.relations.set(s, 0);
        self.count -= relation_count(dropped);
    }

    /// Keeps all candidates of the language again, as when answers were taken back.
    pub fn reset(&mut self, lang: &Language)
        requires { IsMadeFor lang.now self.old }
        ensures all { self.new.members ≡ candidates lang.now }
        ensures made { IsMadeFor lang.now self.new }
    {
        self.count = 0;
        for s in 0..lang.scopes() as ScopeId {
            let count = lang.relations_on(s);
            self.relations.set(s, first_relations(count));
            self.count += u32::from(count);
        }
    }
}

fn is_shared<T: Send + Sync>(_: &T) {}

/// A `Kept` may go to another thread, and several may read it.
fn may_be_shared(kept: &Kept) {
    is_shared(kept);
}
