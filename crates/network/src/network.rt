ghost use Rattle.std.specs.Prelude.{◌≡◌, ◌++◌, ◌∷◌, [], ◌<◌, ◌≤◌, IfOk, Some, false, length};
ghost use Rattle.std.specs.Prelude.{slice_get};
ghost use Rattle.language.specs.Language.{accepts, IsQuestion};
ghost use Rattle.language.specs.Answers.{has_scope, IsNetwork};

use assign::Partial;
use language::{Candidate, Language, Memory};
use std::alloc::Global;
use std::marker::Model;

/// The learned candidates, at most one on a scope.
#[derive(Drop)]
pub struct Network {
    /// How many scopes there are, and so for how many candidates there is room.
    scopes: u32,
    /// In learning order.
    list: Vec<Candidate>,
}

impl Model for Network {
    ghost use Rattle.network.specs.Learned.{Learned};

    ghost Value = { Learned };

    ghost use Rattle.network.specs.Inside.{seen, FitsScopes};

    ghost view = { seen };

    ghost invariant = { FitsScopes };
}

impl Network {
    /// Nothing learned yet, with room for one candidate on each scope. `Memory` where there is none
    /// for that.
    pub fn new(alloc: Global, lang: &Language) -> Result<Network, Memory>
        ensures empty { IfOk result (λ net. net.list ≡ []) }
        ensures scopes { IfOk result (λ net. net.scopes ≡ length lang.now.scopes) }
    {
        let scopes = lang.scopes();
        let list = Vec::with_capacity(alloc, scopes as usize)?;
        Ok(Network { scopes, list })
    }

    /// Puts a candidate at the end. The room is there: on each scope at most one is learned.
    pub fn learn(&mut self, c: Candidate)
        requires fresh { has_scope self.old.list c.scope ≡ false }
        requires known { c.scope < self.old.scopes }
        ensures list { self.new.list ≡ self.old.list ++ c ∷ [] }
        ensures scopes { self.new.scopes ≡ self.old.scopes }
    {
        self.list.push(c).unwrap();
    }

    /// Forgets all, and keeps the room.
    pub fn clear(&mut self)
        ensures list { self.new.list ≡ [] }
        ensures scopes { self.new.scopes ≡ self.old.scopes }
    {
        self.list.clear();
    }

    /// How many candidates are learned.
    pub fn len(&self) -> u32
        ensures is { result ≡ length self.now.list }
        ensures few { result ≤ self.now.scopes }
    {
        self.list.len() as u32
    }

    /// Candidate i in learning order, from 0.
    pub fn item(&self, i: u32) -> Candidate
        requires { i < length self.now.list }
        ensures { slice_get self.now.list i ≡ Some result }
    {
        self.list[i as usize]
    }

    /// The learned candidates, in learning order.
    pub fn list(&self) -> &[Candidate]
        ensures { result.now ≡ self.now.list }
    {
        &self.list
    }

    /// Whether a question violates none of them: the answer of a user whose network this is. A
    /// candidate with a variable that the question leaves open isn't violated.
    pub fn accepts(&self, lang: &Language, q: &Partial) -> bool
        requires network { IsNetwork lang.now self.now.list }
        requires question { IsQuestion lang.now q.now }
        ensures { result ≡ accepts lang.now self.now.list q.now }
    {
        for c in &self.list {
            if lang.candidate_violated(*c, q) {
                return false;
            }
        }
        true
    }
}

fn is_shared<T: Send + Sync>(_: &T) {}

/// A `Network` may go to another thread, and several may read it.
fn may_be_shared(net: &Network) {
    is_shared(net);
}
