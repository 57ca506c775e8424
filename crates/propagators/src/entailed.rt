//! Conditions that needn't be looked at again.

ghost use Rattle.std.specs.Prelude.{◌≡◌, ◌<◌, ◌⊎◌, ℕ, List, [], true, All, length, slice_index_or};
ghost use Rattle.propagators.specs.Families.{Family, Arc};
ghost use Rattle.propagators.specs.declared.plan.Plan.{Plan};
ghost use Rattle.propagators.specs.Entailed.{is_noted_in, is_among_struck, AreEntailed, HasOne};
ghost use Rattle.propagators.specs.Entailed.{IsAlmostFixed};

use crate::domains::Domains;
use crate::values::add_value;

/// How many words a set of entailed conditions has.
const WORDS: usize = 16;

/// Conditions of a plan that are known to be entailed: they stay consistent whatever values the
/// variables lose, as long as each keeps one. It has room for the first 1,024 conditions. The
/// others are never among them.
#[derive(Clone, Copy)]
pub struct Entailed {
    /// Condition i is bit i % 64 of word i / 64.
    pub(crate) words: [u64; WORDS],
    /// The variables whose one value is taken away from those that have to differ from them:
    /// variable v is bit v % 64 of word v / 64.
    pub(crate) struck: [u64; 2],
}

/// Whether each variable of a scope has one value alone.
fn are_fixed(doms: &Domains, scope: &[u8]) -> bool
    requires { All (λ v. v < length doms.now) scope.now }
    ensures { result ≡ true → (j : ℕ) → j < length scope.now →
        HasOne (slice_index_or doms.now (slice_index_or scope.now j 0) []) }
{
    for j in 0..scope.len() {
        let Some(_x) = doms.only(scope[j]) else {
            return false;
        };
    }
    true
}

/// Whether each variable of a scope, but one at most, has one value alone.
fn is_almost_fixed(doms: &Domains, scope: &[u8]) -> bool
    requires known { All (λ v. v < length doms.now) scope.now }
    requires some { 0 < length scope.now }
    ensures { result ≡ true → IsAlmostFixed doms.now scope.now }
{
    for j in 0..scope.len() {
        let Some(_x) = doms.only(scope[j]) else {
            return are_fixed(doms, &scope[j + 1..]);
        };
    }
    true
}

impl Entailed {
    /// No condition.
    pub fn none() -> Entailed
        ensures { (arcs : List Arc) (p : Plan) (f : Family) → AreEntailed arcs p result f }
    {
        Entailed {
            words: [0; WORDS],
            struck: [0; 2],
        }
    }

    /// Becomes the same as another one.
    #[inline]
    pub fn take(&mut self, other: &Entailed)
        ensures { self.new ≡ other.now }
    {
        self.words.copy_from_slice(&other.words);
        self.struck.copy_from_slice(&other.struck);
    }

    /// Which of the 64 conditions from 64 w on are among them.
    #[inline]
    pub(crate) fn word(&self, w: usize) -> u64
        ensures { result ≡ slice_index_or self.now.words w 0 }
    {
        if w < WORDS { self.words[w] } else { 0 }
    }

    /// Which of the 64 variables from 64 h on are struck.
    #[inline]
    pub(crate) fn struck(&self, h: usize) -> u64
        requires { h < 2 }
        ensures { result ≡ slice_index_or self.now.struck h 0 }
    {
        self.struck[h]
    }

    /// Takes in a variable that is struck.
    #[inline]
    pub(crate) fn strike(&mut self, v: u8)
        requires { v < 128 }
        ensures noted { (k : ℕ) → is_noted_in self.new k ≡ is_noted_in self.old k }
        ensures struck { (u : ℕ) → is_among_struck self.new u ≡ true →
            (is_among_struck self.old u ≡ true) ⊎ (u ≡ v) }
    {
        let h = usize::from(v / 64);
        self.struck[h] = add_value(self.struck[h], v % 64);
    }

    /// Takes in a condition, where there is room for it.
    #[inline]
    pub(crate) fn add(&mut self, i: usize)
        ensures noted { (k : ℕ) → is_noted_in self.new k ≡ true →
            (is_noted_in self.old k ≡ true) ⊎ (k ≡ i) }
        ensures struck { self.new.struck ≡ self.old.struck }
    {
        let w = i / 64;
        if w < WORDS {
            self.words[w] = add_value(self.words[w], (i % 64) as u8);
        }
    }

    /// Takes in a condition on a scope, where at most one variable of the scope has more than one
    /// value.
    pub(crate) fn add_fixed(&mut self, i: usize, doms: &Domains, scope: &[u8])
        requires known { All (λ v. v < length doms.now) scope.now }
        requires some { 0 < length scope.now }
        ensures noted { (k : ℕ) → is_noted_in self.new k ≡ true →
            (is_noted_in self.old k ≡ true) ⊎ ((k ≡ i) × IsAlmostFixed doms.now scope.now) }
        ensures struck { self.new.struck ≡ self.old.struck }
    {
        if is_almost_fixed(doms, scope) {
            self.add(i);
        }
    }
}
