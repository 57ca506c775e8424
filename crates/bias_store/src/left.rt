//! The relations that are left on each scope.

ghost use Rattle.std.specs.Prelude.{ℕ, ◌≡◌, ◌≢◌, ◌+◌, ◌<◌, ◌≤◌, IfOk, [], length, replicate};
ghost use Rattle.std.specs.Prelude.{slice_index_or, slice_set};
ghost use Rattle.assign.specs.Sets.{ones_of};
ghost use Rattle.bias_store.specs.Left.{IsLeftFrom};

use crate::masks::{first_relations, take_least};
use language::ScopeId;
use rel_table::Bits;
use std::alloc::{AllocError, Global};
use std::marker::Model;

/// For each scope the relations that are left there, as a mask: bit r is one where relation r is
/// left.
#[derive(Drop)]
pub(crate) struct Left {
    /// The masks.
    masks: Vec<u64>,
    /// True at no scope that has relations, so that those that have none are passed over by words.
    bare: Bits,
}

impl Model for Left {
    ghost use Rattle.std.specs.Prelude.{ℕ, List};

    ghost Value = { List ℕ };

    ghost use Rattle.bias_store.specs.InsideLeft.{IsPassing};

    ghost view = { λ a. a.masks.items };

    ghost invariant = { IsPassing };
}

impl Left {
    /// None on so many scopes.
    pub(crate) fn none(alloc: Global, scopes: usize) -> Result<Left, AllocError>
        ensures { IfOk result (λ a. a ≡ replicate scopes 0) }
    {
        let masks = vec![in alloc; 0; scopes]?;
        let bare = Bits::all_false(alloc, scopes)?;
        Ok(Left { masks, bare })
    }

    /// How many scopes there are.
    pub(crate) fn len(&self) -> usize
        ensures { result ≡ length self.now }
    {
        self.masks.len()
    }

    /// The relations on a scope.
    #[inline]
    pub(crate) fn on(&self, s: ScopeId) -> u64
        requires { s < length self.now }
        ensures { result ≡ slice_index_or self.now s 0 }
    {
        self.masks[usize::from(s)]
    }

    /// The masks of all scopes.
    #[inline]
    pub(crate) fn masks(&self) -> &[u64]
        ensures { result.now ≡ self.now }
    {
        &self.masks
    }

    /// Puts these relations in place of those on a scope.
    pub(crate) fn set(&mut self, s: ScopeId, relations: u64)
        requires { s < length self.old }
        ensures { self.new ≡ slice_set self.old s relations }
    {
        let at = usize::from(s);
        if relations == 0 {
            self.bare.mark(at);
        } else if self.bare.get(at) {
            // Scopes get relations where all candidates are kept again, from the first one on. So
            // the first that gets some clears the bits of all that follow, which is one pass over
            // the words in place of a change of each bit.
            self.bare.clear();
        }
        self.masks[at] = relations;
    }

    /// Of so many scopes from one on those that may have relations: bit j is one for the scope j
    /// places further, if that has some. If it has none, the bit is zero where `set` left none
    /// there, and one where there never were any.
    #[inline]
    pub(crate) fn word(&self, from: usize, count: usize) -> u64
        requires some { 1 ≤ count }
        requires few { count ≤ 64 }
        requires within { from + count ≤ length self.now }
        ensures { IsLeftFrom self.now from count result }
    {
        first_relations(count as u8) & !self.bare.row(from, count)
    }

    /// The first scope from one on, and before an end, that has relations; the end where there is
    /// none.
    pub(crate) fn next_some(&self, from: usize, end: usize) -> usize
        requires rising { from ≤ end }
        requires known { end ≤ length self.now }
        ensures from { from ≤ result }
        ensures within { result ≤ end }
        ensures none { (s : ℕ) → from ≤ s → s < result → slice_index_or self.now s 0 ≡ 0 }
        ensures some { result < end → ones_of (slice_index_or self.now result 0) ≢ [] }
    {
        let mut s = from;
        while s < end {
            let count = (end - s).min(64);
            let word = self.word(s, count);
            if word == 0 {
                s += count;
                continue;
            }
            s += usize::from(take_least(word).0);
            if self.masks[s] != 0 {
                return s;
            }
            s += 1;
        }
        end
    }
}
