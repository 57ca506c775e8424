ghost use Rattle.std.specs.Prelude.{◌≡◌, ◌<◌, ◌≤◌, ◌==◌, ◌&&◌, ℕ, [], true, false, not, nat_lt};
ghost use Rattle.std.specs.Prelude.{length, map, take, slice_index_or, slice_set, All, IfSome};
ghost use Rattle.std.specs.Prelude.{None};
ghost use Rattle.std.specs.List.{filter, list_all, list_any};
ghost use Rattle.std.specs.Int.{bit_at};
ghost use Rattle.assign.specs.Sets.{numbers, has, IsSet, ones_of};
ghost use Rattle.language.specs.Language.{Language, variable_count, values_of};
ghost use Rattle.propagators.specs.Families.{is_not_empty, is_wanted, sets_on, family_size};
ghost use Rattle.propagators.specs.Supports.{IsFamilyOf};
ghost use Rattle.propagators.specs.Loose.{HasTwo, HasMore};
ghost use Rattle.propagators.specs.Pairs.{IsOnly};

use crate::values::{
    are_more, has_value, least_from, least_value, only_member, only_value, others, passing,
    values_between,
};
use language::Language;
use std::marker::Model;

/// For each variable of a language a set of values.
#[derive(Clone, Copy)]
pub struct Domains {
    /// For each variable the mask of its values, and then 0.
    sets: [u64; 128],
    /// How many variables there are.
    size: u8,
}

impl Model for Domains {
    ghost use Rattle.propagators.specs.Families.{Family};

    ghost Value = { Family };

    ghost use Rattle.propagators.specs.InsideDomains.{seen, AreMasks, masks_of, masks_of-seen};

    ghost view = { seen };

    ghost invariant = { AreMasks };

    ghost inverse = { masks_of };

    ghost inverse_ok = { masks_of-seen };
}

/// Whether one of these masks is 0.
fn some_is_zero(masks: &[u64]) -> bool
    ensures { result ≡ list_any (λ mask. mask == 0) masks.now }
{
    masks.iter().any(|mask| *mask == 0)
}

impl Domains {
    /// For each variable the values of its range.
    pub fn full(lang: &Language) -> Domains
        ensures is { result ≡ map (values_of lang.now) (numbers (variable_count lang.now)) }
        ensures family { IsFamilyOf lang.now result }
    {
        let n = lang.n();
        let mut sets = [0; 128];
        for v in 0..n {
            let (first, last) = lang.range(v);
            sets[v as usize] = values_between(first, last);
        }
        Domains { sets, size: n }
    }

    /// Becomes the same as another one. Where both have as many variables, only the sets of these
    /// are written.
    pub fn take(&mut self, other: &Domains)
        ensures { self.new ≡ other.now }
    {
        if self.size != other.size {
            *self = *other;
            return;
        }
        let n = self.size as usize;
        self.sets[..n].copy_from_slice(&other.sets[..n]);
    }

    /// Takes all other values out of the variable's set, and leaves the other sets.
    pub fn fix(&mut self, v: u8, value: u8)
        requires known { v < length self.old }
        requires small { value < 64 }
        ensures is { self.new
            ≡ slice_set self.old v (filter (λ x. value == x) (slice_index_or self.old v [])) }
        ensures family { (l : Language) → IsFamilyOf l self.old → IsFamilyOf l self.new }
    {
        self.sets[v as usize] = only_value(self.sets[v as usize], value);
    }

    /// Whether the value is in the variable's set.
    pub fn has(&self, v: u8, value: u8) -> bool
        requires { v < length self.now }
        ensures { result ≡ has (slice_index_or self.now v []) value }
    {
        has_value(self.sets[v as usize], value)
    }

    /// The variable's least value from x on, where there is one.
    #[inline]
    pub fn least_from(&self, v: u8, x: u8) -> Option<u8>
        requires { v < length self.now }
        ensures from { IfSome result (λ y. x ≤ y) }
        ensures there { IfSome result (λ y. has (slice_index_or self.now v []) y ≡ true) }
        ensures least { IfSome result (λ y. (z : ℕ) → x ≤ z → z < y →
            has (slice_index_or self.now v []) z ≡ false) }
        ensures none { result ≡ None → (z : ℕ) → x ≤ z →
            has (slice_index_or self.now v []) z ≡ false }
    {
        least_from(self.sets[v as usize], x)
    }

    /// The mask of the variable's values.
    #[inline]
    pub(crate) fn values(&self, v: u8) -> u64
        requires { v < length self.now }
        ensures { ones_of result ≡ slice_index_or self.now v [] }
    {
        self.sets[v as usize]
    }

    /// Whether some set is empty.
    pub(crate) fn has_empty(&self) -> bool
        ensures { result ≡ not (list_all is_not_empty self.now) }
    {
        some_is_zero(&self.sets[..self.size as usize])
    }

    /// The variable's value, where it has one alone.
    #[inline]
    pub fn only(&self, v: u8) -> Option<u8>
        requires { v < length self.now }
        ensures only { IfSome result (λ x. IsOnly (slice_index_or self.now v []) x) }
        ensures two { result ≡ None → is_not_empty (slice_index_or self.now v []) ≡ true →
            HasTwo (slice_index_or self.now v []) }
    {
        only_member(self.sets[v as usize])
    }

    /// Whether the variable has more than so many values.
    #[inline]
    pub(crate) fn has_more(&self, v: u8, most: u8) -> bool
        requires { v < length self.now }
        ensures is { result ≡ nat_lt most (length (slice_index_or self.now v [])) }
        ensures more { result ≡ true → HasMore most (slice_index_or self.now v []) }
    {
        are_more(self.sets[v as usize], most)
    }

    /// Those of the variable's values that pass: whose bit in the row is 1, or is 0 where the row
    /// isn't to hold.
    #[inline]
    pub(crate) fn passing(&self, v: u8, row: u64, holding: bool) -> u64
        requires { v < length self.now }
        ensures { (x : ℕ) → has (ones_of result) x
            ≡ (has (slice_index_or self.now v []) x && is_wanted holding (bit_at row x == 1)) }
    {
        passing(self.sets[v as usize], row, holding)
    }

    /// The variable's values other than x.
    #[inline]
    pub(crate) fn others(&self, v: u8, x: u8) -> u64
        requires known { v < length self.now }
        requires small { x < 64 }
        ensures { (y : ℕ) →
            has (ones_of result) y ≡ (has (slice_index_or self.now v []) y && not (x == y)) }
    {
        others(self.sets[v as usize], x)
    }

    /// The sets of a scope's variables.
    pub(crate) fn on(&self, scope: &[u8]) -> [u64; 4]
        requires short { length scope.now ≤ 4 }
        requires known { All (λ v. v < length self.now) scope.now }
        ensures { take (length scope.now) (map ones_of result) ≡ sets_on self.now scope.now }
    {
        let mut sets = [0; 4];
        for j in 0..scope.len() {
            sets[j] = self.sets[scope[j] as usize];
        }
        sets
    }

    /// Leaves the variable these of its values, and says whether it had others.
    pub(crate) fn cut(&mut self, v: u8, values: u64) -> bool
        requires known { v < length self.old }
        requires within { (x : ℕ) → has (ones_of values) x ≡ true →
            has (slice_index_or self.old v []) x ≡ true }
        ensures is { self.new ≡ slice_set self.old v (ones_of values) }
        ensures same { result ≡ false → self.new ≡ self.old }
        ensures less { result ≡ true → family_size self.new < family_size self.old }
    {
        let had = self.sets[v as usize];
        self.sets[v as usize] = values;
        had != values
    }
}
