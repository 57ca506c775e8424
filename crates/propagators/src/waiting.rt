//! Variables whose conditions are still to be looked at.

ghost use Rattle.std.specs.Prelude.{◌≡◌, ◌<◌, ◌≤◌, ℕ, [], true, not, IfSome, None, length};
ghost use Rattle.assign.specs.Sets.{has, union, with_member, without, IsSet};
ghost use Rattle.propagators.specs.Families.{is_not_empty};

use crate::values::{add_value, either, greatest_value, has_value, is_empty, least_value, others};
use assign::VarSet;
use std::marker::Model;

/// A set of variables, each a number below 128, in two words: a test reads one of them, and the
/// greatest member is found at once.
#[derive(Clone, Copy)]
pub(crate) struct Waiting {
    /// The variables below 64: bit v is 1 where v is a member.
    low: u64,
    /// The others: bit v is 1 where v + 64 is a member.
    high: u64,
}

impl Model for Waiting {
    ghost use Rattle.std.specs.Prelude.{ℕ, List};

    ghost Value = { List ℕ };

    ghost use Rattle.propagators.specs.InsideWaiting.{seen, AreWords, words_in_two, words_again};

    ghost view = { seen };

    ghost invariant = { AreWords };

    ghost inverse = { words_in_two };

    ghost inverse_ok = { words_again };
}

impl Waiting {
    /// The set without members.
    #[inline]
    pub(crate) fn empty() -> Waiting
        ensures { result ≡ [] }
    {
        Waiting { low: 0, high: 0 }
    }

    /// The members of a set.
    pub(crate) fn of(set: VarSet) -> Waiting
        ensures { result ≡ set }
    {
        let mut found = Waiting::empty();
        let mut rest = set;
        // for its clauses alone: the members rise
        let _many = rest.len();
        while let Some(v) = rest.pop_first() {
            found = found.with(v);
        }
        found
    }

    /// Whether v is a member.
    #[inline]
    pub(crate) fn has(self, v: u8) -> bool
        requires { v < 128 }
        ensures { result ≡ has self v }
    {
        if v < 64 {
            has_value(self.low, v)
        } else {
            has_value(self.high, v - 64)
        }
    }

    /// The members, and v.
    #[inline]
    pub(crate) fn with(self, v: u8) -> Waiting
        requires { v < 128 }
        ensures { result ≡ with_member self v }
    {
        if v < 64 {
            Waiting {
                low: add_value(self.low, v),
                high: self.high,
            }
        } else {
            Waiting {
                low: self.low,
                high: add_value(self.high, v - 64),
            }
        }
    }

    /// The members other than v.
    #[inline]
    pub(crate) fn without(self, v: u8) -> Waiting
        requires { v < 128 }
        ensures { result ≡ without self v }
    {
        if v < 64 {
            Waiting {
                low: others(self.low, v),
                high: self.high,
            }
        } else {
            Waiting {
                low: self.low,
                high: others(self.high, v - 64),
            }
        }
    }

    /// The members of one or both.
    #[inline]
    pub(crate) fn union(self, other: Waiting) -> Waiting
        ensures { result ≡ union self other }
    {
        Waiting {
            low: either(self.low, other.low),
            high: either(self.high, other.high),
        }
    }

    /// Whether there is no member.
    #[inline]
    pub(crate) fn is_empty(self) -> bool
        ensures { result ≡ not (is_not_empty self) }
    {
        is_empty(either(self.low, self.high))
    }

    /// The least member. Only the empty set has none.
    #[inline]
    pub(crate) fn least(self) -> Option<u8>
        ensures there { IfSome result (λ v. has self v ≡ true) }
        ensures least { IfSome result (λ v. (u : ℕ) → has self u ≡ true → v ≤ u) }
        ensures none { result ≡ None → self ≡ [] }
        ensures within { IfSome result (λ v. v < 128) }
        ensures set { IsSet self }
    {
        if self.low != 0 {
            return Some(least_value(self.low));
        }
        if self.high != 0 {
            return Some(64 + least_value(self.high));
        }
        None
    }

    /// The greatest member. Only the empty set has none.
    #[inline]
    pub(crate) fn greatest(self) -> Option<u8>
        ensures there { IfSome result (λ v. has self v ≡ true) }
        ensures greatest { IfSome result (λ v. (u : ℕ) → has self u ≡ true → u ≤ v) }
        ensures none { result ≡ None → self ≡ [] }
        ensures within { IfSome result (λ v. v < 128) }
        ensures set { IsSet self }
    {
        if self.high != 0 {
            return Some(64 + greatest_value(self.high));
        }
        if self.low != 0 {
            return Some(greatest_value(self.low));
        }
        None
    }
}
