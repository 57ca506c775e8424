ghost use Rattle.std.specs.Prelude.{◌≡◌, ◌<◌, ◌≤◌, ◌+◌, ◌/◌, ℕ, List, [], length, drop, IfSome};
ghost use Rattle.std.specs.Prelude.{filter, nat_eq, nat_lt};
ghost use Rattle.std.specs.Int.{bit_at};
ghost use Rattle.std.specs.Cmp.{partial_equiv_from_equiv};
ghost use Rattle.std.specs.Cmp.Lexicographic.{pointwise, nat_list_eq_equiv};
ghost use Rattle.assign.specs.Sets.{numbers, has, union, common, minus, with_member, without};
ghost use Rattle.assign.specs.Sets.{is_within, first_half, least_of, IsSet};

use std::marker::Model;

/// A set of variables, each a number below 128: its place in the vocabulary, from 0.
#[derive(Clone, Copy, Debug)]
pub struct VarSet {
    /// Bit v is 1 where v is a member.
    mask: u128,
}

impl Model for VarSet {
    ghost use Rattle.std.specs.Prelude.{ℕ, List, ◌<◌, ◌^◌};
    ghost use Rattle.std.proofs.Common.{ap};
    ghost use Rattle.assign.specs.Sets.{members_of, mask_of};
    ghost use Rattle.assign.specs.SetLemmas.{mask_of-members_of};

    ghost Value = { List ℕ };

    ghost view = { λ s. members_of s.mask };

    ghost invariant = { λ s. s.mask < 2 ^ 128 };

    ghost inverse = { λ xs. record { mask = mask_of xs } };

    ghost inverse_ok = { λ a h. ap (λ m. record { mask = m }) (mask_of-members_of a.mask h) };
}

impl VarSet {
    /// The set without members.
    pub fn empty() -> VarSet
        ensures { result ≡ [] }
    {
        VarSet { mask: 0 }
    }

    /// The variables below n.
    pub fn all(n: u8) -> VarSet
        requires { n ≤ 128 }
        ensures { result ≡ numbers n }
    {
        VarSet {
            mask: if n == 128 {
                u128::MAX
            } else {
                (1u128 << n) - 1
            },
        }
    }

    /// Whether v is a member.
    pub fn has(self, v: u8) -> bool
        requires { v < 128 }
        ensures { result ≡ has self v }
    {
        (self.mask >> v) & 1 == 1
    }

    /// The members, and v.
    pub fn with(self, v: u8) -> VarSet
        requires { v < 128 }
        ensures { result ≡ with_member self v }
    {
        VarSet {
            mask: self.mask | (1u128 << v),
        }
    }

    /// The members other than v.
    pub fn without(self, v: u8) -> VarSet
        requires { v < 128 }
        ensures { result ≡ without self v }
    {
        VarSet {
            mask: self.mask & !(1u128 << v),
        }
    }

    /// The members of one or both.
    pub fn union(self, other: VarSet) -> VarSet
        ensures { result ≡ union self other }
    {
        VarSet {
            mask: self.mask | other.mask,
        }
    }

    /// The members of both.
    pub fn common(self, other: VarSet) -> VarSet
        ensures { result ≡ common self other }
    {
        VarSet {
            mask: self.mask & other.mask,
        }
    }

    /// The members that the other set lacks.
    pub fn minus(self, other: VarSet) -> VarSet
        ensures { result ≡ minus self other }
    {
        VarSet {
            mask: self.mask & !other.mask,
        }
    }

    /// Whether each member is one of the other set.
    pub fn within(self, other: VarSet) -> bool
        ensures { result ≡ is_within self other }
    {
        self.mask & !other.mask == 0
    }

    /// How many members there are. As each set of this kind, the list of them rises.
    pub fn len(self) -> u8
        ensures count { result ≡ length self }
        ensures few { length self ≤ 128 }
        ensures set { IsSet self }
    {
        self.mask.count_ones() as u8
    }

    /// The least member. Only the empty set has none.
    pub fn least(self) -> Option<u8>
        ensures least { result ≡ least_of self }
        ensures within { IfSome result (λ v. v < 128) }
    {
        if self.mask == 0 {
            None
        } else {
            Some(self.mask.trailing_zeros() as u8)
        }
    }

    /// Takes the least member out of the set, and gives it.
    pub fn pop_first(&mut self) -> Option<u8>
        ensures first { result ≡ least_of self.old }
        ensures within { IfSome result (λ v. v < 128) }
        ensures rest { self.new ≡ drop 1 self.old }
    {
        if self.mask == 0 {
            return None;
        }
        let first = self.mask.trailing_zeros() as u8;
        self.mask &= self.mask - 1;
        Some(first)
    }

    /// The members from v on as bits: bit j is 1 where v + j is a member, for each j below 64.
    #[inline]
    pub fn word_from(self, v: u8) -> u64
        requires { v < 128 }
        ensures { (j : ℕ) → j < 64 → nat_eq (bit_at result j) 1 ≡ has self (v + j) }
    {
        ((self.mask >> v) & u128::from(u64::MAX)) as u64
    }

    /// The least half of the members, rounded up: the least ceil(len / 2) of them.
    ///
    /// A bisection for the place below which so many members stand: at most 8 counts, also for 128
    /// members.
    pub fn first_half(self) -> VarSet
        ensures { result ≡ first_half self }
    {
        let half = self.len().div_ceil(2);
        let mut low = 0;
        let mut high = 128;
        while low < high {
            let middle = (low + high) / 2;
            if self.below(middle).len() < half {
                low = middle + 1;
            } else {
                high = middle;
            }
        }
        self.below(low)
    }

    /// The members below a place.
    fn below(self, place: u8) -> VarSet
        requires { place ≤ 128 }
        ensures { result ≡ filter (λ v. nat_lt v place) self }
    {
        VarSet {
            mask: self.mask & VarSet::all(place).mask,
        }
    }
}

impl PartialEq for VarSet {
    ghost eq = { pointwise nat_eq };

    ghost laws = { partial_equiv_from_equiv nat_list_eq_equiv };

    fn eq(&self, other: &VarSet) -> bool {
        self.mask == other.mask
    }
}

impl Eq for VarSet {
    ghost laws = { nat_list_eq_equiv };
}
