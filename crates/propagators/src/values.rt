//! Sets of values, each a mask of 64 bits.

ghost use Rattle.std.specs.Prelude.{◌≡◌, ◌≢◌, ◌<◌, ◌≤◌, ◌==◌, ℕ, true, false, not, nat_le, nat_lt};
ghost use Rattle.std.specs.Prelude.{◌&&◌, ◌||◌, IfSome, None, length};
ghost use Rattle.std.specs.List.{filter};
ghost use Rattle.assign.specs.Sets.{numbers, has, ones_of};
ghost use Rattle.std.specs.Int.{bit_at};
ghost use Rattle.propagators.specs.Families.{is_not_empty, is_wanted};
ghost use Rattle.propagators.specs.Loose.{HasTwo};
ghost use Rattle.propagators.specs.Pairs.{IsOnly};

/// The first d values.
pub(crate) fn first_values(d: u8) -> u64
    requires { d ≤ 64 }
    ensures { ones_of result ≡ numbers d }
{
    if d == 64 { u64::MAX } else { (1 << d) - 1 }
}

/// The values from the first to the last.
pub(crate) fn values_between(first: u8, last: u8) -> u64
    requires some { first ≤ last }
    requires known { last < 64 }
    ensures { (x : ℕ) → has (ones_of result) x ≡ (nat_le first x && nat_le x last) }
{
    first_values(last + 1) & !first_values(first)
}

/// Whether x is a member.
#[inline]
pub(crate) fn has_value(values: u64, x: u8) -> bool
    ensures { result ≡ has (ones_of values) x }
{
    x < 64 && (values >> x) & 1 == 1
}

/// The least member.
#[inline]
pub(crate) fn least_value(values: u64) -> u8
    requires { values ≢ 0 }
    ensures there { has (ones_of values) result ≡ true }
    ensures least { (x : ℕ) → has (ones_of values) x ≡ true → result ≤ x }
    ensures low { result < 64 }
{
    values.trailing_zeros() as u8
}

/// The least member from x on, where there is one.
#[inline]
pub(crate) fn least_from(values: u64, x: u8) -> Option<u8>
    ensures from { IfSome result (λ y. x ≤ y) }
    ensures there { IfSome result (λ y. has (ones_of values) y ≡ true) }
    ensures least { IfSome result (λ y. (z : ℕ) → x ≤ z → z < y → has (ones_of values) z ≡ false) }
    ensures none { result ≡ None → (z : ℕ) → x ≤ z → has (ones_of values) z ≡ false }
{
    if x >= 64 {
        return None;
    }
    let rest = passing(values, values_between(x, 63), true);
    if rest == 0 {
        None
    } else {
        Some(least_value(rest))
    }
}

/// The greatest member.
#[inline]
pub(crate) fn greatest_value(values: u64) -> u8
    requires { values ≢ 0 }
    ensures there { has (ones_of values) result ≡ true }
    ensures greatest { (x : ℕ) → has (ones_of values) x ≡ true → x ≤ result }
    ensures low { result < 64 }
{
    63 - values.leading_zeros() as u8
}

/// The members other than x.
#[inline]
pub(crate) fn without_value(values: u64, x: u8) -> u64
    requires low { x < 64 }
    requires there { has (ones_of values) x ≡ true }
    ensures has { (y : ℕ) → has (ones_of result) y ≡ (has (ones_of values) y && not (x == y)) }
    ensures less { result < values }
{
    values & !(1 << x)
}

/// The members other than x, which needn't be one.
#[inline]
pub(crate) fn others(values: u64, x: u8) -> u64
    requires { x < 64 }
    ensures { (y : ℕ) → has (ones_of result) y ≡ (has (ones_of values) y && not (x == y)) }
{
    values & !(1 << x)
}

/// No member but x.
#[inline]
pub(crate) fn only_value(values: u64, x: u8) -> u64
    requires { x < 64 }
    ensures { ones_of result ≡ filter (λ y. x == y) (ones_of values) }
{
    values & (1 << x)
}

/// The members, and x where the others have a member.
#[inline]
pub(crate) fn with_value(values: u64, x: u8, others: u64) -> u64
    requires { x < 64 }
    ensures { (y : ℕ) → has (ones_of result) y
        ≡ (has (ones_of values) y || (is_not_empty (ones_of others) && (x == y))) }
{
    if others == 0 {
        values
    } else {
        values | (1 << x)
    }
}

/// The members of one or both.
#[inline]
pub(crate) fn either(a: u64, b: u64) -> u64
    ensures { (y : ℕ) → has (ones_of result) y ≡ (has (ones_of a) y || has (ones_of b) y) }
{
    a | b
}

/// The members that pass a test, whose truth values are the bits of a row, or their contraries.
#[inline]
pub(crate) fn passing(values: u64, row: u64, holding: bool) -> u64
    ensures { (y : ℕ) →
        has (ones_of result) y ≡ (has (ones_of values) y && is_wanted holding (bit_at row y == 1)) }
{
    if holding { values & row } else { values & !row }
}

/// Whether there is no member.
#[inline]
pub(crate) fn is_empty(values: u64) -> bool
    ensures { result ≡ not (is_not_empty (ones_of values)) }
{
    values == 0
}

/// The one member, where there are no others.
#[inline]
pub(crate) fn only_member(values: u64) -> Option<u8>
    ensures only { IfSome result (λ x. IsOnly (ones_of values) x) }
    ensures two { result ≡ None → is_not_empty (ones_of values) ≡ true → HasTwo (ones_of values) }
{
    if values == 0 {
        return None;
    }
    let x = least_value(values);
    if without_value(values, x) == 0 {
        Some(x)
    } else {
        None
    }
}

/// How many members there are.
#[inline]
pub(crate) fn count(values: u64) -> u8
    ensures is { result ≡ length (ones_of values) }
    ensures few { result ≤ 64 }
{
    values.count_ones() as u8
}

/// Whether there are more members than so many.
#[inline]
pub(crate) fn are_more(values: u64, most: u8) -> bool
    ensures is { result ≡ nat_lt most (length (ones_of values)) }
    ensures few { result ≡ true → most < 64 }
{
    if most != 1 {
        return count(values) > most;
    }
    // Whether there is a second one is seen without counting them.
    values != 0 && without_value(values, least_value(values)) != 0
}

/// The members, and x.
#[inline]
pub(crate) fn add_value(values: u64, x: u8) -> u64
    requires { x < 64 }
    ensures { (y : ℕ) → has (ones_of result) y ≡ (has (ones_of values) y || (x == y)) }
{
    values | (1 << x)
}

/// The members, and x where that is wanted.
#[inline]
pub(crate) fn add_where(values: u64, x: u8, wanted: bool) -> u64
    requires { x < 64 }
    ensures { (y : ℕ) → has (ones_of result) y ≡ (has (ones_of values) y || (wanted && (x == y))) }
{
    if wanted { add_value(values, x) } else { values }
}
