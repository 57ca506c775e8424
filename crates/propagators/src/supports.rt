//! Which values of some sets an accepted tuple goes through.

ghost use Rattle.std.specs.Prelude.{◌≡◌, ◌+◌, ◌*◌, ◌≤◌, ◌==◌, ◌&&◌, ◌||◌, ℕ, Bool};
ghost use Rattle.std.specs.Prelude.{true, false, List, [], ◌∷◌, length, map, take};
ghost use Rattle.std.specs.Prelude.{All};
ghost use Rattle.std.specs.Int.{bit_at};
ghost use Rattle.assign.specs.Sets.{has, ones_of};
ghost use Rattle.propagators.specs.Supports.{AreSupported, AreBelow, AreSupportedBeside};
ghost use Rattle.propagators.specs.Supports.{HasTuple, HasNoTuple, continues};
ghost use Rattle.propagators.specs.Families.{is_wanted};
ghost use Rattle.propagators.specs.Loose.{IsBounded};
ghost use Rattle.propagators.specs.Chains.{IsChain};
ghost use Rattle.propagators.specs.Pairs.{goes_by, AreSides};
ghost use Rattle.propagators.specs.Briefs.{by_pair};
ghost use Rattle.rel_table.specs.Relation.{Relation};
ghost use Rattle.language.specs.Pairs.{ArePairTables, IsPairTable};

use crate::briefs::Pair;
use crate::values::{
    either, greatest_value, is_empty, least_value, only_member, passing, with_value, without_value,
};
use language::Language;
use rel_table::Table;

/// The supported values of one set.
#[inline]
fn in_one(table: &Table, holding: bool, at: u32, last: u64) -> u64
    requires fits { (at + 1) * table.now.value_count ≤ length table.now.truth }
    requires last { AreBelow table.now.value_count (ones_of last) }
    ensures { AreSupported (ones_of last ∷ []) (continues table.now holding at)
        (ones_of result ∷ []) }
{
    passing(
        last,
        table.row(at * u32::from(table.value_count())),
        holding,
    )
}

/// The supported values of two sets.
#[inline]
fn in_two(table: &Table, holding: bool, at: u32, first: u64, last: u64) -> (u64, u64)
    requires fits { (at + 1) * (table.now.value_count * table.now.value_count)
        ≤ length table.now.truth }
    requires first { AreBelow table.now.value_count (ones_of first) }
    requires last { AreBelow table.now.value_count (ones_of last) }
    ensures { AreSupported (ones_of first ∷ ones_of last ∷ []) (continues table.now holding at)
        (ones_of result.0 ∷ ones_of result.1 ∷ []) }
{
    let d = u32::from(table.value_count());
    let (mut a, mut b) = (0, 0);
    let mut rest = first;
    while rest != 0 {
        let x = least_value(rest);
        rest = without_value(rest, x);
        let below = in_one(table, holding, at * d + u32::from(x), last);
        a = with_value(a, x, below);
        b = either(b, below);
    }
    (a, b)
}

/// Whether an accepted tuple takes its values from two sets.
#[inline]
fn is_any_in_two(table: &Table, holding: bool, at: u32, first: u64, last: u64) -> bool
    requires fits { (at + 1) * (table.now.value_count * table.now.value_count)
        ≤ length table.now.truth }
    requires first { AreBelow table.now.value_count (ones_of first) }
    requires last { AreBelow table.now.value_count (ones_of last) }
    ensures some { result ≡ true →
        HasTuple (ones_of first ∷ ones_of last ∷ []) (continues table.now holding at) }
    ensures none { result ≡ false →
        HasNoTuple (ones_of first ∷ ones_of last ∷ []) (continues table.now holding at) }
{
    let d = u32::from(table.value_count());
    let mut rest = first;
    while rest != 0 {
        let x = least_value(rest);
        rest = without_value(rest, x);
        let below = in_one(table, holding, at * d + u32::from(x), last);
        if !is_empty(below) {
            return true;
        }
    }
    false
}

/// The supported values of two sets. Where each of them was found before, it matters alone whether
/// there are any: then all are told, or none.
#[inline]
fn in_two_beside(
    table: &Table,
    holding: bool,
    at: u32,
    first: u64,
    last: u64,
    found: (u64, u64),
) -> (u64, u64)
    requires fits { (at + 1) * (table.now.value_count * table.now.value_count)
        ≤ length table.now.truth }
    requires first { AreBelow table.now.value_count (ones_of first) }
    requires last { AreBelow table.now.value_count (ones_of last) }
    ensures { AreSupportedBeside (ones_of first ∷ ones_of last ∷ []) (continues table.now holding
        at) (ones_of found.0 ∷ ones_of found.1 ∷ []) (ones_of result.0 ∷ ones_of result.1 ∷ []) }
{
    if found.0 != first || found.1 != last {
        return in_two(table, holding, at, first, last);
    }
    if is_any_in_two(table, holding, at, first, last) {
        found
    } else {
        (0, 0)
    }
}

/// The supported values of two sets, by the rows of a relation.
#[inline]
fn in_rows(rows: &[u64], holding: bool, first: u64, last: u64) -> (u64, u64)
    requires { length rows.now ≡ 64 }
    ensures { AreSupported (ones_of first ∷ ones_of last ∷ []) (goes_by rows.now holding)
        (ones_of result.0 ∷ ones_of result.1 ∷ []) }
{
    let (mut a, mut b) = (0, 0);
    let mut rest = first;
    while rest != 0 {
        let x = least_value(rest);
        rest = without_value(rest, x);
        let below = passing(last, rows[usize::from(x)], holding);
        a = with_value(a, x, below);
        b = either(b, below);
    }
    (a, b)
}

/// The values that go with one of two others, by the masks of these, or don't, where that is
/// wanted.
#[inline]
fn with_either(values: u64, one: u64, other: u64, holding: bool) -> u64
    ensures { (y : ℕ) →
        has (ones_of result) y ≡ ((has (ones_of values) y && is_wanted holding (bit_at one y == 1))
        || (has (ones_of values) y && is_wanted holding (bit_at other y == 1))) }
{
    either(
        passing(values, one, holding),
        passing(values, other, holding),
    )
}

/// `in_pair` for a chain: what goes with some value of a set goes with the least or the greatest
/// one.
#[inline]
fn in_chain(rows: &[u64], columns: &[u64], holding: bool, first: u64, last: u64) -> (u64, u64)
    requires rows_long { length rows.now ≡ 64 }
    requires columns_long { length columns.now ≡ 64 }
    ensures first { (x : ℕ) → has (ones_of result.0) x ≡ true → has (ones_of first) x ≡ true }
    ensures last { (y : ℕ) → has (ones_of result.1) y ≡ true → has (ones_of last) y ≡ true }
    ensures supported { (d : ℕ) (accepted : List ℕ → Bool) →
        AreSides d accepted holding rows.now columns.now → IsChain d accepted →
        AreBelow d (ones_of first) → AreBelow d (ones_of last) → AreSupported (ones_of first
        ∷ ones_of last ∷ []) accepted (ones_of result.0 ∷ ones_of result.1 ∷ []) }
{
    if first == 0 {
        return (0, 0);
    }
    if last == 0 {
        return (0, 0);
    }
    let least = columns[usize::from(least_value(last))];
    let greatest = columns[usize::from(greatest_value(last))];
    let a = with_either(first, least, greatest, holding);
    let least = rows[usize::from(least_value(first))];
    let greatest = rows[usize::from(greatest_value(first))];
    (a, with_either(last, least, greatest, holding))
}

/// The supported values of two sets, by the masks of a pair's table.
#[inline]
pub(crate) fn in_pair(lang: &Language, pair: Pair, first: u64, last: u64) -> (u64, u64)
    requires table { IsPairTable lang.now pair.table }
    ensures first { (x : ℕ) → has (ones_of result.0) x ≡ true → has (ones_of first) x ≡ true }
    ensures last { (y : ℕ) → has (ones_of result.1) y ≡ true → has (ones_of last) y ≡ true }
    ensures supported { (pairs : List Relation) → ArePairTables lang.now pairs →
        IsBounded lang.now.value_count (by_pair lang.now pairs pair) pair.bounds →
        AreBelow lang.now.value_count (ones_of first) →
        AreBelow lang.now.value_count (ones_of last) → AreSupported (ones_of first ∷ ones_of last
        ∷ []) (by_pair lang.now pairs pair) (ones_of result.0 ∷ ones_of result.1 ∷ []) }
{
    let rows = lang.pair_rows(pair.table);
    if pair.bounds.is_chain {
        in_chain(
            rows,
            lang.pair_columns(pair.table),
            pair.holding,
            first,
            last,
        )
    } else {
        in_rows(rows, pair.holding, first, last)
    }
}

/// The supported values of three sets.
fn in_three(
    table: &Table,
    holding: bool,
    at: u32,
    first: u64,
    second: u64,
    last: u64,
) -> (u64, u64, u64)
    requires fits { (at + 1) * (table.now.value_count
        * (table.now.value_count * table.now.value_count)) ≤ length table.now.truth }
    requires first { AreBelow table.now.value_count (ones_of first) }
    requires second { AreBelow table.now.value_count (ones_of second) }
    requires last { AreBelow table.now.value_count (ones_of last) }
    ensures { AreSupported (ones_of first ∷ ones_of second ∷ ones_of last ∷ []) (continues table.now
        holding at) (ones_of result.0 ∷ ones_of result.1 ∷ ones_of result.2 ∷ []) }
{
    let d = u32::from(table.value_count());
    if let Some(x) = only_member(first) {
        let below = in_two(table, holding, at * d + u32::from(x), second, last);
        return (with_value(0, x, below.0), below.0, below.1);
    }
    let (mut a, mut b, mut c) = (0, 0, 0);
    let mut rest = first;
    while rest != 0 {
        let x = least_value(rest);
        rest = without_value(rest, x);
        let at = at * d + u32::from(x);
        let below = in_two_beside(table, holding, at, second, last, (b, c));
        a = with_value(a, x, below.0);
        b = either(b, below.0);
        c = either(c, below.1);
    }
    (a, b, c)
}

/// Whether an accepted tuple takes its values from three sets.
#[inline]
fn is_any_in_three(
    table: &Table,
    holding: bool,
    at: u32,
    first: u64,
    second: u64,
    last: u64,
) -> bool
    requires fits { (at + 1) * (table.now.value_count
        * (table.now.value_count * table.now.value_count)) ≤ length table.now.truth }
    requires first { AreBelow table.now.value_count (ones_of first) }
    requires second { AreBelow table.now.value_count (ones_of second) }
    requires last { AreBelow table.now.value_count (ones_of last) }
    ensures some { result ≡ true → HasTuple (ones_of first ∷ ones_of second ∷ ones_of last
        ∷ []) (continues table.now holding at) }
    ensures none { result ≡ false → HasNoTuple (ones_of first ∷ ones_of second ∷ ones_of last
        ∷ []) (continues table.now holding at) }
{
    let d = u32::from(table.value_count());
    let mut rest = first;
    while rest != 0 {
        let x = least_value(rest);
        rest = without_value(rest, x);
        if is_any_in_two(table, holding, at * d + u32::from(x), second, last) {
            return true;
        }
    }
    false
}

/// `in_two_beside` for three sets.
#[inline]
fn in_three_beside(
    table: &Table,
    holding: bool,
    at: u32,
    first: u64,
    second: u64,
    last: u64,
    found: (u64, u64, u64),
) -> (u64, u64, u64)
    requires fits { (at + 1) * (table.now.value_count
        * (table.now.value_count * table.now.value_count)) ≤ length table.now.truth }
    requires first { AreBelow table.now.value_count (ones_of first) }
    requires second { AreBelow table.now.value_count (ones_of second) }
    requires last { AreBelow table.now.value_count (ones_of last) }
    ensures { AreSupportedBeside (ones_of first ∷ ones_of second ∷ ones_of last
        ∷ []) (continues table.now holding at) (ones_of found.0 ∷ ones_of found.1 ∷ ones_of found.2
        ∷ []) (ones_of result.0 ∷ ones_of result.1 ∷ ones_of result.2 ∷ []) }
{
    if found.0 != first || found.1 != second || found.2 != last {
        return in_three(table, holding, at, first, second, last);
    }
    if is_any_in_three(table, holding, at, first, second, last) {
        found
    } else {
        (0, 0, 0)
    }
}

/// The supported values of four sets.
fn in_four(
    table: &Table,
    holding: bool,
    first: u64,
    second: u64,
    third: u64,
    last: u64,
) -> (u64, u64, u64, u64)
    requires fits { table.now.value_count * (table.now.value_count
        * (table.now.value_count * table.now.value_count)) ≤ length table.now.truth }
    requires first { AreBelow table.now.value_count (ones_of first) }
    requires second { AreBelow table.now.value_count (ones_of second) }
    requires third { AreBelow table.now.value_count (ones_of third) }
    requires last { AreBelow table.now.value_count (ones_of last) }
    ensures { AreSupported (ones_of first ∷ ones_of second ∷ ones_of third
        ∷ ones_of last ∷ []) (continues table.now holding 0)
        (ones_of result.0 ∷ ones_of result.1 ∷ ones_of result.2 ∷ ones_of result.3 ∷ []) }
{
    if let Some(x) = only_member(first) {
        let below = in_three(table, holding, u32::from(x), second, third, last);
        return (with_value(0, x, below.0), below.0, below.1, below.2);
    }
    let (mut a, mut b, mut c, mut e) = (0, 0, 0, 0);
    let mut rest = first;
    while rest != 0 {
        let x = least_value(rest);
        rest = without_value(rest, x);
        let at = u32::from(x);
        let below = in_three_beside(table, holding, at, second, third, last, (b, c, e));
        a = with_value(a, x, below.0);
        b = either(b, below.0);
        c = either(c, below.1);
        e = either(e, below.2);
    }
    (a, b, c, e)
}

/// The supported values of a scope's sets.
pub(crate) fn supported(table: &Table, holding: bool, sets: &[u64; 4]) -> [u64; 4]
    requires sets { All (λ s. AreBelow table.now.value_count (ones_of s))
        (take table.now.arity sets.now) }
    ensures is { AreSupported (take table.now.arity (map ones_of sets.now))
        (continues table.now holding 0) (take table.now.arity (map ones_of result)) }
    ensures size { length result ≡ 4 }
{
    match table.arity() {
        1 => [in_one(table, holding, 0, sets[0]), 0, 0, 0],
        2 => {
            let found = in_two(table, holding, 0, sets[0], sets[1]);
            [found.0, found.1, 0, 0]
        }
        3 => {
            let found = in_three(table, holding, 0, sets[0], sets[1], sets[2]);
            [found.0, found.1, found.2, 0]
        }
        _ => {
            let found = in_four(table, holding, sets[0], sets[1], sets[2], sets[3]);
            [found.0, found.1, found.2, found.3]
        }
    }
}
