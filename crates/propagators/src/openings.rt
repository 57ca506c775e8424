//! Which values of one variable go with the values of the others, where each of these has one
//! alone.

ghost use Rattle.std.specs.Prelude.{◌≡◌, ◌+◌, ◌-◌, ◌*◌, ◌^◌, ◌<◌, ◌≤◌, ◌==◌, ◌&&◌, ℕ};
ghost use Rattle.std.specs.Prelude.{true, [], length, take, slice_index_or};
ghost use Rattle.std.specs.Prelude.{slice_set, All, IfSome};
ghost use Rattle.std.specs.List.{list_all};
ghost use Rattle.assign.specs.Sets.{has, ones_of};
ghost use Rattle.propagators.specs.Supports.{AreAlong, AreBelow};
ghost use Rattle.propagators.specs.Supports.{continues, firsts_on};
ghost use Rattle.propagators.specs.Entailed.{HasOne, AreFixedBut};
ghost use Rattle.propagators.specs.Families.{is_wanted, is_not_empty, sets_on};
ghost use Rattle.rel_table.specs.Relation.{place};
ghost use Rattle.rel_table.specs.Table.{truth_at};

use crate::domains::Domains;
use crate::values::{add_where, least_value, without_value};
use rel_table::Table;

/// Whether a truth value is what is wanted.
#[inline]
fn is_right(held: bool, holding: bool) -> bool
    ensures { result ≡ is_wanted holding held }
{
    if holding { held } else { !held }
}

/// A place of a scope, and where in a table that tuple stands that has value 0 there and the first
/// value of each other variable.
#[derive(Clone, Copy)]
pub(crate) struct Opening {
    /// The place of the scope.
    pub(crate) place: usize,
    /// The place in the table.
    pub(crate) first: u32,
}

/// The place of a scope's first values but for a 0 right before those that are still to come, where
/// each of these has one value alone. The ones before have a place already.
#[inline]
fn place_on(doms: &Domains, d: u8, scope: &[u8], from: usize, before: u32) -> Option<u32>
    requires known { All (λ v. v < length doms.now) scope.now }
    requires full { list_all is_not_empty doms.now ≡ true }
    requires below { (v : ℕ) → AreBelow d (slice_index_or doms.now v []) }
    requires small { d ≤ 64 }
    requires short { length scope.now ≤ 4 }
    requires some { 1 ≤ from }
    requires from { from ≤ length scope.now }
    requires low { before < 64 ^ from }
    requires before { before
        ≡ place d (take from (slice_set (firsts_on doms.now scope.now) (from - 1) 0)) }
    ensures is { IfSome result
        (λ at. at ≡ place d (slice_set (firsts_on doms.now scope.now) (from - 1) 0)) }
    ensures fixed { IfSome result (λ at. (j : ℕ) → from ≤ j → j < length scope.now →
        HasOne (slice_index_or doms.now (slice_index_or scope.now j 0) [])) }
{
    let mut at = before;
    for j in from..scope.len() {
        let Some(x) = doms.only(scope[j]) else {
            return None;
        };
        at = at * u32::from(d) + u32::from(x);
    }
    Some(at)
}

/// A place of a scope such that each variable at another one has one value alone.
#[inline]
pub(crate) fn opening_of(doms: &Domains, d: u8, scope: &[u8]) -> Option<Opening>
    requires known { All (λ v. v < length doms.now) scope.now }
    requires some { 0 < length scope.now }
    requires short { length scope.now ≤ 4 }
    requires full { list_all is_not_empty doms.now ≡ true }
    requires below { (v : ℕ) → AreBelow d (slice_index_or doms.now v []) }
    requires small { d ≤ 64 }
    ensures low { IfSome result (λ o. o.place < length scope.now) }
    ensures fixed { IfSome result (λ o. AreFixedBut doms.now scope.now o.place) }
    ensures first { IfSome result
        (λ o. o.first ≡ place d (slice_set (firsts_on doms.now scope.now) o.place 0)) }
{
    let last = scope.len() - 1;
    let mut at = 0;
    for place in 0..last {
        let Some(x) = doms.only(scope[place]) else {
            let first = place_on(doms, d, scope, place + 1, at * u32::from(d))?;
            return Some(Opening { place, first });
        };
        at = at * u32::from(d) + u32::from(x);
    }
    Some(Opening {
        place: last,
        first: at * u32::from(d),
    })
}

/// How far apart two tuples stand that differ by one at a place before so many others.
#[inline]
fn step_of(d: u8, after: usize) -> u32
    requires some { 1 ≤ after }
    requires few { after ≤ 3 }
    requires small { d ≤ 64 }
    ensures { result ≡ d ^ after }
{
    let d = u32::from(d);
    if after == 1 {
        d
    } else if after == 2 {
        d * d
    } else {
        d * d * d
    }
}

/// The values of a set at whose places a table says what is wanted. Value x has the place that
/// stands x steps after the first one.
#[inline]
fn in_steps(table: &Table, holding: bool, first: u32, step: u32, values: u64) -> u64
    requires fits { (x : ℕ) → has (ones_of values) x ≡ true →
        first + x * step < length table.now.truth }
    requires small { length table.now.truth ≤ 65536 }
    ensures { (x : ℕ) → has (ones_of result) x
        ≡ (has (ones_of values) x && is_wanted holding (truth_at table.now (first + x * step))) }
{
    let mut found = 0;
    let mut rest = values;
    while rest != 0 {
        let x = least_value(rest);
        rest = without_value(rest, x);
        let right = is_right(table.at(first + u32::from(x) * step), holding);
        found = add_where(found, x, right);
    }
    found
}

/// The values of the variable at one place of a scope that go with some values of the others.
#[inline]
pub(crate) fn going_along(
    table: &Table,
    holding: bool,
    doms: &Domains,
    scope: &[u8],
    opening: Opening,
) -> u64
    requires arity { length scope.now ≡ table.now.arity }
    requires place { opening.place < length scope.now }
    requires first { opening.first
        ≡ place table.now.value_count (slice_set (firsts_on doms.now scope.now) opening.place 0) }
    requires known { All (λ v. v < length doms.now) scope.now }
    requires full { list_all is_not_empty doms.now ≡ true }
    requires below { (v : ℕ) → AreBelow table.now.value_count (slice_index_or doms.now v []) }
    ensures { AreAlong (sets_on doms.now scope.now) (continues table.now holding 0) opening.place
        (ones_of result) }
{
    let d = table.value_count();
    let v = scope[opening.place];
    let after = scope.len() - 1 - opening.place;
    if after == 0 {
        return doms.passing(v, table.row(opening.first), holding);
    }
    in_steps(
        table,
        holding,
        opening.first,
        step_of(d, after),
        doms.values(v),
    )
}
