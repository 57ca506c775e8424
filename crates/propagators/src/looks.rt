//! What one condition takes away from the domains of its variables, where one of them has changed.

ghost use Rattle.std.specs.Prelude.{◌≡◌, ◌<◌, ◌≤◌, ◌==◌, ◌⊎◌, ℕ, List, [], true};
ghost use Rattle.std.specs.Prelude.{IfSome, None, Some, length, take};
ghost use Rattle.std.specs.Prelude.{slice_index_or, slice_set};
ghost use Rattle.std.specs.Int.{bit_at};
ghost use Rattle.std.specs.List.{list_all};
ghost use Rattle.assign.specs.Sets.{has};
ghost use Rattle.language.specs.Language.{IsLanguage, scope_of};
ghost use Rattle.propagators.specs.Allowed.{AreConstraints};
ghost use Rattle.propagators.specs.Families.{Family, Arc, conditions, is_not_empty, is_wanted};
ghost use Rattle.propagators.specs.Supports.{AreBelow, firsts_on};
ghost use Rattle.propagators.specs.Loose.{HasTwo};
ghost use Rattle.propagators.specs.Pairs.{IsOnly, IsValueOf, IsBeside};
ghost use Rattle.propagators.specs.Briefs.{IsPairOf, arc_by};
ghost use Rattle.rel_table.specs.Relation.{Relation, place};
ghost use Rattle.language.specs.Pairs.{ArePairTables, IsPairTable};
ghost use Rattle.propagators.specs.declared.plan.Plan.{Plan};
ghost use Rattle.propagators.specs.Entailed.{AreEntailed, AreFixedBut};
ghost use Rattle.propagators.specs.Plans.{IsLooked, IsLeftOrLooked};
ghost use Rattle.propagators.specs.Propagated.{AreSome, IsCondition};
ghost use Rattle.propagators.specs.Propagated.{RunsEmpty, IsWholePlanOf};

use crate::briefs::{Brief, OnScope, Pair};
use crate::constraints::Constraints;
use crate::domains::Domains;
use crate::entailed::Entailed;
use crate::openings::{Opening, going_along, opening_of};
use crate::plan::Plan;
use crate::revising::{Alive, revise, revise_pair, touches};
use crate::values::is_empty;
use crate::waiting::Waiting;
use language::{Candidate, Language};

/// Beside a variable that has one value alone the other one of a pair, and the mask of its values
/// that go with that one.
#[inline]
fn beside_value(lang: &Language, pair: Pair, v: u8, x: u8) -> Option<(u8, u64)>
    requires table { IsPairTable lang.now pair.table }
    requires small { x < 64 }
    ensures beside { IfSome result (λ r. (f : Family) (pairs : List Relation) →
        ArePairTables lang.now pairs → IsOnly (slice_index_or f v []) x →
        x < lang.now.value_count → IsBeside lang.now.value_count (arc_by lang.now pairs pair) f r.0
        (λ y. is_wanted pair.holding (bit_at r.1 y == 1))) }
    ensures known { IfSome result (λ r. (r.0 ≡ pair.first) ⊎ (r.0 ≡ pair.second)) }
{
    if pair.first == v {
        return Some((pair.second, lang.pair_rows(pair.table)[usize::from(x)]));
    }
    if pair.second == v {
        return Some((pair.first, lang.pair_columns(pair.table)[usize::from(x)]));
    }
    None
}

/// The variable of a pair whose other variable has one value alone, and the mask of its values that
/// go with that one. Where v has one, it is known already.
#[inline]
fn beside(
    lang: &Language,
    pair: Pair,
    doms: &Domains,
    v: u8,
    value: Option<u8>,
) -> Option<(u8, u64)>
    requires table { IsPairTable lang.now pair.table }
    requires first { pair.first < length doms.now }
    requires second { pair.second < length doms.now }
    requires value { IfSome value (IsValueOf doms.now v) }
    requires small { (v : ℕ) → AreBelow 64 (slice_index_or doms.now v []) }
    requires full { list_all is_not_empty doms.now ≡ true }
    ensures beside { IfSome result (λ r. (pairs : List Relation) → ArePairTables lang.now pairs →
        ((v : ℕ) → AreBelow lang.now.value_count (slice_index_or doms.now v [])) →
        IsBeside lang.now.value_count (arc_by lang.now pairs pair) doms.now r.0
        (λ x. is_wanted pair.holding (bit_at r.1 x == 1))) }
    ensures known { IfSome result (λ r. r.0 < length doms.now) }
    ensures two { result ≡ None → HasTwo (slice_index_or doms.now pair.first [])
        × HasTwo (slice_index_or doms.now pair.second []) }
{
    if let Some(x) = value {
        if let Some(found) = beside_value(lang, pair, v, x) {
            return Some(found);
        }
    }
    if let Some(x) = doms.only(pair.first) {
        return Some((pair.second, lang.pair_rows(pair.table)[usize::from(x)]));
    }
    if let Some(y) = doms.only(pair.second) {
        return Some((pair.first, lang.pair_columns(pair.table)[usize::from(y)]));
    }
    None
}

/// Looks at condition i, a candidate on this scope that is to hold or not to hold, each of whose
/// variables has one value alone but for that at a place. That one is left the values that go with
/// the others, and is waiting if it had more; `No` where there are none. Then the condition is
/// entailed.
#[inline]
fn look_along(
    cons: &Constraints,
    i: usize,
    c: Candidate,
    holding: bool,
    scope: &[u8],
    opening: Opening,
    doms: &mut Domains,
    entailed: &mut Entailed,
    waiting: &mut Waiting,
) -> Alive
    requires condition { IsCondition cons.now.lang.now cons.now.list.now cons.now.against i c
        holding }
    requires scope { scope.now ≡ scope_of cons.now.lang.now c }
    requires place { opening.place < length (scope_of cons.now.lang.now c) }
    requires fixed { AreFixedBut doms.old (scope_of cons.now.lang.now c) opening.place }
    requires first { opening.first ≡ place cons.now.lang.now.value_count
        (slice_set (firsts_on doms.old (scope_of cons.now.lang.now c)) opening.place 0) }
    requires doms { AreSome cons.now.lang.now doms.old }
    ensures looked { result ≡ Alive.Yes →
        IsLooked (conditions cons.now) i waiting.old waiting.new doms.old doms.new }
    ensures entailed { result ≡ Alive.Yes → (p : Plan) → AreEntailed (conditions cons.now) p
        entailed.old doms.old → AreEntailed (conditions cons.now) p entailed.new doms.new }
    ensures dead { result ≡ Alive.No → RunsEmpty (conditions cons.now) doms.old }
{
    let table = cons.lang.table_on(c.scope, c.rel);
    let values = going_along(table, holding, doms, scope, opening);
    if is_empty(values) {
        return Alive::No;
    }
    entailed.add(i);
    if !doms.cut(scope[opening.place], values) {
        return Alive::Yes;
    }
    *waiting = waiting.with(scope[opening.place]);
    Alive::Yes
}

/// Revises condition i, a candidate that is to hold or not to hold. To the variables that are
/// waiting are added those that lost values; `No` where some variable has none left in an
/// arc-consistent subfamily.
fn look_at_several(
    cons: &Constraints,
    i: usize,
    c: Candidate,
    holding: bool,
    doms: &mut Domains,
    entailed: &mut Entailed,
    waiting: &mut Waiting,
) -> Alive
    requires condition { IsCondition cons.now.lang.now cons.now.list.now cons.now.against i c
        holding }
    requires doms { AreSome cons.now.lang.now doms.old }
    ensures looked { result ≡ Alive.Yes →
        IsLooked (conditions cons.now) i waiting.old waiting.new doms.old doms.new }
    ensures entailed { result ≡ Alive.Yes → (p : Plan) → AreEntailed (conditions cons.now) p
        entailed.old doms.old → AreEntailed (conditions cons.now) p entailed.new doms.new }
    ensures dead { result ≡ Alive.No → RunsEmpty (conditions cons.now) doms.old }
{
    match revise(cons.lang, c, holding, doms) {
        None => Alive::No,
        Some(lost) => {
            if lost.is_empty() {
                return Alive::Yes;
            }
            entailed.add_fixed(i, doms, cons.lang.scope(c.scope));
            *waiting = waiting.union(lost);
            Alive::Yes
        }
    }
}

/// Revises condition i, unless one of its variables is waiting, at whose turn that is done. To the
/// variables that are waiting are added those that lost values; `No` where some variable has none
/// left in an arc-consistent subfamily.
fn look_at_other(
    cons: &Constraints,
    other: &OnScope,
    i: usize,
    doms: &mut Domains,
    entailed: &mut Entailed,
    waiting: &mut Waiting,
) -> Alive
    requires condition { IsCondition cons.now.lang.now cons.now.list.now cons.now.against i
        other.now.candidate other.now.holding }
    requires size { other.now.size ≤ 4 }
    requires scope { take other.now.size other.now.scope
        ≡ scope_of cons.now.lang.now other.now.candidate }
    requires doms { AreSome cons.now.lang.now doms.old }
    ensures looked { result ≡ Alive.Yes →
        IsLeftOrLooked (conditions cons.now) i waiting.old waiting.new doms.old doms.new }
    ensures entailed { result ≡ Alive.Yes → (p : Plan) → AreEntailed (conditions cons.now) p
        entailed.old doms.old → AreEntailed (conditions cons.now) p entailed.new doms.new }
    ensures dead { result ≡ Alive.No → RunsEmpty (conditions cons.now) doms.old }
{
    // A copy: the loops over the scope then read one place, whichever condition it is.
    let places = other.scope;
    let scope = &places[..usize::from(other.size)];
    if let Some(opening) = opening_of(doms, cons.lang.d(), scope) {
        return look_along(
            cons,
            i,
            other.candidate,
            other.holding,
            scope,
            opening,
            doms,
            entailed,
            waiting,
        );
    }
    if touches(scope, *waiting) {
        return Alive::Yes;
    }
    look_at_several(
        cons,
        i,
        other.candidate,
        other.holding,
        doms,
        entailed,
        waiting,
    )
}

/// `look_at_other` for a condition on two variables, by the masks of its relation. Apart from the
/// loop over conditions, which seldom comes here.
#[inline(never)]
fn look_at_both(
    cons: &Constraints,
    pair: Pair,
    i: usize,
    doms: &mut Domains,
    waiting: &mut Waiting,
) -> Alive
    requires lawful { IsLanguage cons.now.lang.now }
    requires constraints { AreConstraints cons.now.lang.now cons.now.list.now cons.now.against }
    requires pair { (a : Arc) →
        IsPairOf cons.now.lang.now (slice_index_or (conditions cons.now) i a) pair }
    requires low { i < length (conditions cons.now) }
    requires doms { AreSome cons.now.lang.now doms.old }
    ensures looked { result ≡ Alive.Yes →
        IsLooked (conditions cons.now) i waiting.old waiting.new doms.old doms.new }
    ensures dead { result ≡ Alive.No → RunsEmpty (conditions cons.now) doms.old }
{
    match revise_pair(cons.lang, pair, doms) {
        None => Alive::No,
        Some(lost) => {
            if lost.is_empty() {
                return Alive::Yes;
            }
            *waiting = waiting.union(lost);
            Alive::Yes
        }
    }
}

/// `look_at_both`, but where one of the two variables has one value alone, a mask tells what goes
/// with it. Then the condition is entailed.
fn look_at_pair(
    cons: &Constraints,
    plan: &Plan,
    pair: &Pair,
    i: usize,
    v: u8,
    value: Option<u8>,
    doms: &mut Domains,
    entailed: &mut Entailed,
    waiting: &mut Waiting,
) -> Alive
    requires lawful { IsLanguage cons.now.lang.now }
    requires constraints { AreConstraints cons.now.lang.now cons.now.list.now cons.now.against }
    requires value { IfSome value (IsValueOf doms.old v) }
    requires plan { IsWholePlanOf cons.now.lang.now (conditions cons.now) plan.now }
    requires pair { (a : Arc) →
        IsPairOf cons.now.lang.now (slice_index_or (conditions cons.now) i a) pair.now }
    requires low { i < length (conditions cons.now) }
    requires doms { AreSome cons.now.lang.now doms.old }
    ensures looked { result ≡ Alive.Yes →
        IsLooked (conditions cons.now) i waiting.old waiting.new doms.old doms.new }
    ensures entailed { result ≡ Alive.Yes → AreEntailed (conditions cons.now) plan.now entailed.old
        doms.old → AreEntailed (conditions cons.now) plan.now entailed.new doms.new }
    ensures dead { result ≡ Alive.No → RunsEmpty (conditions cons.now) doms.old }
{
    // More values of each are left than one of the other rejects.
    if value.is_none()
        && doms.has_more(pair.first, pair.bounds.first)
        && doms.has_more(pair.second, pair.bounds.second)
    {
        return Alive::Yes;
    }
    let Some((u, row)) = beside(cons.lang, *pair, doms, v, value) else {
        return look_at_both(cons, *pair, i, doms, waiting);
    };
    let values = doms.passing(u, row, pair.holding);
    if is_empty(values) {
        return Alive::No;
    }
    entailed.add(i);
    if !doms.cut(u, values) {
        return Alive::Yes;
    }
    // Its conditions stay consistent while it has more values than its limit. That is seldom
    // another than one, for which they needn't be counted.
    let limit = plan.limits[usize::from(u)];
    if limit == 1 {
        if doms.has_more(u, 1) {
            return Alive::Yes;
        }
    } else if doms.has_more(u, limit) {
        return Alive::Yes;
    }
    *waiting = waiting.with(u);
    Alive::Yes
}

/// Looks at condition i, if there is one among so many. To the variables that are waiting are added
/// those that lost values; `No` where some variable has none left in an arc-consistent subfamily.
pub(crate) fn look_at(
    cons: &Constraints,
    plan: &Plan,
    count: usize,
    i: usize,
    v: u8,
    value: Option<u8>,
    doms: &mut Domains,
    entailed: &mut Entailed,
    waiting: &mut Waiting,
) -> Alive
    requires lawful { IsLanguage cons.now.lang.now }
    requires constraints { AreConstraints cons.now.lang.now cons.now.list.now cons.now.against }
    requires value { IfSome value (IsValueOf doms.old v) }
    requires plan { IsWholePlanOf cons.now.lang.now (conditions cons.now) plan.now }
    requires count { count ≡ length (conditions cons.now) }
    requires doms { AreSome cons.now.lang.now doms.old }
    ensures looked { result ≡ Alive.Yes →
        IsLeftOrLooked (conditions cons.now) i waiting.old waiting.new doms.old doms.new }
    ensures entailed { result ≡ Alive.Yes → AreEntailed (conditions cons.now) plan.now entailed.old
        doms.old → AreEntailed (conditions cons.now) plan.now entailed.new doms.new }
    ensures dead { result ≡ Alive.No → RunsEmpty (conditions cons.now) doms.old }
{
    if i >= count {
        return Alive::Yes;
    }
    match &plan.briefs[i] {
        Brief::Two(pair) => look_at_pair(cons, plan, pair, i, v, value, doms, entailed, waiting),
        Brief::Apart(pair) => look_at_pair(cons, plan, pair, i, v, value, doms, entailed, waiting),
        Brief::Other(other) => look_at_other(cons, other, i, doms, entailed, waiting),
    }
}
