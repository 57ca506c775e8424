//! Variables that have to differ: the one value of one is taken away from the others.

ghost use Rattle.std.specs.Prelude.{◌≡◌, ◌<◌, ◌+◌, ◌*◌, ◌==◌, ℕ, true};
ghost use Rattle.std.specs.Prelude.{false, IfSome, None, Some, length};
ghost use Rattle.std.specs.Prelude.{slice_index_or};
ghost use Rattle.assign.specs.Sets.{has};
ghost use Rattle.language.specs.Language.{IsLanguage, variable_count};
ghost use Rattle.propagators.specs.Allowed.{AreConstraints};
ghost use Rattle.propagators.specs.Families.{Arc, conditions};
ghost use Rattle.propagators.specs.Pairs.{IsValueOf};
ghost use Rattle.propagators.specs.Briefs.{IsApart, IsApartAt};
ghost use Rattle.propagators.specs.declared.plan.Plan.{Plan};
ghost use Rattle.propagators.specs.Entailed.{AreEntailed, IsEntailed};
ghost use Rattle.propagators.specs.Plans.{is_with, AreLooked, IsLooked};
ghost use Rattle.propagators.specs.Propagated.{AreSome};
ghost use Rattle.propagators.specs.Propagated.{RunsEmpty, IsWholePlanOf};

use crate::briefs::Brief;
use crate::constraints::Constraints;
use crate::domains::Domains;
use crate::entailed::Entailed;
use crate::plan::Plan;
use crate::revising::Alive;
use crate::values::{is_empty, least_value, passing, without_value};
use crate::waiting::Waiting;
use language::Language;

/// The value of a variable, where it has one alone.
pub(crate) fn value_of(lang: &Language, doms: &Domains, v: u8) -> Option<u8>
    requires { length doms.now ≡ variable_count lang.now }
    ensures { IfSome result (IsValueOf doms.now v) }
{
    if v < lang.n() { doms.only(v) } else { None }
}

/// Takes x, which is v's one value, away from u, where a condition says that these two differ. u is
/// waiting then, unless it has more values than its limit; `No` where none is left to it.
#[inline]
fn strike(
    cons: &Constraints,
    plan: &Plan,
    v: u8,
    x: u8,
    u: u8,
    doms: &mut Domains,
    waiting: &mut Waiting,
) -> Alive
    requires lawful { IsLanguage cons.now.lang.now }
    requires constraints { AreConstraints cons.now.lang.now cons.now.list.now cons.now.against }
    requires plan { IsWholePlanOf cons.now.lang.now (conditions cons.now) plan.now }
    requires doms { AreSome cons.now.lang.now doms.old }
    requires value { IsValueOf doms.old v x }
    requires apart { is_with plan.now.aparts.items v u ≡ true }
    ensures looked { result ≡ Alive.Yes → (k : ℕ) →
        k < length plan.now.briefs.items → k < length (conditions cons.now) →
        ((b : Brief) → IsApartAt (slice_index_or plan.now.briefs.items k b) v u) →
        IsLooked (conditions cons.now) k waiting.old waiting.new doms.old doms.new }
    ensures entailed { result ≡ Alive.Yes → (k : ℕ) (a : Arc) →
        k < length plan.now.briefs.items → k < length (conditions cons.now) →
        ((b : Brief) → IsApartAt (slice_index_or plan.now.briefs.items k b) v u) →
        IsEntailed (slice_index_or (conditions cons.now) k a) doms.new }
    ensures dead { result ≡ Alive.No → RunsEmpty (conditions cons.now) doms.old }
{
    let values = doms.others(u, x);
    if is_empty(values) {
        return Alive::No;
    }
    if !doms.cut(u, values) {
        return Alive::Yes;
    }
    let limit = plan.limits[usize::from(u)];
    if limit == 1 {
        if doms.has_more(u, 1) {
            return Alive::Yes;
        }
    } else if doms.has_more(u, limit) {
        return Alive::Yes;
    }
    *waiting = waiting.with(u);
    Alive::Yes
}

/// Looks at what says that v and u differ.
#[inline]
fn look_at_two(
    cons: &Constraints,
    plan: &Plan,
    v: u8,
    u: u8,
    doms: &mut Domains,
    waiting: &mut Waiting,
) -> Alive
    requires lawful { IsLanguage cons.now.lang.now }
    requires constraints { AreConstraints cons.now.lang.now cons.now.list.now cons.now.against }
    requires plan { IsWholePlanOf cons.now.lang.now (conditions cons.now) plan.now }
    requires doms { AreSome cons.now.lang.now doms.old }
    requires known { v < 128 }
    requires apart { is_with plan.now.aparts.items v u ≡ true }
    ensures looked { result ≡ Alive.Yes → (k : ℕ) →
        k < length plan.now.briefs.items → k < length (conditions cons.now) →
        ((b : Brief) → IsApartAt (slice_index_or plan.now.briefs.items k b) v u) →
        IsLooked (conditions cons.now) k waiting.old waiting.new doms.old doms.new }
    ensures dead { result ≡ Alive.No → RunsEmpty (conditions cons.now) doms.old }
{
    if let Some(x) = doms.only(v) {
        return strike(cons, plan, v, x, u, doms, waiting);
    }
    if let Some(y) = doms.only(u) {
        return strike(cons, plan, u, y, v, doms, waiting);
    }
    Alive::Yes
}

/// Takes x, which is v's one value, away from the variables that have to differ from v, but for
/// those that are struck.
#[inline]
fn strike_all(
    cons: &Constraints,
    plan: &Plan,
    doms: &mut Domains,
    entailed: &Entailed,
    v: u8,
    x: u8,
    waiting: &mut Waiting,
) -> Alive
    requires lawful { IsLanguage cons.now.lang.now }
    requires constraints { AreConstraints cons.now.lang.now cons.now.list.now cons.now.against }
    requires plan { IsWholePlanOf cons.now.lang.now (conditions cons.now) plan.now }
    requires doms { AreSome cons.now.lang.now doms.old }
    requires value { IsValueOf doms.old v x }
    requires known { v < 128 }
    requires entailed { AreEntailed (conditions cons.now) plan.now entailed.now doms.old }
    ensures looked { result ≡ Alive.Yes →
        AreLooked (conditions cons.now) plan.now v waiting.old waiting.new doms.old doms.new }
    ensures entailed { result ≡ Alive.Yes → (k : ℕ) (a : Arc) → k < length (conditions cons.now) →
        has (slice_index_or (conditions cons.now) k a).scope v ≡ true →
        ((c : Brief) → IsApart (slice_index_or plan.now.briefs.items k c)) →
        IsEntailed (slice_index_or (conditions cons.now) k a) doms.new }
    ensures dead { result ≡ Alive.No → RunsEmpty (conditions cons.now) doms.old }
{
    for h in 0..2 {
        let beside = plan.aparts[h * 128 + usize::from(v)];
        let mut rest = passing(beside, entailed.struck(h), false);
        while rest != 0 {
            let b = least_value(rest);
            rest = without_value(rest, b);
            match strike(cons, plan, v, x, h as u8 * 64 + b, doms, waiting) {
                Alive::No => return Alive::No,
                Alive::Yes => {}
            }
        }
    }
    Alive::Yes
}

/// Looks at each variable that has to differ from v, but for those that are struck.
// Not inlined: most variables that are looked at have one value.
#[inline(never)]
fn look_at_neighbours(
    cons: &Constraints,
    plan: &Plan,
    doms: &mut Domains,
    entailed: &Entailed,
    v: u8,
    waiting: &mut Waiting,
) -> Alive
    requires lawful { IsLanguage cons.now.lang.now }
    requires constraints { AreConstraints cons.now.lang.now cons.now.list.now cons.now.against }
    requires plan { IsWholePlanOf cons.now.lang.now (conditions cons.now) plan.now }
    requires doms { AreSome cons.now.lang.now doms.old }
    requires known { v < 128 }
    requires entailed { AreEntailed (conditions cons.now) plan.now entailed.now doms.old }
    ensures looked { result ≡ Alive.Yes →
        AreLooked (conditions cons.now) plan.now v waiting.old waiting.new doms.old doms.new }
    ensures dead { result ≡ Alive.No → RunsEmpty (conditions cons.now) doms.old }
{
    for h in 0..2 {
        let beside = plan.aparts[h * 128 + usize::from(v)];
        let mut rest = passing(beside, entailed.struck(h), false);
        while rest != 0 {
            let b = least_value(rest);
            rest = without_value(rest, b);
            match look_at_two(cons, plan, v, h as u8 * 64 + b, doms, waiting) {
                Alive::No => return Alive::No,
                Alive::Yes => {}
            }
        }
    }
    Alive::Yes
}

/// Looks at what says that a changed variable differs from others, but for those that are struck.
#[inline]
pub(crate) fn look_apart(
    cons: &Constraints,
    plan: &Plan,
    doms: &mut Domains,
    entailed: &Entailed,
    v: u8,
    value: Option<u8>,
    waiting: &mut Waiting,
) -> Alive
    requires lawful { IsLanguage cons.now.lang.now }
    requires constraints { AreConstraints cons.now.lang.now cons.now.list.now cons.now.against }
    requires plan { IsWholePlanOf cons.now.lang.now (conditions cons.now) plan.now }
    requires doms { AreSome cons.now.lang.now doms.old }
    requires value { IfSome value (IsValueOf doms.old v) }
    requires known { v < 128 }
    requires entailed { AreEntailed (conditions cons.now) plan.now entailed.now doms.old }
    ensures looked { result ≡ Alive.Yes →
        AreLooked (conditions cons.now) plan.now v waiting.old waiting.new doms.old doms.new }
    ensures entailed { result ≡ Alive.Yes → IfSome value (λ x. (k : ℕ) (a : Arc) →
        k < length (conditions cons.now) → has (slice_index_or (conditions cons.now) k a).scope v
        ≡ true → ((c : Brief) → IsApart (slice_index_or plan.now.briefs.items k c)) →
        IsEntailed (slice_index_or (conditions cons.now) k a) doms.new) }
    ensures dead { result ≡ Alive.No → RunsEmpty (conditions cons.now) doms.old }
{
    match value {
        Some(x) => strike_all(cons, plan, doms, entailed, v, x, waiting),
        None => look_at_neighbours(cons, plan, doms, entailed, v, waiting),
    }
}
