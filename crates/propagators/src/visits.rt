//! Propagation with a plan: only the conditions of a changed variable are looked at.

ghost use Rattle.std.specs.Prelude.{◌≡◌, ◌<◌, ◌+◌, ◌*◌, ◌==◌, ◌⊎◌, ℕ, [], true};
ghost use Rattle.std.specs.Prelude.{false, IfSome, IsSome, None, Some, length};
ghost use Rattle.std.specs.Prelude.{slice_index_or};
ghost use Rattle.assign.specs.Sets.{has, without, IsSet};
ghost use Rattle.language.specs.Language.{IsLanguage, variable_count};
ghost use Rattle.propagators.specs.Allowed.{AreConstraints};
ghost use Rattle.propagators.specs.Families.{conditions};
ghost use Rattle.propagators.specs.Supports.{IsFamilyOf};
ghost use Rattle.propagators.specs.Loose.{HasMore};
ghost use Rattle.propagators.specs.declared.plan.Plan.{Plan};
ghost use Rattle.propagators.specs.Entailed.{AreEntailed, is_noted_in};
ghost use Rattle.propagators.specs.Entailed.{is_among_struck};
ghost use Rattle.propagators.specs.Plans.{IsPlanOf};
ghost use Rattle.propagators.specs.Propagated.{AreSome, IsSettledBut, IsPropagated};
ghost use Rattle.propagators.specs.Propagated.{RunsEmpty, IsWholePlanOf, IsVisited};

use crate::briefs::Brief;
use crate::constraints::Constraints;
use crate::differing::{look_apart, value_of};
use crate::domains::Domains;
use crate::entailed::Entailed;
use crate::looks::look_at;
use crate::plan::Plan;
use crate::revising::{Alive, settle};
use crate::values::{least_value, passing, without_value};
use crate::waiting::Waiting;
use assign::VarSet;

/// Takes in a variable with one value among those that are struck.
#[inline]
fn note_struck(entailed: &mut Entailed, v: u8, value: Option<u8>)
    requires { v < 128 }
    ensures noted { (k : ℕ) → is_noted_in entailed.new k ≡ is_noted_in entailed.old k }
    ensures struck { (u : ℕ) → is_among_struck entailed.new u ≡ true →
        (is_among_struck entailed.old u ≡ true) ⊎ ((u ≡ v) × IsSome value) }
{
    if let Some(_x) = value {
        entailed.strike(v);
    }
}

/// Looks at the conditions of a changed variable, but for those that are entailed. Says which
/// variables are waiting then; `None` where some variable has no value left in an arc-consistent
/// subfamily.
fn visit(
    cons: &Constraints,
    plan: &Plan,
    count: usize,
    doms: &mut Domains,
    entailed: &mut Entailed,
    changed: Waiting,
    v: u8,
) -> Option<Waiting>
    requires lawful { IsLanguage cons.now.lang.now }
    requires constraints { AreConstraints cons.now.lang.now cons.now.list.now cons.now.against }
    requires plan { IsWholePlanOf cons.now.lang.now (conditions cons.now) plan.now }
    requires doms { IsSettledBut cons.now.lang.now (conditions cons.now) changed doms.old }
    requires entailed { AreEntailed (conditions cons.now) plan.now entailed.old doms.old }
    requires count { count ≡ length (conditions cons.now) }
    requires known { v < 128 }
    requires there { has changed v ≡ true }
    ensures visited { IfSome result
        (λ next. IsVisited (conditions cons.now) (without changed v) next doms.old doms.new) }
    ensures entailed { IfSome result
        (λ next. AreEntailed (conditions cons.now) plan.now entailed.new doms.new) }
    ensures dead { result ≡ None → RunsEmpty (conditions cons.now) doms.old }
{
    let mut waiting = changed.without(v);
    let value = value_of(cons.lang, doms, v);
    match look_apart(cons, plan, doms, entailed, v, value, &mut waiting) {
        Alive::No => return None,
        Alive::Yes => {}
    }
    note_struck(entailed, v, value);
    for w in 0..count.div_ceil(64) {
        let noted = plan.sets[w * 128 + usize::from(v)];
        let mut rest = passing(noted, entailed.word(w), false);
        while rest != 0 {
            let b = least_value(rest);
            rest = without_value(rest, b);
            match look_at(
                cons,
                plan,
                count,
                w * 64 + usize::from(b),
                v,
                value,
                doms,
                entailed,
                &mut waiting,
            ) {
                Alive::No => return None,
                Alive::Yes => {}
            }
        }
    }
    Some(waiting)
}

/// Whether the first condition isn't on two variables. No clause says so: the order of visits
/// changes no outcome.
#[inline]
fn begins_long(plan: &Plan) -> bool {
    if plan.briefs.len() == 0 {
        return false;
    }
    match plan.briefs[0] {
        Brief::Other(_) => true,
        _ => false,
    }
}

/// The waiting variable whose turn it is: the greatest one, or the least one.
#[inline]
fn next_waiting(waiting: Waiting, from_greatest: bool) -> Option<u8>
    ensures there { IfSome result (λ v. has waiting v ≡ true) }
    ensures none { result ≡ None → waiting ≡ [] }
    ensures within { IfSome result (λ v. v < 128) }
    ensures set { IsSet waiting }
{
    if from_greatest {
        waiting.greatest()
    } else {
        waiting.least()
    }
}

/// Looks at the conditions of changed variables until none takes a value away.
fn visit_all(
    cons: &Constraints,
    plan: &Plan,
    doms: &mut Domains,
    entailed: &mut Entailed,
    changed: Waiting,
) -> Alive
    requires lawful { IsLanguage cons.now.lang.now }
    requires constraints { AreConstraints cons.now.lang.now cons.now.list.now cons.now.against }
    requires plan { IsWholePlanOf cons.now.lang.now (conditions cons.now) plan.now }
    requires doms { IsSettledBut cons.now.lang.now (conditions cons.now) changed doms.old }
    requires entailed { AreEntailed (conditions cons.now) plan.now entailed.old doms.old }
    ensures alive { result ≡ Alive.Yes →
        IsPropagated cons.now.lang.now (conditions cons.now) doms.old doms.new }
    ensures entailed { result ≡ Alive.Yes →
        AreEntailed (conditions cons.now) plan.now entailed.new doms.new }
    ensures dead { result ≡ Alive.No → RunsEmpty (conditions cons.now) doms.old }
{
    let count = cons.count();
    let from_greatest = begins_long(plan);
    let mut changed = changed;
    while let Some(v) = next_waiting(changed, from_greatest) {
        match visit(cons, plan, count, doms, entailed, changed, v) {
            None => return Alive::No,
            Some(next) => changed = next,
        }
    }
    Alive::Yes
}

/// `propagate_after`, where it is known that some conditions are entailed. Those that come to be so
/// are taken in.
pub fn propagate_beside(
    cons: &Constraints,
    plan: &Plan,
    doms: &mut Domains,
    entailed: &mut Entailed,
    changed: VarSet,
) -> Alive
    requires lawful { IsLanguage cons.now.lang.now }
    requires constraints { AreConstraints cons.now.lang.now cons.now.list.now cons.now.against }
    requires plan { IsPlanOf cons.now.lang.now (conditions cons.now) plan.now }
    requires doms { IsSettledBut cons.now.lang.now (conditions cons.now) changed doms.old }
    requires entailed { AreEntailed (conditions cons.now) plan.now entailed.old doms.old }
    ensures alive { result ≡ Alive.Yes →
        IsPropagated cons.now.lang.now (conditions cons.now) doms.old doms.new }
    ensures entailed { result ≡ Alive.Yes →
        AreEntailed (conditions cons.now) plan.now entailed.new doms.new }
    ensures dead { result ≡ Alive.No → RunsEmpty (conditions cons.now) doms.old }
{
    if cons.count() <= plan.briefs.len() {
        visit_all(cons, plan, doms, entailed, Waiting::of(changed))
    } else {
        settle(cons, doms, Waiting::of(changed))
    }
}

/// `propagate`, where no set is empty and each condition is consistent that has none of the changed
/// variables. The plan is one of the conditions.
pub fn propagate_after(
    cons: &Constraints,
    plan: &Plan,
    doms: &mut Domains,
    changed: VarSet,
) -> Alive
    requires lawful { IsLanguage cons.now.lang.now }
    requires constraints { AreConstraints cons.now.lang.now cons.now.list.now cons.now.against }
    requires plan { IsPlanOf cons.now.lang.now (conditions cons.now) plan.now }
    requires doms { IsSettledBut cons.now.lang.now (conditions cons.now) changed doms.old }
    ensures alive { result ≡ Alive.Yes →
        IsPropagated cons.now.lang.now (conditions cons.now) doms.old doms.new }
    ensures dead { result ≡ Alive.No → RunsEmpty (conditions cons.now) doms.old }
{
    let mut entailed = Entailed::none();
    propagate_beside(cons, plan, doms, &mut entailed, changed)
}

/// The set, and the variable unless it has more than so many values.
fn with_few(set: VarSet, doms: &Domains, v: u8, most: u8) -> VarSet
    requires known { v < length doms.now }
    requires few { v < 128 }
    ensures grows { (u : ℕ) → u < 128 → has result u ≡ false → has set u ≡ false }
    ensures more { has result v ≡ false → HasMore most (slice_index_or doms.now v []) }
{
    if doms.has_more(v, most) {
        set
    } else {
        set.with(v)
    }
}

/// Those of n variables whose conditions are looked at first: each that has no more values than its
/// limit.
fn first_changed(cons: &Constraints, plan: &Plan, doms: &Domains, n: u8) -> VarSet
    requires lawful { IsLanguage cons.now.lang.now }
    requires constraints { AreConstraints cons.now.lang.now cons.now.list.now cons.now.against }
    requires plan { IsPlanOf cons.now.lang.now (conditions cons.now) plan.now }
    requires doms { AreSome cons.now.lang.now doms.now }
    requires variables { n ≡ variable_count cons.now.lang.now }
    ensures { IsSettledBut cons.now.lang.now (conditions cons.now) result doms.now }
{
    if cons.count() > plan.briefs.len() {
        return VarSet::all(n);
    }
    let mut changed = VarSet::empty();
    for v in 0..n {
        changed = with_few(changed, doms, v, plan.limits[usize::from(v)]);
    }
    changed
}

/// `propagate` with a plan of the conditions.
pub fn propagate_all(cons: &Constraints, plan: &Plan, doms: &mut Domains) -> Alive
    requires constraints { AreConstraints cons.now.lang.now cons.now.list.now cons.now.against }
    requires plan { IsPlanOf cons.now.lang.now (conditions cons.now) plan.now }
    requires family { IsFamilyOf cons.now.lang.now doms.old }
    ensures alive { result ≡ Alive.Yes →
        IsPropagated cons.now.lang.now (conditions cons.now) doms.old doms.new }
    ensures dead { result ≡ Alive.No → RunsEmpty (conditions cons.now) doms.old }
{
    if doms.has_empty() {
        return Alive::No;
    }
    let changed = first_changed(cons, plan, doms, cons.lang.n());
    propagate_after(cons, plan, doms, changed)
}
