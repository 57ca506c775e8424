ghost use Rattle.std.specs.Prelude.{◌≡◌, ◌<◌, ◌≤◌, ℕ, List, [], ◌∷◌, true, false, All, IfSome};
ghost use Rattle.std.specs.Prelude.{None, length, map, take, slice_index_or};
ghost use Rattle.std.specs.List.{list_any};
ghost use Rattle.assign.specs.Sets.{has, ones_of};
ghost use Rattle.language.specs.Language.{IsLanguage, IsCandidate};
ghost use Rattle.propagators.specs.Allowed.{AreConstraints};
ghost use Rattle.propagators.specs.Families.{Arc, arc_of, conditions};
ghost use Rattle.propagators.specs.Supports.{AreBelow, AreDifferent, IsFamilyOf, IsRevised, IsDead};
ghost use Rattle.propagators.specs.Supports.{IsCutAt, replaced};
ghost use Rattle.propagators.specs.Loose.{IsBounded};
ghost use Rattle.propagators.specs.Briefs.{by_pair, arc_by};
ghost use Rattle.rel_table.specs.Relation.{Relation};
ghost use Rattle.language.specs.Pairs.{ArePairTables, IsPairTable};
ghost use Rattle.propagators.specs.Propagated.{IsSettledBut, IsPropagated, RunsEmpty, IsPassed};

use crate::briefs::Pair;
use crate::constraints::Constraints;
use crate::domains::Domains;
use crate::supports::{in_pair, supported};
use crate::values::is_empty;
use crate::waiting::Waiting;
use assign::VarSet;
use language::{Candidate, Language};

/// Whether each variable has a value left.
#[derive(Clone, Copy, Debug, PartialEq, Eq)]
pub enum Alive {
    /// Each has one, in the largest arc-consistent subfamily.
    Yes,
    /// In that subfamily some variable has none.
    No,
}

/// Whether some variable of a scope is a member of a set.
#[inline]
pub(crate) fn touches(scope: &[u8], set: Waiting) -> bool
    requires { All (λ v. v < 128) scope.now }
    ensures { result ≡ list_any (has set) scope.now }
{
    for v in scope {
        if set.has(*v) {
            return true;
        }
    }
    false
}

/// Leaves a scope's variables these of their values, and says which of them had others.
fn cut_all(doms: &mut Domains, scope: &[u8], found: &[u64; 4]) -> Waiting
    requires short { length scope.now ≤ 4 }
    requires known { All (λ v. v < length doms.old) scope.now }
    requires few { length doms.old ≤ 128 }
    requires different { AreDifferent scope.now }
    requires within { (j x : ℕ) → j < length scope.now →
        has (ones_of (slice_index_or found.now j 0)) x ≡ true →
        has (slice_index_or doms.old (slice_index_or scope.now j 0) []) x ≡ true }
    ensures is { doms.new
        ≡ replaced scope.now (take (length scope.now) (map ones_of found.now)) doms.old }
    ensures cut { IsCutAt result doms.old doms.new }
{
    let mut changed = Waiting::empty();
    for j in 0..scope.len() {
        if doms.cut(scope[j], found[j]) {
            changed = changed.with(scope[j]);
        }
    }
    changed
}

/// Takes away the values of a scope that the candidate doesn't support, where it is to hold, or not
/// to hold. Says which variables lost some; `None` where no tuple is left.
pub(crate) fn revise(
    lang: &Language,
    c: Candidate,
    holding: bool,
    doms: &mut Domains,
) -> Option<Waiting>
    requires lawful { IsLanguage lang.now }
    requires candidate { IsCandidate lang.now c }
    requires family { IsFamilyOf lang.now doms.old }
    ensures revised { IfSome result
        (λ changed. IsRevised (arc_of lang.now c holding) doms.old doms.new) }
    ensures cut { IfSome result (λ changed. IsCutAt changed doms.old doms.new) }
    ensures dead { result ≡ None → IsDead (arc_of lang.now c holding) doms.old }
{
    let scope = lang.scope(c.scope);
    let found = supported(lang.table_on(c.scope, c.rel), holding, &doms.on(scope));
    if is_empty(found[0]) {
        return None;
    }
    Some(cut_all(doms, scope, &found))
}

/// `revise` for a condition on two variables, by the masks of its relation.
pub(crate) fn revise_pair(lang: &Language, pair: Pair, doms: &mut Domains) -> Option<Waiting>
    requires lawful { IsLanguage lang.now }
    requires table { IsPairTable lang.now pair.table }
    requires first { pair.first < length doms.old }
    requires second { pair.second < length doms.old }
    requires apart { AreDifferent (pair.first ∷ pair.second ∷ []) }
    requires few { length doms.old ≤ 128 }
    ensures revised { IfSome result (λ changed. (pairs : List Relation) → ArePairTables lang.now
        pairs → IsBounded lang.now.value_count (by_pair lang.now pairs pair) pair.bounds →
        ((v : ℕ) → AreBelow lang.now.value_count (slice_index_or doms.old v [])) →
        IsRevised (arc_by lang.now pairs pair) doms.old doms.new) }
    ensures cut { IfSome result (λ changed. IsCutAt changed doms.old doms.new) }
    ensures dead { result ≡ None → (pairs : List Relation) → ArePairTables lang.now pairs →
        IsBounded lang.now.value_count (by_pair lang.now pairs pair) pair.bounds →
        ((v : ℕ) → AreBelow lang.now.value_count (slice_index_or doms.old v [])) →
        IsDead (arc_by lang.now pairs pair) doms.old }
{
    let scope = [pair.first, pair.second];
    let sets = doms.on(&scope);
    let found = in_pair(lang, pair, sets[0], sets[1]);
    if is_empty(found.0) {
        return None;
    }
    Some(cut_all(doms, &scope, &[found.0, found.1, 0, 0]))
}

/// Goes once through the conditions that have a changed variable. Says which variables lost values;
/// `None` where some variable has none left in an arc-consistent subfamily.
fn pass(cons: &Constraints, doms: &mut Domains, changed: Waiting) -> Option<Waiting>
    requires lawful { IsLanguage cons.now.lang.now }
    requires constraints { AreConstraints cons.now.lang.now cons.now.list.now cons.now.against }
    requires doms { IsSettledBut cons.now.lang.now (conditions cons.now) changed doms.old }
    ensures passed { IfSome result (λ next. IsPassed (conditions cons.now) next doms.old doms.new) }
    ensures dead { result ≡ None → RunsEmpty (conditions cons.now) doms.old }
{
    let mut next = Waiting::empty();
    for i in 0..cons.count() {
        let (c, holding) = cons.condition(i);
        if touches(cons.lang.scope(c.scope), changed.union(next)) {
            match revise(cons.lang, c, holding, doms) {
                None => return None,
                Some(lost) => next = next.union(lost),
            }
        }
    }
    Some(next)
}

/// Goes through the conditions until none takes a value away. At first each condition is consistent
/// that has none of the changed variables, and no set is empty.
pub(crate) fn settle(cons: &Constraints, doms: &mut Domains, changed: Waiting) -> Alive
    requires lawful { IsLanguage cons.now.lang.now }
    requires constraints { AreConstraints cons.now.lang.now cons.now.list.now cons.now.against }
    requires doms { IsSettledBut cons.now.lang.now (conditions cons.now) changed doms.old }
    ensures alive { result ≡ Alive.Yes →
        IsPropagated cons.now.lang.now (conditions cons.now) doms.old doms.new }
    ensures dead { result ≡ Alive.No → RunsEmpty (conditions cons.now) doms.old }
{
    let mut changed = changed;
    while !changed.is_empty() {
        match pass(cons, doms, changed) {
            None => return Alive::No,
            Some(next) => changed = next,
        }
    }
    Alive::Yes
}

/// Takes away the values that no arc-consistent subfamily has, until what is left is the largest
/// one.
///
/// `No` exactly where some variable has no value there; the domains are then of no further use.
/// Takes no memory.
pub fn propagate(cons: &Constraints, doms: &mut Domains) -> Alive
    requires constraints { AreConstraints cons.now.lang.now cons.now.list.now cons.now.against }
    requires family { IsFamilyOf cons.now.lang.now doms.old }
    ensures alive { result ≡ Alive.Yes →
        IsPropagated cons.now.lang.now (conditions cons.now) doms.old doms.new }
    ensures dead { result ≡ Alive.No → RunsEmpty (conditions cons.now) doms.old }
{
    if doms.has_empty() {
        return Alive::No;
    }
    settle(cons, doms, Waiting::of(VarSet::all(cons.lang.n())))
}
