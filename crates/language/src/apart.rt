ghost use Rattle.std.specs.Prelude.{◌≡◌, ◌≢◌, true, ℕ, ◌≤◌, ◌<◌, ◌^◌, Some, None, length, map};
ghost use Rattle.std.specs.Prelude.{position, not, nat_eq, All, IfOk, IfErr, IfSome, OnOk, List};
ghost use Rattle.std.specs.Cmp.Lexicographic.{pointwise};
ghost use Rattle.assign.specs.Sets.{IsSet, is_same};
ghost use Rattle.language.specs.Inside.{given_by};
ghost use Rattle.language.specs.Scopes.{variables_in};
ghost use Rattle.language.specs.Building.{are_nested, digits, first_pair, has_arity};
ghost use Rattle.language.specs.Building.{scope_list_refusal};

use crate::choosing::has_arity;
use crate::parts::{LangFault, RelPart};
use crate::scopes::{Scope, set_of};
use assign::VarSet;
use std::alloc::{AllocError, Global};

/// The variables of each scope, as a set.
pub(crate) fn sets_of(alloc: Global, scopes: &[Scope]) -> Result<Vec<VarSet>, AllocError>
    requires sized { All (λ scope. scope.size ≤ 4) scopes.now }
    requires sets { All IsSet (map variables_in scopes.now) }
    ensures { IfOk result (λ v. v.items ≡ map variables_in scopes.now) }
{
    let mut sets = Vec::with_capacity(alloc, scopes.len())?;
    for scope in scopes {
        sets.push(set_of(scope.as_slice()))?;
    }
    Ok(sets)
}

/// The first of the sets that is the same as this one.
fn same_before(sets: &[VarSet], set: VarSet) -> Option<usize>
    ensures { result ≡ position (λ earlier. pointwise nat_eq earlier set) sets.now }
{
    sets.iter().position(|earlier| *earlier == set)
}

/// The first of the sets that lies within this one, or this one within it.
fn nested_before(sets: &[VarSet], set: VarSet) -> Option<usize>
    ensures { result ≡ position (λ earlier. are_nested earlier set) sets.now }
{
    sets.iter()
        .position(|earlier| earlier.within(set) || set.within(*earlier))
}

/// The members as the digits of one number, of which the last 32 bits are taken.
fn number_in(set: VarSet) -> u32
    ensures { result ≡ digits 0 set }
{
    let mut number = 0u32;
    let mut rest = set;
    while rest.len() != 0 {
        let Some(v) = rest.least() else {
            unreachable!()
        };
        number = number.wrapping_mul(128).wrapping_add(u32::from(v));
        rest = rest.without(v);
    }
    number
}

/// Whether the sets are seen at once to be apart: they have as many members each, and their numbers
/// rise. So it is with all scopes of one length, which are too many to be compared in pairs.
fn are_in_order(sets: &[VarSet]) -> bool
    ensures { result ≡ true → first_pair are_nested sets.now ≡ None }
{
    let size = match sets.first() {
        Some(first) => first.len(),
        None => 0,
    };
    let mut next = 0u64;
    for j in 0..sets.len() {
        let set = sets[j];
        let number = u64::from(number_in(set));
        if set.len() != size || number < next {
            return false;
        }
        next = number + 1;
    }
    true
}

/// The first set that is the same as one before it: the number of that one, and its own.
fn first_repeated(sets: &[VarSet]) -> Option<(usize, usize)>
    ensures is { result ≡ first_pair is_same sets.now }
    ensures low { IfSome result (λ pair. pair.0 < length sets.now) }
    ensures high { IfSome result (λ pair. pair.1 < length sets.now) }
{
    for j in 0..sets.len() {
        if let Some(i) = same_before(&sets[..j], sets[j]) {
            return Some((i, j));
        }
    }
    None
}

/// The first set that lies within one before it, or that one within it: the number of that one, and
/// its own.
fn first_nested(sets: &[VarSet]) -> Option<(usize, usize)>
    ensures is { result ≡ first_pair are_nested sets.now }
    ensures low { IfSome result (λ pair. pair.0 < length sets.now) }
    ensures high { IfSome result (λ pair. pair.1 < length sets.now) }
{
    if are_in_order(sets) {
        return None;
    }
    for j in 0..sets.len() {
        if let Some(i) = nested_before(&sets[..j], sets[j]) {
            return Some((i, j));
        }
    }
    None
}

/// The first set of so many variables as no relation has places.
fn first_unused(rels: &[RelPart], sets: &[VarSet]) -> Option<usize>
    ensures { result
        ≡ position (λ scope. not (has_arity (map given_by rels.now) (length scope))) sets.now }
{
    sets.iter().position(|set| !has_arity(rels, set.len()))
}

/// Why these scopes can't stand side by side, or why one of them has no relation.
pub(crate) fn refusal_of(rels: &[RelPart], sets: &[VarSet]) -> Option<LangFault>
    requires { length sets.now ≤ 8192 }
    ensures { result ≡ scope_list_refusal (map given_by rels.now) sets.now }
{
    // A set that stands twice lies within itself. So where none is nested, none is repeated, and
    // the sets were gone over once.
    if let Some((i, j)) = first_nested(sets) {
        return match first_repeated(sets) {
            Some((i, j)) => Some(LangFault::ScopeRepeated(i as u32, j as u32)),
            None => Some(LangFault::Nested(i as u32, j as u32)),
        };
    }
    let unused = first_unused(rels, sets)?;
    Some(LangFault::NoRelationOfArity(unused as u32))
}
