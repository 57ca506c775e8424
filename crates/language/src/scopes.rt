ghost use Rattle.std.specs.Prelude.{◌≡◌, ◌≢◌, ℕ, ◌≤◌, ◌<◌, ◌^◌, Some, None, length, map, take};
ghost use Rattle.std.specs.Prelude.{IsTrue, position, not, List, All, IfOk, IfErr, OnOk};
ghost use Rattle.assign.specs.Sets.{IsSet};
ghost use Rattle.language.specs.Inside.{given_by};
ghost use Rattle.language.specs.Scopes.{variables_in};
ghost use Rattle.language.specs.Language.{Given};
ghost use Rattle.language.specs.Building.{is_ordered, scopes_of, scopes_refusal, listed_in};
ghost use Rattle.language.specs.Building.{AreKnown, AreCountable};
ghost use Rattle.language.specs.Built.{AreScopes};

use crate::apart::{refusal_of, sets_of};
use crate::choosing::all_scopes;
use crate::parts::{LangFault, RelPart, ScopePart};
use assign::VarSet;
use smallvec::SmallVec;
use std::alloc::{AllocError, Global};

/// The most scopes that a language has.
pub(crate) const MOST_SCOPES: usize = 8192;

/// The variables of a scope.
#[derive(Clone, Copy, Debug)]
pub(crate) struct Scope {
    pub(crate) size: u8,
    /// In vocabulary order; those from `size` on have no meaning.
    pub(crate) variables: [u8; 4],
}

impl Scope {
    /// The variables, in vocabulary order.
    pub(crate) fn as_slice(&self) -> &[u8]
        requires { self.now.size ≤ 4 }
        ensures is { result.now ≡ variables_in self.now }
        ensures size { length result.now ≡ self.now.size }
    {
        &self.variables[..self.size as usize]
    }
}

/// The variables of a scope, as a set.
pub(crate) fn set_of(variables: &[u8]) -> VarSet
    requires { IsSet variables.now }
    ensures { result ≡ variables.now }
{
    let mut set = VarSet::empty();
    for v in variables {
        set = set.with(*v);
    }
    set
}

/// Whether there are 1 to 4 variables, strictly rising.
fn is_ordered(variables: &[u8]) -> bool
    ensures { result ≡ is_ordered variables.now }
{
    match *variables {
        [_] => true,
        [a, b] => a < b,
        [a, b, c] => a < b && b < c,
        [a, b, c, d] => a < b && b < c && c < d,
        _ => false,
    }
}

/// The scope of these variables, which are in order.
fn to_scope(variables: &[u8]) -> Scope
    requires { IsTrue (is_ordered variables.now) }
    ensures is { variables_in result ≡ variables.now }
    ensures some { 1 ≤ result.size }
    ensures few { result.size ≤ 4 }
{
    let mut places = [0; 4];
    places[..variables.len()].copy_from_slice(variables);
    Scope {
        size: variables.len() as u8,
        variables: places,
    }
}

/// Copies of scopes that are in order.
fn copies(alloc: Global, listed: &[SmallVec<u8, 4>]) -> Result<Vec<Scope>, AllocError>
    requires { All (λ scope. IsTrue (is_ordered scope.items)) listed.now }
    ensures is { IfOk result
        (λ v. map variables_in v.items ≡ map (λ scope. scope.items) listed.now) }
    ensures sized { IfOk result (λ v. All (λ scope. (1 ≤ scope.size) × (scope.size ≤ 4)) v.items) }
{
    let mut scopes = Vec::with_capacity(alloc, listed.len())?;
    for scope in listed {
        scopes.push(to_scope(scope.as_slice()))?;
    }
    Ok(scopes)
}

/// The first scope that isn't in order.
fn first_unordered(listed: &[SmallVec<u8, 4>]) -> Option<usize>
    ensures { result ≡ position (λ scope. not (is_ordered scope.items)) listed.now }
{
    listed
        .iter()
        .position(|scope| !is_ordered(scope.as_slice()))
}

/// Copies of the listed scopes, each of which must be in order.
fn listed_scopes(alloc: Global, listed: &[SmallVec<u8, 4>]) -> Result<Vec<Scope>, LangFault>
    requires { length listed.now < 2 ^ 32 }
    ensures is { IfOk result
        (λ v. map variables_in v.items ≡ map (λ scope. scope.items) listed.now) }
    ensures sized { IfOk result (λ v. All (λ scope. (1 ≤ scope.size) × (scope.size ≤ 4)) v.items) }
    ensures few { OnOk result (length listed.now ≤ 8192) }
    ensures ordered { OnOk result (position (λ scope. not (is_ordered scope))
        (map (λ scope. scope.items) listed.now) ≡ None) }
    ensures refused { IfErr result (λ e. e ≢ LangFault.Memory → (given : List Given) →
        scopes_refusal given (map (λ scope. scope.items) listed.now) ≡ Some e) }
{
    if let Some(i) = first_unordered(listed) {
        return Err(LangFault::ScopeOrder(i as u32));
    }
    if listed.len() > MOST_SCOPES {
        return Err(LangFault::TooManyScopes);
    }
    Ok(copies(alloc, listed)?)
}

/// The scopes of a part, each in order, and not too many.
fn scopes_in(
    alloc: Global,
    n: u8,
    rels: &[RelPart],
    part: &ScopePart,
) -> Result<Vec<Scope>, LangFault>
    requires few { n ≤ 128 }
    requires countable { AreCountable (listed_in part.now) }
    ensures is { IfOk result
        (λ v. map variables_in v.items ≡ scopes_of n (map given_by rels.now) (listed_in part.now)) }
    ensures sized { IfOk result (λ v. All (λ scope. (1 ≤ scope.size) × (scope.size ≤ 4)) v.items) }
    ensures few { OnOk result
        (length (scopes_of n (map given_by rels.now) (listed_in part.now)) ≤ 8192) }
    ensures ordered { OnOk result (position (λ scope. not (is_ordered scope))
        (scopes_of n (map given_by rels.now) (listed_in part.now)) ≡ None) }
    ensures refused { IfErr result (λ e. let given = map given_by rels.now in e ≢ LangFault.Memory →
        scopes_refusal given (scopes_of n given (listed_in part.now)) ≡ Some e) }
{
    match part {
        ScopePart::All => all_scopes(alloc, n, rels),
        ScopePart::Listed(listed) => listed_scopes(alloc, listed),
    }
}

/// The scopes that are stated, each copied into fixed room, so that threads share no list of their
/// own.
pub(crate) fn stated_scopes(
    alloc: Global,
    n: u8,
    rels: &[RelPart],
    part: ScopePart,
) -> Result<Vec<Scope>, LangFault>
    requires few { n ≤ 128 }
    requires known { AreKnown n (listed_in part) }
    requires countable { AreCountable (listed_in part) }
    ensures is { IfOk result
        (λ v. map variables_in v.items ≡ scopes_of n (map given_by rels.now) (listed_in part)) }
    ensures sound { IfOk result (λ v. AreScopes n (map given_by rels.now) v.items) }
    ensures made { OnOk result (let given = map given_by rels.now in
        scopes_refusal given (scopes_of n given (listed_in part)) ≡ None) }
    ensures refused { IfErr result (λ e. let given = map given_by rels.now in e ≢ LangFault.Memory →
        scopes_refusal given (scopes_of n given (listed_in part)) ≡ Some e) }
{
    let scopes = scopes_in(alloc, n, rels, &part)?;
    let sets = sets_of(alloc, &scopes)?;
    match refusal_of(rels, &sets) {
        Some(fault) => Err(fault),
        None => Ok(scopes),
    }
}
