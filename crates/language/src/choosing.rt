ghost use Rattle.std.specs.Prelude.{◌≡◌, ◌≢◌, ℕ, ◌≤◌, ◌<◌, ◌^◌, ◌∷◌, ◌+◌, ◌++◌, ◌==◌, [], length};
ghost use Rattle.std.specs.Prelude.{map, All, IfOk, IfErr, OnOk, if◌then◌else◌};
ghost use Rattle.std.specs.List.{flat_map, list_any};
ghost use Rattle.language.specs.Inside.{given_by};
ghost use Rattle.language.specs.Scopes.{variables_in};
ghost use Rattle.language.specs.Building.{rising_lists, all_scopes, has_arity};
ghost use Rattle.language.specs.Choosing.{choices, past, longer_by};

use crate::parts::{LangFault, RelPart};
use crate::scopes::{MOST_SCOPES, Scope};
use std::alloc::{AllocError, Global};

/// Whether one of the relations has this arity.
fn is_used(rels: &[RelPart], arity: u8) -> bool
    ensures { result ≡ list_any (λ part. part.table.arity == arity) rels.now }
{
    rels.iter().any(|rel| rel.table.arity() == arity)
}

/// Whether some relation has this arity.
pub(crate) fn has_arity(rels: &[RelPart], arity: u8) -> bool
    ensures { result ≡ has_arity (map given_by rels.now) arity }
{
    is_used(rels, arity)
}

/// How many sets of 1, 2, 3 and 4 variables n variables have, by Pascal's rule.
fn choices(n: u8) -> [u32; 4]
    requires { n ≤ 128 }
    ensures is { result ≡ choices n 1 ∷ choices n 2 ∷ choices n 3 ∷ choices n 4 ∷ [] }
{
    let mut ones = 0;
    let mut pairs = 0;
    let mut triples = 0;
    let mut fours = 0;
    for _ in 0..n {
        fours += triples;
        triples += pairs;
        pairs += ones;
        ones += 1;
    }
    [ones, pairs, triples, fours]
}

/// So many if some relation has this arity.
fn where_used(rels: &[RelPart], arity: u8, count: u32) -> u32
    ensures { result ≡ (if has_arity (map given_by rels.now) arity then count else 0) }
{
    if has_arity(rels, arity) { count } else { 0 }
}

/// How many scopes there are where all are taken.
fn count_all(n: u8, rels: &[RelPart]) -> u32
    requires { n ≤ 128 }
    ensures { result ≡ length (all_scopes n (map given_by rels.now)) }
{
    let [ones, pairs, triples, fours] = choices(n);
    where_used(rels, 1, ones)
        + where_used(rels, 2, pairs)
        + where_used(rels, 3, triples)
        + where_used(rels, 4, fours)
}

/// The variable after the last one, and the first where there is none.
fn first_past(scope: Scope, n: u8) -> u8
    requires short { scope.size ≤ 4 }
    requires known { All (λ v. v < n) (variables_in scope) }
    requires few { n ≤ 128 }
    ensures { result ≡ past 0 (variables_in scope) }
{
    if scope.size == 0 {
        0
    } else {
        scope.variables[scope.size as usize - 1] + 1
    }
}

/// The list with a variable more.
fn with_last(mut scope: Scope, v: u8) -> Scope
    requires { scope.size ≤ 3 }
    ensures is { variables_in result ≡ variables_in scope ++ v ∷ [] }
    ensures size { result.size ≡ scope.size + 1 }
{
    scope.variables[scope.size as usize] = v;
    scope.size += 1;
    scope
}

/// Adds a list with each later variable.
fn with_longer(mut longer: Vec<Scope>, scope: Scope, n: u8) -> Result<Vec<Scope>, AllocError>
    requires short { scope.size ≤ 3 }
    requires known { All (λ v. v < n) (variables_in scope) }
    requires few { n ≤ 128 }
    ensures is { IfOk result (λ v. map variables_in v.items ≡ map variables_in longer.items
        ++ longer_by n 0 (variables_in scope)) }
    ensures size { IfOk result (λ v. All (λ s. s.size ≡ scope.size + 1) longer.items →
        All (λ s. s.size ≡ scope.size + 1) v.items) }
{
    for v in first_past(scope, n)..n {
        longer.push(with_last(scope, v))?;
    }
    Ok(longer)
}

/// The lists that have one variable more, in lexicographic order if these are.
fn one_longer(alloc: Global, n: u8, scopes: &[Scope], size: u8) -> Result<Vec<Scope>, AllocError>
    requires few { n ≤ 128 }
    requires short { size ≤ 3 }
    requires sized { All (λ s. s.size ≡ size) scopes.now }
    requires known { All (All (λ v. v < n)) (map variables_in scopes.now) }
    ensures is { IfOk result
        (λ v. map variables_in v.items ≡ flat_map (longer_by n 0) (map variables_in scopes.now)) }
    ensures sized { IfOk result (λ v. All (λ s. s.size ≡ size + 1) v.items) }
{
    let mut longer = Vec::new(alloc);
    for scope in scopes {
        longer = with_longer(longer, *scope, n)?;
    }
    Ok(longer)
}

/// All rising lists of so many of n variables, in lexicographic order.
fn rising_scopes(alloc: Global, n: u8, size: u8) -> Result<Vec<Scope>, AllocError>
    requires few { n ≤ 128 }
    requires short { size ≤ 4 }
    ensures is { IfOk result (λ v. map variables_in v.items ≡ rising_lists n size) }
    ensures sized { IfOk result (λ v. All (λ s. s.size ≡ size) v.items) }
{
    let mut scopes = Vec::new(alloc);
    scopes.push(Scope {
        size: 0,
        variables: [0; 4],
    })?;
    for shorter in 0..size {
        scopes = one_longer(alloc, n, &scopes, shorter)?;
    }
    Ok(scopes)
}

/// Adds all scopes of an arity, if some relation has it.
fn with_arity(
    mut scopes: Vec<Scope>,
    alloc: Global,
    n: u8,
    rels: &[RelPart],
    arity: u8,
) -> Result<Vec<Scope>, AllocError>
    requires few { n ≤ 128 }
    requires some { 1 ≤ arity }
    requires short { arity ≤ 4 }
    requires sized { All (λ s. (1 ≤ s.size) × (s.size ≤ 4)) scopes.items }
    ensures is { IfOk result (λ v. map variables_in v.items ≡ map variables_in scopes.items
        ++ (if has_arity (map given_by rels.now) arity then rising_lists n arity else [])) }
    ensures sized { IfOk result (λ v. All (λ s. (1 ≤ s.size) × (s.size ≤ 4)) v.items) }
{
    if has_arity(rels, arity) {
        let more = rising_scopes(alloc, n, arity)?;
        scopes.extend_from_slice(&more)?;
    }
    Ok(scopes)
}

/// Each arity's, in turn.
fn each_arity(alloc: Global, n: u8, rels: &[RelPart]) -> Result<Vec<Scope>, AllocError>
    requires { n ≤ 128 }
    ensures is { IfOk result
        (λ v. map variables_in v.items ≡ all_scopes n (map given_by rels.now)) }
    ensures sized { IfOk result (λ v. All (λ s. (1 ≤ s.size) × (s.size ≤ 4)) v.items) }
{
    let mut scopes = Vec::new(alloc);
    for arity in 1..=4 {
        scopes = with_arity(scopes, alloc, n, rels, arity)?;
    }
    Ok(scopes)
}

/// All scopes of the arities that the relations have. They are counted before any is made.
pub(crate) fn all_scopes(alloc: Global, n: u8, rels: &[RelPart]) -> Result<Vec<Scope>, LangFault>
    requires { n ≤ 128 }
    ensures is { IfOk result
        (λ v. map variables_in v.items ≡ all_scopes n (map given_by rels.now)) }
    ensures sized { IfOk result (λ v. All (λ s. (1 ≤ s.size) × (s.size ≤ 4)) v.items) }
    ensures few { OnOk result (length (all_scopes n (map given_by rels.now)) ≤ 8192) }
    ensures many { IfErr result (λ e. e ≢ LangFault.Memory →
        (e ≡ LangFault.TooManyScopes) × (8192 < length (all_scopes n (map given_by rels.now)))) }
{
    if count_all(n, rels) as usize > MOST_SCOPES {
        return Err(LangFault::TooManyScopes);
    }
    Ok(each_arity(alloc, n, rels)?)
}
