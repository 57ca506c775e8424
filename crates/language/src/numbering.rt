//! The numbers of candidates, and of the tables of their relations.

ghost use Rattle.std.specs.Prelude.{◌≡◌, ℕ, ◌-◌, ◌^◌, ◌≤◌, [], length, map, slice_index_or, All};
ghost use Rattle.std.specs.Prelude.{IfOk, OnOk};
ghost use Rattle.language.specs.Scopes.{variables_in};
ghost use Rattle.language.specs.Language.{IsScope};
ghost use Rattle.language.specs.Building.{IsOver};
ghost use Rattle.language.specs.Inside.{given_by};
ghost use Rattle.language.specs.Built.{AreRanges, AreAll, IsClosedOf};

use crate::narrow::{have_same_ranges, numbers_on};
use crate::parts::RelPart;
use crate::ranges::ValueRange;
use crate::scopes::Scope;
use rel_table::{Closed, Memory};
use std::alloc::Global;

/// The candidates' tables.
#[derive(Drop)]
pub(crate) struct Numbers {
    /// For each candidate the number of its relation's table, among those of its arity.
    pub(crate) on: Vec<u8>,
    /// For each scope the number of its first candidate, and how many candidates there are last.
    pub(crate) starts: Vec<u32>,
}

/// The tables of the relations on each scope.
pub(crate) fn numbers_of(
    alloc: Global,
    ranges: &[ValueRange],
    d: u8,
    rels: &[RelPart],
    scopes: &[Scope],
    relations: &Closed,
) -> Result<Numbers, Memory>
    requires ranges { AreRanges d ranges.now }
    requires over { All (IsOver d) rels.now }
    requires sized { All (λ (scope : Scope). (1 ≤ scope.size) × (scope.size ≤ 4)) scopes.now }
    requires lawful { All (IsScope (length ranges.now)) (map variables_in scopes.now) }
    requires fits { All (λ scope. d ^ length scope ≤ 65536) (map variables_in scopes.now) }
    requires few { length scopes.now ≤ 8192 }
    requires closed { (arity : ℕ) → 1 ≤ arity → arity ≤ 4 →
        IsClosedOf d arity (map given_by rels.now) (slice_index_or relations.now (arity - 1) []) }
    ensures all { IfOk result (λ by. AreAll ranges.now d
        (map given_by rels.now) relations.now scopes.now by.on.items by.starts.items) }
    ensures sized { OnOk result
        (All (λ (scope : Scope). length (variables_in scope) ≡ scope.size) scopes.now) }
{
    let mut on = Vec::new(alloc);
    let mut starts = Vec::with_capacity(alloc, scopes.len() + 1)?;
    starts.push(0)?;
    let mut before: &[u8] = &[];
    let mut numbers = Vec::new(alloc);
    for scope in scopes {
        let variables = scope.as_slice();
        let tables = relations.list(variables.len() as u8);
        // One scope after another mostly has the same ranges, and so the same tables.
        if !have_same_ranges(ranges, before, variables) {
            numbers = numbers_on(alloc, ranges, d, rels, tables, variables)?;
        }
        on.extend_from_slice(&numbers)?;
        starts.push(on.len() as u32)?;
        before = variables;
    }
    Ok(Numbers { on, starts })
}
