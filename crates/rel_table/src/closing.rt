//! Closing relations under intersection.

ghost use Rattle.std.specs.Prelude.{◌≡◌, ◌≢◌, ℕ, ◌-◌, ◌^◌, ◌≤◌, ◌++◌, ◌∷◌, List, [], length, map};
ghost use Rattle.std.specs.Prelude.{take, drop, slice_index_or, All, Contains, IfOk, IfErr, OnOk};
ghost use Rattle.std.specs.Prelude.{IfSome, None};
ghost use Rattle.rel_table.specs.Relation.{Relation, meet, IsClosing};
ghost use Rattle.rel_table.specs.Table.{TruthTable, IsTable};
ghost use Rattle.rel_table.specs.InOrder.{Above, IsBelow, IsInOrder, Overflows};
ghost use Rattle.rel_table.specs.Closing.{relations_in, relations_of, IsOfKind, IsClosed};
ghost use Rattle.rel_table.specs.Closing.{HasTooMany, IsRefused};

use crate::table::{CloseFault, Memory, Table};
use std::alloc::Global;
use std::marker::Model;

/// The most relations of one arity.
const MOST_RELATIONS: usize = 64;

/// All intersections of some tables, in a list for each arity.
#[derive(Drop)]
pub struct Closed {
    /// Four lists, for the arities 1, 2, 3 and 4.
    lists: Vec<Vec<Table>>,
}

impl Model for Closed {
    ghost use Rattle.std.specs.Prelude.{List};
    ghost use Rattle.rel_table.specs.Table.{TruthTable};

    ghost Value = { List (List TruthTable) };

    ghost use Rattle.rel_table.specs.InsideClosed.{lists_in, AreFour};

    ghost view = { lists_in };

    ghost invariant = { AreFour };
}

impl Closed {
    /// The intersections of this arity, in falling order of their truth values. Takes no memory.
    pub fn list(&self, arity: u8) -> &[Table]
        requires some { 1 ≤ arity }
        requires short { arity ≤ 4 }
        ensures { result.now ≡ slice_index_or self.now (arity - 1) [] }
    {
        &self.lists[(arity - 1) as usize]
    }
}

/// All intersections of one or more of these tables, each once, for each arity in falling order of
/// their truth values: of two tables that one comes first which has the first tuple in which they
/// differ.
///
/// `TooMany` names the least arity that has more than 64; it is refused as soon as the 65th is
/// found. The tables are taken in one after another, each with its intersections with all that were
/// found before, so no list of tables is gone through.
pub fn close(alloc: Global, file: &[Table]) -> Result<Closed, CloseFault>
    ghost d: { ℕ }
    requires values { All (λ (t : TruthTable). t.value_count ≡ d) file.now }
    ensures closed { IfOk result (λ lists. (arity : ℕ) → 1 ≤ arity → arity ≤ 4 →
        IsClosed arity d file.now (slice_index_or lists (arity - 1) [])) }
    ensures four { IfOk result (λ lists. length lists ≡ 4) }
    ensures refused { IfErr result (λ e. IsRefused file.now e) }
    ensures exact { OnOk result ((arity : ℕ) → 1 ≤ arity → arity ≤ 4 →
        HasTooMany (relations_of arity file.now) → ⊥) }
{
    let mut lists = Vec::new(alloc);
    for arity in 1..5 {
        let list = close_arity(alloc, file, arity)?;
        lists = add_item(lists, list)?;
    }
    Ok(Closed { lists })
}

/// The intersections of the tables of one arity.
fn close_arity(alloc: Global, file: &[Table], arity: u8) -> Result<Vec<Table>, CloseFault>
    ghost d: { ℕ }
    requires values { All (λ (t : TruthTable). t.value_count ≡ d) file.now }
    ensures closed { IfOk result (λ v. IsClosed arity d file.now v.items) }
    ensures refused { IfErr result (λ e. e ≢ CloseFault.Memory → e ≡ CloseFault.TooMany arity) }
    ensures many { IfErr result (λ e. e ≢ CloseFault.Memory →
        HasTooMany (relations_of arity file.now)) }
{
    let mut closed = Vec::new(alloc);
    for table in file {
        if table.arity() == arity {
            closed = with_meets(alloc, closed, table)?;
        }
    }
    Ok(closed)
}

/// Takes one more table in: puts it and its intersections with all of these among them.
fn with_meets(alloc: Global, closed: Vec<Table>, table: &Table) -> Result<Vec<Table>, CloseFault>
    requires size { length table.now.truth ≡ table.now.value_count ^ table.now.arity }
    requires kinds { All (IsOfKind table.now.arity table.now.value_count) closed.items }
    requires few { length closed.items ≤ 64 }
    ensures closing { IfOk result (λ v. (file : List Relation) →
        IsClosing file (relations_in closed.items) →
        IsClosing (file ++ table.now.truth ∷ []) (relations_in v.items)) }
    ensures kinds { IfOk result
        (λ v. All (IsOfKind table.now.arity table.now.value_count) v.items) }
    ensures few { IfOk result (λ v. length v.items ≤ 64) }
    ensures refused { IfErr result (λ e. e ≢ CloseFault.Memory →
        e ≡ CloseFault.TooMany table.now.arity) }
    ensures many { IfErr result (λ e. e ≢ CloseFault.Memory → (file : List Relation) →
        IsClosing file (relations_in closed.items) → HasTooMany (file ++ table.now.truth ∷ [])) }
{
    let meets = meets_with(alloc, &closed, table)?;
    let mut grown = closed;
    for meet in &meets {
        grown = with_relation(alloc, grown, meet)?;
    }
    Ok(grown)
}

/// The intersection of each of these with a table, and the table.
fn meets_with(alloc: Global, closed: &[Table], table: &Table) -> Result<Vec<Table>, Memory>
    requires size { length table.now.truth ≡ table.now.value_count ^ table.now.arity }
    requires kinds { All (IsOfKind table.now.arity table.now.value_count) closed.now }
    ensures meets { IfOk result (λ v. relations_in v.items
        ≡ map (λ r. meet r table.now.truth) (relations_in closed.now) ++ table.now.truth ∷ []) }
    ensures kinds { IfOk result
        (λ v. All (IsOfKind table.now.arity table.now.value_count) v.items) }
{
    let mut meets = Vec::new(alloc);
    for other in closed {
        let both = other.meet(alloc, table)?;
        meets = add_item(meets, both)?;
    }
    // A relation meets itself in itself.
    let copy = table.meet(alloc, table)?;
    add_item(meets, copy)
}

/// One more at the end.
fn add_item<T: Drop>(mut items: Vec<T>, item: T) -> Result<Vec<T>, Memory>
    ensures { IfOk result (λ v. v.items ≡ items.items ++ item ∷ []) }
{
    items.push(item)?;
    Ok(items)
}

/// How many of these relations, which stand in falling order, come before another; None where it is
/// one of them.
fn place_among(ordered: &[Table], table: &Table) -> Option<usize>
    requires kinds { All (IsOfKind table.now.arity table.now.value_count) ordered.now }
    ensures there { result ≡ None → Contains (relations_in ordered.now) table.now.truth }
    ensures within { IfSome result (λ at. at ≤ length ordered.now) }
    ensures before { IfSome result
        (λ at. All (λ (t : TruthTable). Above t.truth table.now.truth) (take at ordered.now)) }
    ensures after { IfSome result
        (λ at. IsBelow table.now.truth (drop at (relations_in ordered.now))) }
    ensures lawful { IsTable table.now }
{
    let _arity = table.arity();
    for at in 0..ordered.len() {
        let here = &ordered[at];
        if here.equals(table) {
            return None;
        }
        if table.is_above(here) {
            return Some(at);
        }
    }
    Some(ordered.len())
}

/// Puts a relation among others, which stand in falling order, unless it is one of them.
fn with_relation(
    alloc: Global,
    mut ordered: Vec<Table>,
    table: &Table,
) -> Result<Vec<Table>, CloseFault>
    requires kinds { All (IsOfKind table.now.arity table.now.value_count) ordered.items }
    requires few { length ordered.items ≤ 64 }
    ensures order { IfOk result (λ v. (relations : List Relation) →
        IsInOrder relations (relations_in ordered.items) →
        IsInOrder (relations ++ table.now.truth ∷ []) (relations_in v.items)) }
    ensures kinds { IfOk result
        (λ v. All (IsOfKind table.now.arity table.now.value_count) v.items) }
    ensures few { IfOk result (λ v. length v.items ≤ 64) }
    ensures refused { IfErr result (λ e. e ≢ CloseFault.Memory →
        e ≡ CloseFault.TooMany table.now.arity) }
    ensures many { IfErr result (λ e. e ≢ CloseFault.Memory →
        (relations : List Relation) → IsInOrder relations (relations_in ordered.items) →
        Overflows (relations ++ table.now.truth ∷ [])) }
{
    let Some(at) = place_among(&ordered, table) else {
        return Ok(ordered);
    };
    if ordered.len() == MOST_RELATIONS {
        return Err(CloseFault::TooMany(table.arity()));
    }
    let copy = table.meet(alloc, table)?;
    ordered.insert(at, copy)?;
    Ok(ordered)
}
