// A formula's table.
ghost use Rattle.std.specs.Prelude.{◌≡◌, ◌≢◌, ◌+◌, ◌-◌, ◌*◌, ◌^◌, ◌<◌, ◌≤◌, ◌≤ℤ◌, ◌+ℤ◌, ℕ, Some};
ghost use Rattle.std.specs.Prelude.{None, pos, negsuc, take, slice_index_or, slice_set, IfOk};
ghost use Rattle.std.specs.Prelude.{IfErr, OnOk};
ghost use Rattle.rel_formula.specs.Batch.{numbers_at};
ghost use Rattle.std.specs.Option.{option_map};
ghost use Rattle.rel_table.specs.Relation.{tuple_at};
ghost use Rattle.rel_formula.specs.Formula.{shown_tuple, relation_from_formula, first_too_big};
ghost use Rattle.rel_formula.specs.Places.{AreTruthsTo};

use crate::batch::{BATCH, Batch, Numbers};
use crate::fault::TableOfFault;
use crate::formula::Formula;
use crate::machine::Stacks;
use rel_table::{Table, tuple_of};
use std::alloc::Global;

/// The value that is shown for an index.
fn shown_value(lo: i64, x: u8) -> i64
    requires low { negsuc 999999 ≤ℤ lo }
    requires high { lo ≤ℤ pos 1000000 }
    ensures { result ≡ lo +ℤ pos x }
{
    lo + i64::from(x)
}

/// The number of tuples.
fn tuple_count(arity: u8, d: u8) -> u32
    requires { d ^ arity ≤ 65536 }
    ensures { result ≡ d ^ arity }
{
    u32::from(d).pow(u32::from(arity))
}

/// The shown values of the tuple of this arity at a place, and more that have no meaning.
fn shown_at(arity: u8, lo: i64, d: u8, place: u32) -> [i64; 4]
    requires short { arity ≤ 4 }
    requires within { place < d ^ arity }
    requires low { negsuc 999999 ≤ℤ lo }
    requires high { lo ≤ℤ pos 1000000 }
    ensures { take arity result ≡ shown_tuple lo (tuple_at d arity place) }
{
    let tuple = tuple_of(d, arity, place);
    let mut shown = [0; 4];
    for i in 0..usize::from(arity) {
        shown[i] = shown_value(lo, tuple[i]);
    }
    shown
}

/// Adds the formula's truths in the rest of one row, tuple by tuple: at the places whose tuples
/// begin with the tuple of this number, and end with a value from `first` on.
fn add_rest(
    f: &Formula,
    arity: u8,
    lo: i64,
    d: u8,
    row: u32,
    first: u8,
    stacks: &mut Stacks,
    truths: &mut Vec<bool>,
) -> Result<(), TableOfFault>
    requires some { 1 ≤ arity }
    requires short { arity ≤ 4 }
    requires fits { d ^ arity ≤ 65536 }
    requires within { row < d ^ (arity - 1) }
    requires first { first ≤ d }
    requires low { negsuc 999999 ≤ℤ lo }
    requires high { lo ≤ℤ pos 1000000 }
    requires so_far { AreTruthsTo f.now arity lo d (row * d + first) truths.old.items }
    ensures so_far { OnOk result (AreTruthsTo f.now arity lo d (row * d + d) truths.new.items) }
    ensures refused { IfErr result (λ e. e ≢ TableOfFault.Memory →
        option_map TableOfFault.TooBig (first_too_big f.now arity lo d) ≡ Some e) }
{
    let last = usize::from(arity - 1);
    let mut shown = shown_at(arity - 1, lo, d, row);
    for x in first..d {
        shown[last] = shown_value(lo, x);
        match f.truth_at(&shown[..last + 1], stacks) {
            Some(is_true) => truths.push(is_true)?,
            None => return Err(TableOfFault::TooBig(row * u32::from(d) + u32::from(x))),
        }
    }
    Ok(())
}

/// One value for each tuple.
fn repeated(value: i64) -> Numbers
    ensures { (k : ℕ) → k < 16 → slice_index_or result k (pos 0) ≡ value }
{
    [value; BATCH]
}

/// The shown values from that of an index on, one for each tuple.
fn counted(lo: i64, first: u8) -> Numbers
    requires low { negsuc 999999 ≤ℤ lo }
    requires high { lo ≤ℤ pos 1000000 }
    ensures { (k : ℕ) → k < 16 → slice_index_or result k (pos 0) ≡ lo +ℤ pos (first + k) }
{
    let mut values = [0; BATCH];
    for k in 0..BATCH {
        let x = usize::from(first) + k;
        values[k] = lo + x as i64;
    }
    values
}

/// The tuples that have these values, but at the position `last` the shown values from `first` on:
/// a row of numbers for each position.
fn batch_from(shown: &[i64; 4], last: usize, lo: i64, first: u8) -> [Numbers; 4]
    requires within { last < 4 }
    requires low { negsuc 999999 ≤ℤ lo }
    requires high { lo ≤ℤ pos 1000000 }
    ensures { (k : ℕ) → k < 16 →
        numbers_at k result ≡ slice_set shown.now last (lo +ℤ pos (first + k)) }
{
    let mut tuples = [
        repeated(shown[0]),
        repeated(shown[1]),
        repeated(shown[2]),
        repeated(shown[3]),
    ];
    tuples[last] = counted(lo, first);
    tuples
}

/// Adds the formula's truths in one row: at the places whose tuples begin with the tuple of this
/// number, and differ in their last value alone.
fn add_row(
    f: &Formula,
    arity: u8,
    lo: i64,
    d: u8,
    row: u32,
    stacks: &mut Stacks,
    batch: &mut Batch,
    truths: &mut Vec<bool>,
) -> Result<(), TableOfFault>
    requires some { 1 ≤ arity }
    requires short { arity ≤ 4 }
    requires fits { d ^ arity ≤ 65536 }
    requires within { row < d ^ (arity - 1) }
    requires low { negsuc 999999 ≤ℤ lo }
    requires high { lo ≤ℤ pos 1000000 }
    requires so_far { AreTruthsTo f.now arity lo d (row * d) truths.old.items }
    ensures so_far { OnOk result (AreTruthsTo f.now arity lo d (row * d + d) truths.new.items) }
    ensures refused { IfErr result (λ e. e ≢ TableOfFault.Memory →
        option_map TableOfFault.TooBig (first_too_big f.now arity lo d) ≡ Some e) }
{
    let last = usize::from(arity - 1);
    let shown = shown_at(arity - 1, lo, d, row);
    let mut first = 0;
    while first < d {
        let tuples = batch_from(&shown, last, lo, first);
        match f.truths_at(&tuples[..last + 1], batch) {
            Some(known) => {
                let count = (d - first).min(BATCH as u8);
                truths.extend_from_slice(&known[..usize::from(count)])?;
                first += count;
            }
            None => return add_rest(f, arity, lo, d, row, first, stacks, truths),
        }
    }
    Ok(())
}

/// The formula's truth at the tuple of each place, in order.
fn truths_of(
    alloc: Global,
    f: &Formula,
    arity: u8,
    lo: i64,
    d: u8,
) -> Result<Vec<bool>, TableOfFault>
    requires some { 1 ≤ arity }
    requires short { arity ≤ 4 }
    requires values { 1 ≤ d }
    requires fits { d ^ arity ≤ 65536 }
    requires low { negsuc 999999 ≤ℤ lo }
    requires high { lo ≤ℤ pos 1000000 }
    ensures truth { IfOk result (λ v. v.items ≡ relation_from_formula f.now arity lo d) }
    ensures fits { OnOk result (first_too_big f.now arity lo d ≡ None) }
    ensures refused { IfErr result (λ e. e ≢ TableOfFault.Memory →
        option_map TableOfFault.TooBig (first_too_big f.now arity lo d) ≡ Some e) }
{
    let rows = tuple_count(arity - 1, d);
    let mut truths = Vec::with_capacity(alloc, rows as usize * usize::from(d))?;
    let mut stacks = Stacks::empty();
    let mut batch = Batch::empty();
    for row in 0..rows {
        add_row(f, arity, lo, d, row, &mut stacks, &mut batch, &mut truths)?;
    }
    Ok(truths)
}

/// The table of a formula over d values, the least of which is shown as `lo`: its truth at each
/// tuple.
///
/// Every part of the formula is evaluated at every tuple. A position that tuples of this arity lack
/// is worth 0.
pub fn table_of(
    alloc: Global,
    f: &Formula,
    arity: u8,
    lo: i64,
    d: u32,
) -> Result<Table, TableOfFault>
    requires some { 1 ≤ arity }
    requires short { arity ≤ 4 }
    requires values { 1 ≤ d }
    requires few_values { d ≤ 64 }
    requires fits { d ^ arity ≤ 65536 }
    requires low { negsuc 999999 ≤ℤ lo }
    requires high { lo ≤ℤ pos 1000000 }
    ensures table { IfOk result (λ t. t ≡ record {
      arity = arity;
      value_count = d;
      truth = relation_from_formula f.now arity lo d;
    }) }
    ensures fits { OnOk result (first_too_big f.now arity lo d ≡ None) }
    ensures refused { IfErr result (λ e. e ≢ TableOfFault.Memory →
        option_map TableOfFault.TooBig (first_too_big f.now arity lo d) ≡ Some e) }
{
    let truths = truths_of(alloc, f, arity, lo, d as u8)?;
    match Table::from_truth(alloc, arity, d as u8, &truths) {
        Ok(table) => Ok(table),
        Err(_) => Err(TableOfFault::Memory),
    }
}
