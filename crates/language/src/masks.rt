//! The relations of two variables by masks: which values go together, and how many a value rejects
//! at most.

ghost use Rattle.std.specs.Prelude.{◌≡◌, ◌+◌, ◌*◌, ◌<◌, ◌≤◌, ◌==◌, ◌&&◌, ◌⊎◌, ℕ, not, List, []};
ghost use Rattle.std.specs.Prelude.{All, IfOk, length, slice_index_or};
ghost use Rattle.std.specs.Bool.{beq};
ghost use Rattle.std.specs.Int.{bit_at};
ghost use Rattle.rel_table.specs.Relation.{Relation};
ghost use Rattle.rel_table.specs.Closing.{IsOfKind};
ghost use Rattle.language.specs.Inside.{truths};
ghost use Rattle.language.specs.Language.{scope_at, relations_on};
ghost use Rattle.language.specs.Pairs.{go_together, rejected_of, most_of, first_bound};
ghost use Rattle.language.specs.Pairs.{second_bound, changes_of, is_running, is_chain, AreMasksOf};
ghost use Rattle.language.specs.Pairs.{ArePairTables, IsPairTable, IsPairTableOn};
ghost use Rattle.language.specs.PairMasks.{AreMasksFrom, ArePairMasksAt, ArePairMasks};

use crate::candidates::ScopeId;
use crate::lang::Language;
use rel_table::Table;
use std::alloc::{AllocError, Global};

/// For a relation of two variables how many values of one it rejects at most beside a value of the
/// other, and whether these run one way.
#[derive(Clone, Copy, Debug, PartialEq, Eq)]
pub struct PairBounds {
    /// Of the first variable's values.
    pub first: u8,
    /// Of the second variable's values.
    pub second: u8,
    /// Whether it is a chain: as either variable goes over its values, each value of the other
    /// begins or ceases once at most to go with them. All orders are chains.
    pub is_chain: bool,
}

/// For tables of two variables, by number, and each value of either variable, the values of the
/// other that go with it.
#[derive(Drop)]
pub(crate) struct PairMasks {
    /// For table t and a value x of the first variable the mask of the second one's values, at 64 t
    /// + x.
    pub(crate) rows: Vec<u64>,
    /// For table t and a value y of the second variable the mask of the first one's values, at 64 t
    /// + y.
    pub(crate) columns: Vec<u64>,
    /// For table t, at t.
    pub(crate) bounds: Vec<PairBounds>,
}

/// The first values that go with a second one.
fn column(table: &Table, y: u8) -> u64
    requires two { table.now.arity ≡ 2 }
    requires low { y < table.now.value_count }
    ensures { (x : ℕ) → x < table.now.value_count →
        (bit_at result x == 1) ≡ go_together table.now.value_count table.now.truth x y }
{
    let d = table.value_count();
    let mut column = 0;
    for x in 0..d {
        let held = table.at(u32::from(x) * u32::from(d) + u32::from(y));
        column |= u64::from(held) << x;
    }
    column
}

/// Writes the rows and the columns of a relation from a place on.
fn write_masks(rows: &mut [u64], columns: &mut [u64], at: usize, table: &Table)
    requires two { table.now.arity ≡ 2 }
    requires rows_fit { at + 64 ≤ length rows.old }
    requires columns_fit { at + 64 ≤ length columns.old }
    ensures small { table.now.value_count ≤ 64 }
    ensures rows { AreMasksFrom table.now.value_count
        (go_together table.now.value_count table.now.truth) rows.new at }
    ensures columns { AreMasksFrom table.now.value_count
        (λ y x. go_together table.now.value_count table.now.truth x y) columns.new at }
    ensures other_rows { (k : ℕ) → (k < at) ⊎ (at + 64 ≤ k) →
        slice_index_or rows.new k 0 ≡ slice_index_or rows.old k 0 }
    ensures other_columns { (k : ℕ) → (k < at) ⊎ (at + 64 ≤ k) →
        slice_index_or columns.new k 0 ≡ slice_index_or columns.old k 0 }
{
    let d = table.value_count();
    for x in 0..d {
        rows[at + usize::from(x)] = table.row(u32::from(x) * u32::from(d));
        columns[at + usize::from(x)] = column(table, x);
    }
}

/// How many of the first d values a mask lacks.
fn rejected(mask: u64, d: u8) -> u8
    requires { d ≤ 64 }
    ensures is { result ≡ rejected_of d (λ x. bit_at mask x == 1) }
{
    let mut rejected = 0;
    for x in 0..d {
        if (mask >> x) & 1 == 0 {
            rejected += 1;
        }
    }
    rejected
}

/// Of d masks from a place on, how many of the first d values one lacks at most.
fn most_rejected(masks: &[u64], at: usize, d: u8) -> u8
    requires few { d ≤ 64 }
    requires fit { at + 64 ≤ length masks.now }
    ensures { result ≡ most_of (λ x.
        rejected_of d (λ y. bit_at (slice_index_or masks.now (at + x) 0) y == 1)) d }
{
    let mut most = 0;
    for x in 0..d {
        most = most.max(rejected(masks[at + usize::from(x)], d));
    }
    most
}

/// Whether one of two masks has a bit that the other lacks.
fn differ_at(one: u64, other: u64, x: u8) -> bool
    requires { x < 64 }
    ensures { result ≡ not (beq (bit_at one x == 1) (bit_at other x == 1)) }
{
    ((one ^ other) >> x) & 1 == 1
}

/// How often a bit changes over d masks from a place on.
fn changes(masks: &[u64], at: usize, d: u8, bit: u8) -> u8
    requires some { 1 ≤ d }
    requires few { d ≤ 64 }
    requires fit { at + 64 ≤ length masks.now }
    requires bit { bit < 64 }
    ensures { result ≡ changes_of (λ x. bit_at (slice_index_or masks.now (at + x) 0) bit == 1) d }
{
    let mut changes = 0;
    for x in 1..d {
        let here = at + usize::from(x);
        if differ_at(masks[here - 1], masks[here], bit) {
            changes += 1;
        }
    }
    changes
}

/// Whether over d masks from a place on each of the first d bits changes once at most.
fn are_running(masks: &[u64], at: usize, d: u8) -> bool
    requires some { 1 ≤ d }
    requires few { d ≤ 64 }
    requires fit { at + 64 ≤ length masks.now }
    ensures { result ≡ is_running d (λ x y. bit_at (slice_index_or masks.now (at + x) 0) y == 1) }
{
    for y in 0..d {
        if changes(masks, at, d, y) > 1 {
            return false;
        }
    }
    true
}

/// Whether it is so of a relation's rows and of its columns.
fn is_chain(rows: &[u64], columns: &[u64], at: usize, d: u8) -> bool
    requires some { 1 ≤ d }
    requires few { d ≤ 64 }
    requires rows_fit { at + 64 ≤ length rows.now }
    requires columns_fit { at + 64 ≤ length columns.now }
    ensures { result ≡ (is_running d (λ x y. bit_at (slice_index_or rows.now (at + x) 0) y == 1) &&
        is_running d (λ y x. bit_at (slice_index_or columns.now (at + y) 0) x == 1)) }
{
    are_running(rows, at, d) && are_running(columns, at, d)
}

/// Writes the masks of table t, and gives its bounds.
fn write_table(rows: &mut [u64], columns: &mut [u64], t: usize, table: &Table) -> PairBounds
    requires two { table.now.arity ≡ 2 }
    requires few { t < 64 }
    requires rows_fit { 64 * t + 64 ≤ length rows.old }
    requires columns_fit { 64 * t + 64 ≤ length columns.old }
    ensures masks { ArePairMasksAt table.now.value_count table.now.truth rows.new columns.new
        (64 * t) result }
    ensures small { table.now.value_count ≤ 64 }
    ensures other_rows { (k : ℕ) → (k < 64 * t) ⊎ (64 * t + 64 ≤ k) →
        slice_index_or rows.new k 0 ≡ slice_index_or rows.old k 0 }
    ensures other_columns { (k : ℕ) → (k < 64 * t) ⊎ (64 * t + 64 ≤ k) →
        slice_index_or columns.new k 0 ≡ slice_index_or columns.old k 0 }
{
    let d = table.value_count();
    write_masks(rows, columns, 64 * t, table);
    PairBounds {
        first: most_rejected(columns, 64 * t, d),
        second: most_rejected(rows, 64 * t, d),
        is_chain: is_chain(rows, columns, 64 * t, d),
    }
}

impl PairMasks {
    /// Those of tables of two variables over d values: for each some 1 KB.
    pub(crate) fn of(alloc: Global, d: u8, tables: &[Table]) -> Result<PairMasks, AllocError>
        requires kinds { All (IsOfKind 2 d) tables.now }
        requires few { length tables.now ≤ 64 }
        ensures { IfOk result (λ masks. ArePairMasks d (truths tables.now) masks) }
    {
        let mut rows = vec![in alloc; 0; 64 * tables.len()]?;
        let mut columns = vec![in alloc; 0; 64 * tables.len()]?;
        let mut bounds = Vec::with_capacity(alloc, tables.len())?;
        for t in 0..tables.len() {
            let bound = write_table(&mut rows, &mut columns, t, &tables[t]);
            bounds.push(bound)?;
        }
        Ok(PairMasks {
            rows,
            columns,
            bounds,
        })
    }
}

impl Language {
    /// The number of the table of relation r on a scope of two variables, which agrees with it
    /// within the ranges. The relations of many scopes have one table, also where the ranges of
    /// their variables differ.
    #[inline]
    pub fn pair_table(&self, s: ScopeId, r: u8) -> u8
        requires scope { s < length self.now.scopes }
        requires rel { r < length (relations_on self.now s) }
        requires two { length (scope_at self.now s) ≡ 2 }
        ensures on { IsPairTableOn self.now s r result }
        ensures table { IsPairTable self.now result }
    {
        self.on[self.numbers[s as usize] as usize + r as usize]
    }

    /// For a table of two variables and each value of the first one, the mask of the second one's
    /// values that go with it: 64 masks. Those past the values mean nothing, nor do the bits past
    /// them.
    #[inline]
    pub fn pair_rows(&self, table: u8) -> &[u64]
        requires { IsPairTable self.now table }
        ensures long { length result.now ≡ 64 }
        ensures masks { (pairs : List Relation) →
            ArePairTables self.now pairs → AreMasksOf self.now.value_count
            (go_together self.now.value_count (slice_index_or pairs table [])) result.now }
    {
        let at = 64 * usize::from(table);
        &self.pairs.rows[at..at + 64]
    }

    /// For a table of two variables and each value of the second one, the mask of the first one's
    /// values that go with it: 64 masks. Those past the values mean nothing, nor do the bits past
    /// them.
    #[inline]
    pub fn pair_columns(&self, table: u8) -> &[u64]
        requires { IsPairTable self.now table }
        ensures long { length result.now ≡ 64 }
        ensures masks { (pairs : List Relation) → ArePairTables self.now pairs →
            AreMasksOf self.now.value_count (λ y x.
            go_together self.now.value_count (slice_index_or pairs table []) x y) result.now }
    {
        let at = 64 * usize::from(table);
        &self.pairs.columns[at..at + 64]
    }

    /// How many values of either variable a table of two variables rejects at most beside a value
    /// of the other, of all values, and whether it is a chain.
    #[inline]
    pub fn pair_bounds(&self, table: u8) -> PairBounds
        requires { IsPairTable self.now table }
        ensures first { (pairs : List Relation) → ArePairTables self.now pairs →
            result.first ≡ first_bound self.now.value_count (slice_index_or pairs table []) }
        ensures second { (pairs : List Relation) → ArePairTables self.now pairs →
            result.second ≡ second_bound self.now.value_count (slice_index_or pairs table []) }
        ensures chain { (pairs : List Relation) → ArePairTables self.now pairs →
            result.is_chain ≡ is_chain self.now.value_count (slice_index_or pairs table []) }
    {
        self.pairs.bounds[usize::from(table)]
    }
}
