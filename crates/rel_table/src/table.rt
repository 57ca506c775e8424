ghost use Rattle.std.specs.Prelude.{◌≡◌, ◌+◌, ◌-◌, ◌*◌, ◌^◌, ◌<◌, ◌≤◌, ◌≢◌, ◌↔◌, ℕ, ℤ, pos, negsuc};
ghost use Rattle.std.specs.Prelude.{◌≤ℤ◌, length, replicate, IsTrue, IfOk, IfErr, OnOk, Option};
ghost use Rattle.std.specs.Prelude.{Some, None, Ok, Err, Bool, false, true, if◌then◌else◌, All};
ghost use Rattle.std.specs.Prelude.{nat_eq};
ghost use Rattle.std.specs.List.{list_all, zip};
ghost use Rattle.std.specs.Int.{bit_at};
ghost use Rattle.rel_table.specs.Relation.{place, holds, meet, is_above};
ghost use Rattle.rel_table.specs.Table.{truth_at, IsTable};
ghost use Rattle.rel_table.specs.Made.{arity_of, size_for, size_of, is_shown, index_of};
ghost use Rattle.rel_table.specs.Made.{place_of_shown, tuple_fault, first_fault, refusal_of};
ghost use Rattle.rel_table.specs.Made.{IsMade, Marks, lists};

use crate::bits::Bits;
use std::alloc::{AllocError, AllocFailed, Global};
use std::marker::Model;
use thiserror::Error;

/// Want of memory: the allocator gave none.
#[derive(Clone, Copy, Debug, PartialEq, Eq, Error)]
#[error("out of memory")]
pub struct Memory;

impl From<AllocError> for Memory {
    fn from(_: AllocError) -> Self {
        Memory
    }
}

impl<T: Drop> From<AllocFailed<T>> for Memory {
    fn from(_: AllocFailed<T>) -> Self {
        Memory
    }
}

/// Why no table was made.
#[derive(Clone, Copy, Debug, PartialEq, Eq, Error)]
pub enum TableFault {
    /// The arity isn't 1 to 4.
    #[error("the arity is not 1 to 4")]
    BadArity,
    /// The tuple with this number, from 0, hasn't as many values as the arity says.
    #[error("tuple {0} has the wrong length")]
    TupleLength(u32),
    /// The tuple with this number, from 0, has a value outside the domain.
    #[error("tuple {0} has a value outside the domain")]
    ValueOut(u32),
    /// There would be more than 65,536 tuples.
    #[error("there would be more than 65,536 tuples")]
    TooLarge,
    /// The allocator gave no memory.
    #[error("out of memory")]
    Memory,
}

/// Why relations can't be closed under intersection.
#[derive(Clone, Copy, Debug, PartialEq, Eq, Error)]
pub enum CloseFault {
    /// There are more than 64 intersections of this arity, and of no smaller one.
    #[error("more than 64 intersections of arity {0}")]
    TooMany(u8),
    /// The allocator gave no memory.
    #[error("out of memory")]
    Memory,
}

impl From<AllocError> for TableFault {
    ghost use Rattle.std.specs.Prelude.{◌≡◌};
    ghost use Rattle.rel_table.specs.declared.table.TableFault.TheVariants.{Memory};

    ghost from_gives = { λ _ e. e ≡ Memory };

    fn from(_refused: AllocError) -> TableFault {
        TableFault::Memory
    }
}

impl From<Memory> for CloseFault {
    ghost use Rattle.std.specs.Prelude.{◌≡◌};
    ghost use Rattle.rel_table.specs.declared.table.CloseFault.TheVariants.{Memory};

    ghost from_gives = { λ _ e. e ≡ Memory };

    fn from(_refused: Memory) -> CloseFault {
        CloseFault::Memory
    }
}

impl<T: Drop> From<AllocFailed<T>> for CloseFault {
    ghost use Rattle.std.specs.Prelude.{◌≡◌};
    ghost use Rattle.rel_table.specs.declared.table.CloseFault.TheVariants.{Memory};

    ghost from_gives = { λ _ e. e ≡ Memory };

    fn from(_refused: AllocFailed<T>) -> CloseFault {
        CloseFault::Memory
    }
}

/// The most places that a table has: one for each tuple.
pub const MOST_PLACES: u32 = 65536;

/// An arity of 1 to 4.
fn small_arity(arity: i64) -> Option<u8>
    ensures { result ≡ arity_of arity }
{
    match arity {
        1 => Some(1),
        2 => Some(2),
        3 => Some(3),
        4 => Some(4),
        _ => None,
    }
}

/// The number of tuples of this length over d values, where it is small enough.
fn power(d: u32, a: u8) -> Result<u32, TableFault>
    ensures is { result ≡ size_for (Some a) d }
    ensures size { IfOk result (λ size. size ≡ d ^ a) }
    ensures fits { IfOk result (λ size. size ≤ 65536) }
{
    let mut size = 1u64;
    for _ in 0..a {
        size *= u64::from(d);
        if size > 65536 {
            return Err(TableFault::TooLarge);
        }
    }
    Ok(size as u32)
}

/// The number of tuples of this arity over d values, which is d to the power of the arity.
///
/// `BadArity` where the arity isn't 1 to 4, whatever d is; else `TooLarge` where there are more
/// than 65,536 tuples. Takes no memory.
pub fn table_size(arity: i64, d: u32) -> Result<u32, TableFault>
    ensures { result ≡ size_of arity d }
{
    match small_arity(arity) {
        Some(a) => power(d, a),
        None => Err(TableFault::BadArity),
    }
}

/// The place of a tuple, where its values are below d: its values are the digits of the place in
/// base d, the first one counting most.
///
/// So the tuples stand in the order of their first values, then of their second ones, and so on.
/// Takes no memory.
pub fn place_of(d: u8, tuple: &[u8]) -> usize
    requires values { All (λ x. x < d) tuple.now }
    requires fits { d ^ length tuple.now ≤ 65536 }
    requires some { 1 ≤ d }
    ensures is { result ≡ place d tuple.now }
    ensures below { result < d ^ length tuple.now }
{
    let mut place = 0usize;
    for x in tuple {
        place = place * d as usize + *x as usize;
    }
    place
}

/// A relation: a truth value for each tuple, in the order of their places.
///
/// It takes a bit for each tuple, 8,192 bytes at most.
#[derive(Drop)]
pub struct Table {
    /// How many values a tuple has, 1 to 4.
    arity: u8,
    /// How many values there are, 1 to 64. In a tuple they are numbered from 0.
    value_count: u8,
    /// Which tuples are in the relation, each at its place.
    truth: Bits,
}

impl Model for Table {
    ghost use Rattle.rel_table.specs.Table.{TruthTable};

    ghost Value = { TruthTable };

    ghost use Rattle.rel_table.specs.Inside.{seen, IsSound};

    ghost view = { seen };

    ghost invariant = { IsSound };
}

impl Table {
    /// The relation that accepts exactly these tuples of shown values, which are lo to lo + d - 1.
    /// A tuple that is given twice counts once.
    ///
    /// Refused in this order: what `table_size` refuses; the first tuple with a fault, by
    /// `TupleLength` where its length isn't the arity, else by `ValueOut`; `Memory`. Memory may be
    /// missed before the tuples are looked at.
    pub fn from_tuples(
        alloc: Global,
        arity: i64,
        lo: i64,
        d: u32,
        tuples: &[Vec<i64>],
    ) -> Result<Table, TableFault>
        requires values { 1 ≤ d }
        requires few_values { d ≤ 64 }
        requires low { negsuc 999999 ≤ℤ lo }
        requires high { lo ≤ℤ pos 1000000 }
        requires few { length tuples.now < 2 ^ 32 }
        ensures made { IfOk result (λ t. IsMade arity lo d (lists tuples.now) t) }
        ensures refused { IfErr result (λ e. e ≢ TableFault.Memory →
            refusal_of arity lo d (lists tuples.now) ≡ Some e) }
    {
        let Some(a) = small_arity(arity) else {
            return Err(TableFault::BadArity);
        };
        let size = power(d, a)?;
        let truth = Bits::all_false(alloc, size as usize)?;
        match mark_all(a, lo, d, tuples, truth) {
            Err(fault) => Err(fault),
            Ok(truth) => Ok(Table {
                arity: a,
                value_count: d as u8,
                truth,
            }),
        }
    }

    /// The relation of these truth values, one for each place.
    pub fn from_truth(
        alloc: Global,
        arity: u8,
        value_count: u8,
        truth: &[bool],
    ) -> Result<Table, Memory>
        requires some { 1 ≤ arity }
        requires few { arity ≤ 4 }
        requires values { 1 ≤ value_count }
        requires small { value_count ≤ 64 }
        requires each { length truth.now ≡ value_count ^ arity }
        requires fits { length truth.now ≤ 65536 }
        ensures { IfOk result
            (λ t. t ≡ record { arity = arity; value_count = value_count; truth = truth.now }) }
    {
        let truth = Bits::of(alloc, truth)?;
        Ok(Table {
            arity,
            value_count,
            truth,
        })
    }

    /// How many values a tuple of this relation has, 1 to 4.
    pub fn arity(&self) -> u8
        ensures is { result ≡ self.now.arity }
        ensures lawful { IsTable self.now }
    {
        self.arity
    }

    /// How many values there are, 1 to 64.
    pub fn value_count(&self) -> u8
        ensures is { result ≡ self.now.value_count }
        ensures lawful { IsTable self.now }
    {
        self.value_count
    }

    /// How many places there are, one for each tuple: 1 to 65,536.
    pub fn size(&self) -> u32
        ensures is { result ≡ length self.now.truth }
        ensures lawful { IsTable self.now }
    {
        self.truth.len() as u32
    }

    /// Whether the tuple at a place is in the relation. Reads one bit.
    pub fn at(&self, place: u32) -> bool
        requires { place < length self.now.truth }
        ensures { result ≡ truth_at self.now place }
    {
        self.truth.get(place as usize)
    }

    /// The truth values from a place on, one for each value, as the lowest bits of a word: bit y is
    /// 1 where the tuple y places further is in the relation. The bits past the values mean
    /// nothing. Reads one word or two.
    #[inline]
    pub fn row(&self, place: u32) -> u64
        requires { place + self.now.value_count ≤ length self.now.truth }
        ensures { (y : ℕ) → y < self.now.value_count →
            nat_eq (bit_at result y) 1 ≡ truth_at self.now (place + y) }
    {
        self.truth.row(place as usize, self.value_count as usize)
    }

    /// Whether a tuple, given by the numbers of its values, is in the relation. Reads one bit.
    pub fn accepts(&self, tuple: &[u8]) -> bool
        requires long { length tuple.now ≡ self.now.arity }
        requires values { All (λ x. x < self.now.value_count) tuple.now }
        ensures { result ≡ holds self.now.value_count self.now.truth tuple.now }
    {
        self.truth.get(place_of(self.value_count, tuple))
    }

    /// Whether these are the same relation: one arity, as many values and the same tuples. Compares
    /// 64 tuples at a time, and takes no memory.
    pub fn equals(&self, o: &Table) -> bool
        ensures { IsTrue result ↔ (self.now ≡ o.now) }
    {
        if self.arity != o.arity || self.value_count != o.value_count {
            return false;
        }
        self.truth.equals(&o.truth)
    }

    /// Whether this relation comes before the other in falling order: it has the first tuple that
    /// is in one of them alone.
    pub(crate) fn is_above(&self, o: &Table) -> bool
        requires arity { self.now.arity ≡ o.now.arity }
        requires values { self.now.value_count ≡ o.now.value_count }
        ensures { result ≡ is_above self.now.truth o.now.truth }
    {
        self.truth.is_above(&o.truth)
    }

    /// The intersection, 64 tuples at a time: a new relation with the tuples that are in both.
    pub fn meet(&self, alloc: Global, o: &Table) -> Result<Table, Memory>
        requires arity { self.now.arity ≡ o.now.arity }
        requires values { self.now.value_count ≡ o.now.value_count }
        ensures arity { IfOk result (λ t. t.arity ≡ self.now.arity) }
        ensures values { IfOk result (λ t. t.value_count ≡ self.now.value_count) }
        ensures truth { IfOk result (λ t. t.truth ≡ meet self.now.truth o.now.truth) }
    {
        let truth = self.truth.meet(alloc, &o.truth)?;
        Ok(Table {
            arity: self.arity,
            value_count: self.value_count,
            truth,
        })
    }

    /// Whether each tuple that this relation accepts is accepted by the other, 64 tuples at a time.
    /// Takes no memory.
    ///
    /// Of relations of two sizes only the places that both have count.
    pub fn within(&self, o: &Table) -> bool
        ensures { result ≡ list_all (λ (p : Bool × Bool). if p.0 then p.1
            else true) (zip self.now.truth o.now.truth) }
    {
        self.truth.within(&o.truth)
    }
}

/// Whether a shown value is in the domain.
fn is_shown(lo: i64, d: u32, x: i64) -> bool
    requires small { d ≤ 64 }
    requires low { negsuc 999999 ≤ℤ lo }
    requires high { lo ≤ℤ pos 1000000 }
    ensures { result ≡ is_shown lo d x }
{
    lo <= x && x < lo + i64::from(d)
}

/// The number of a shown value.
fn index_of(lo: i64, d: u32, x: i64) -> usize
    requires small { d ≤ 64 }
    requires low { negsuc 999999 ≤ℤ lo }
    requires high { lo ≤ℤ pos 1000000 }
    requires shown { is_shown lo d x ≡ true }
    ensures is { result ≡ index_of lo x }
    ensures below { result < d }
{
    (x - lo) as usize
}

/// Whether each shown value is in the domain.
fn are_shown(lo: i64, d: u32, tuple: &[i64]) -> bool
    requires small { d ≤ 64 }
    requires low { negsuc 999999 ≤ℤ lo }
    requires high { lo ≤ℤ pos 1000000 }
    ensures { result ≡ list_all (is_shown lo d) tuple.now }
{
    tuple.iter().all(|x| is_shown(lo, d, *x))
}

/// What is wrong with tuple i.
fn fault_of(a: u8, lo: i64, d: u32, i: u32, tuple: &[i64]) -> Option<TableFault>
    requires small { d ≤ 64 }
    requires low { negsuc 999999 ≤ℤ lo }
    requires high { lo ≤ℤ pos 1000000 }
    ensures { result ≡ tuple_fault a lo d i tuple.now }
{
    if tuple.len() != a as usize {
        return Some(TableFault::TupleLength(i));
    }
    if are_shown(lo, d, tuple) {
        None
    } else {
        Some(TableFault::ValueOut(i))
    }
}

/// The place of a tuple of shown values.
fn place_of_shown(lo: i64, d: u32, tuple: &[i64]) -> usize
    requires low { negsuc 999999 ≤ℤ lo }
    requires high { lo ≤ℤ pos 1000000 }
    requires some { 1 ≤ d }
    requires small { d ≤ 64 }
    requires values { list_all (is_shown lo d) tuple.now ≡ true }
    requires fits { d ^ length tuple.now ≤ 65536 }
    ensures is { result ≡ place_of_shown lo d tuple.now }
    ensures below { result < d ^ length tuple.now }
{
    let mut place = 0usize;
    for x in tuple {
        place = place * d as usize + index_of(lo, d, *x);
    }
    place
}

/// Marks the place of each tuple, up to the first that is wrong.
fn mark_all(
    a: u8,
    lo: i64,
    d: u32,
    tuples: &[Vec<i64>],
    mut truth: Bits,
) -> Result<Bits, TableFault>
    requires low { negsuc 999999 ≤ℤ lo }
    requires high { lo ≤ℤ pos 1000000 }
    requires some { 1 ≤ d }
    requires small { d ≤ 64 }
    requires few { length tuples.now < 2 ^ 32 }
    requires size { length truth ≡ d ^ a }
    requires fits { length truth ≤ 65536 }
    requires blank { truth ≡ replicate (length truth) false }
    ensures right { OnOk result (first_fault a lo d 0 (lists tuples.now) ≡ None) }
    ensures size { IfOk result (λ v. length v ≡ d ^ a) }
    ensures marks { IfOk result (λ v. Marks lo d (lists tuples.now) v) }
    ensures fault { IfErr result (λ e. first_fault a lo d 0 (lists tuples.now) ≡ Some e) }
{
    for (i, tuple) in tuples.iter().enumerate() {
        if let Some(fault) = fault_of(a, lo, d, i as u32, tuple) {
            return Err(fault);
        }
        let place = place_of_shown(lo, d, tuple);
        truth.mark(place);
    }
    Ok(truth)
}
