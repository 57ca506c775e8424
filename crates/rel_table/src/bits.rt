//! Lists of truth values as bits, 64 to a machine word.

ghost use Rattle.std.specs.Prelude.{◌≡◌, ◌≢◌, ◌+◌, ◌<◌, ◌≤◌, ◌↔◌, ℕ, length, map, replicate, set};
ghost use Rattle.std.specs.Prelude.{slice_index_or, IsTrue, IfOk, Bool, false, true, if◌then◌else◌};
ghost use Rattle.std.specs.Prelude.{nat_eq, bit_and};
ghost use Rattle.std.specs.List.{list_all, zip};
ghost use Rattle.std.specs.Int.{bit_at, bit_not, w64};
ghost use Rattle.rel_table.specs.Relation.{meet, is_above};
ghost use Rattle.rel_table.specs.Bits.{DifferFirst, Compares};

use std::alloc::{AllocError, Global};
use std::marker::Model;

/// A list of truth values.
#[derive(Drop)]
pub struct Bits {
    /// How many truth values there are.
    count: usize,
    /// Truth value i is bit i % 64 of word i / 64. The bits beyond the last one are zero, so that
    /// equal lists have equal words.
    words: Vec<u64>,
}

impl Model for Bits {
    ghost use Rattle.std.specs.Prelude.{List, Bool};

    ghost Value = { List Bool };

    ghost use Rattle.rel_table.specs.InsideBits.{truth_values, IsLawful};

    ghost view = { truth_values };

    ghost invariant = { IsLawful };
}

impl Bits {
    /// So many truth values, each false.
    pub fn all_false(alloc: Global, count: usize) -> Result<Bits, AllocError>
        ensures { IfOk result (λ b. b ≡ replicate count false) }
    {
        let words = zero_words(alloc, count.div_ceil(64))?;
        Ok(Bits { count, words })
    }

    /// These truth values.
    pub(crate) fn of(alloc: Global, truth: &[bool]) -> Result<Bits, AllocError>
        ensures { IfOk result (λ b. b ≡ truth.now) }
    {
        let mut bits = Bits::all_false(alloc, truth.len())?;
        for i in 0..truth.len() {
            if truth[i] {
                bits.mark(i);
            }
        }
        Ok(bits)
    }

    /// How many truth values there are.
    pub(crate) fn len(&self) -> usize
        ensures { result ≡ length self.now }
    {
        self.count
    }

    /// The truth value at a place.
    pub fn get(&self, at: usize) -> bool
        requires { at < length self.now }
        ensures { result ≡ slice_index_or self.now at false }
    {
        (self.words[at / 64] >> (at % 64)) & 1 == 1
    }

    /// The truth values from a place on, so many, as the lowest bits of a word. Its other bits mean
    /// nothing.
    #[inline]
    pub fn row(&self, at: usize, count: usize) -> u64
        requires some { 1 ≤ count }
        requires few { count ≤ 64 }
        requires within { at + count ≤ length self.now }
        ensures { (k : ℕ) → k < count →
            nat_eq (bit_at result k) 1 ≡ slice_index_or self.now (at + k) false }
    {
        let shift = at % 64;
        let low = self.words[at / 64] >> shift;
        if shift + count <= 64 {
            low
        } else {
            low | (self.words[at / 64 + 1] << (64 - shift))
        }
    }

    /// Makes the truth value at a place true.
    pub fn mark(&mut self, at: usize)
        requires { at < length self.old }
        ensures { self.new ≡ set self.old at true }
    {
        self.words[at / 64] |= 1 << (at % 64);
    }

    /// Makes all truth values false.
    pub fn clear(&mut self)
        ensures { self.new ≡ replicate (length self.old) false }
    {
        erase(&mut self.words);
    }

    /// True where both are.
    pub(crate) fn meet(&self, alloc: Global, other: &Bits) -> Result<Bits, AllocError>
        requires { length self.now ≡ length other.now }
        ensures is { IfOk result (λ b. b ≡ meet self.now other.now) }
        ensures len { IfOk result (λ b. length b ≡ length self.now) }
    {
        let words = both(alloc, &self.words, &other.words)?;
        Ok(Bits {
            count: self.count,
            words,
        })
    }

    /// Whether the lists are the same.
    pub(crate) fn equals(&self, other: &Bits) -> bool
        ensures { IsTrue result ↔ (self.now ≡ other.now) }
    {
        self.count == other.count && are_same(&self.words, &other.words)
    }

    /// Whether this list is true at the first place where the two differ.
    pub(crate) fn is_above(&self, other: &Bits) -> bool
        requires { length self.now ≡ length other.now }
        ensures { result ≡ is_above self.now other.now }
    {
        has_first_other(&self.words, &other.words)
    }

    /// Whether the other list is true where this one is, as far as both go.
    pub(crate) fn within(&self, other: &Bits) -> bool
        ensures { result
            ≡ list_all (λ (p : Bool × Bool). if p.0 then p.1 else true) (zip self.now other.now) }
    {
        if self.count == other.count {
            lacks_none(&self.words, &other.words)
        } else {
            self.values_within(other)
        }
    }

    /// `within` one truth value after another, for lists of two lengths: what the longer one has
    /// beyond the shorter one doesn't count.
    fn values_within(&self, other: &Bits) -> bool
        ensures { result
            ≡ list_all (λ (p : Bool × Bool). if p.0 then p.1 else true) (zip self.now other.now) }
    {
        for at in 0..self.len().min(other.len()) {
            if self.get(at) && !other.get(at) {
                return false;
            }
        }
        true
    }
}

/// Whether the first word has the least bit that isn't the same in both.
fn has_first_other_bit(x: u64, y: u64) -> bool
    requires { x ≢ y }
    ensures { DifferFirst x y result }
{
    (x >> (x ^ y).trailing_zeros()) & 1 == 1
}

/// Where two lists of words first differ, whether the first one has a one there.
fn has_first_other(a: &[u64], b: &[u64]) -> bool
    requires { length a.now ≡ length b.now }
    ensures { Compares a.now b.now result }
{
    for i in 0..a.len() {
        if a[i] != b[i] {
            return has_first_other_bit(a[i], b[i]);
        }
    }
    false
}

/// So many words without a one.
fn zero_words(alloc: Global, count: usize) -> Result<Vec<u64>, AllocError>
    ensures { IfOk result (λ v. v.items ≡ replicate count 0) }
{
    vec![in alloc; 0; count]
}

/// Makes each word one without a one.
fn erase(words: &mut [u64])
    ensures { words.new ≡ replicate (length words.old) 0 }
{
    words.fill(0);
}

/// Whether each word is the same.
fn are_same(a: &[u64], b: &[u64]) -> bool
    ensures { IsTrue result ↔ (a.now ≡ b.now) }
{
    a == b
}

/// The ones that both have, word by word.
fn both(alloc: Global, a: &[u64], b: &[u64]) -> Result<Vec<u64>, AllocError>
    ensures { IfOk result (λ v. v.items ≡ map (λ (p : ℕ × ℕ). bit_and p.0 p.1) (zip a.now b.now)) }
{
    a.iter().zip(b.iter()).map(|(x, y)| x & y).collect(alloc)
}

/// Whether no word has a one that the other list's word lacks.
fn lacks_none(a: &[u64], b: &[u64]) -> bool
    ensures { result ≡ list_all (λ (p : ℕ × ℕ). nat_eq (bit_and p.0 (bit_not w64 p.1)) 0)
        (zip a.now b.now) }
{
    a.iter().zip(b.iter()).all(|(x, y)| x & !y == 0)
}
