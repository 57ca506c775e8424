ghost use Rattle.std.specs.Prelude.{◌≡◌, ◌<◌, ◌≤◌, ◌+◌, ◌^◌, ◌==◌, ℕ, IsTrue, length};
ghost use Rattle.std.specs.Prelude.{slice_index_or, [], IfSome, IfOk, OnOk, string_bytes, false};
ghost use Rattle.std.specs.Prelude.{not};
ghost use Rattle.std.specs.Int.{bit_at};
ghost use Rattle.assign.specs.Sets.{is_same, least_of};
ghost use Rattle.language.specs.Texts.{question_text, candidate_text};
ghost use Rattle.language.specs.Ranges.{are_in, widened, AgreeWithin};
ghost use Rattle.rel_table.specs.Relation.{tuple_at};
ghost use Rattle.language.specs.Language.{variable_count, range_of, is_whole, scope_at};
ghost use Rattle.language.specs.Language.{scope_number, candidates, number_of, relations_on};
ghost use Rattle.language.specs.Language.{place_on, violates, IsLanguage, IsScope, IsCandidate};
ghost use Rattle.language.specs.Language.{IsQuestion};

use crate::candidates::{Candidate, ScopeId};
use crate::masks::PairMasks;
use crate::narrow::{are_whole, lies_within};
use crate::parts::RelPart;
use crate::places::place_of_values;
use crate::ranges::ValueRange;
use crate::scopes::{Scope, set_of};
use crate::texts::{room_for, text_of_candidate, write_question};
use assign::{MOST_VARIABLES, Partial, VarSet};
use rel_table::{Closed, Memory, Table};
use std::alloc::Global;
use std::marker::Model;

/// What can be asked about and learned.
#[derive(Drop)]
pub struct Language {
    /// The variables' names, in vocabulary order.
    pub(crate) names: Vec<String>,
    /// Value 0 is shown as this, value 1 as the next number, and so on.
    pub(crate) least_value: i64,
    pub(crate) value_count: u8,
    /// The first of them are the variables'.
    pub(crate) ranges: [ValueRange; MOST_VARIABLES as usize],
    /// Whether each variable has all values.
    pub(crate) is_whole: bool,
    /// The vocabulary's relations, in its order.
    pub(crate) given: Vec<RelPart>,
    /// A scope's number is its place here.
    pub(crate) scopes: Vec<Scope>,
    /// The relations of each arity, as tables.
    pub(crate) relations: Closed,
    /// For each candidate the number of its relation's table, among those of its arity.
    pub(crate) on: Vec<u8>,
    /// For each scope the number of its first candidate, and how many candidates there are last.
    pub(crate) numbers: Vec<u32>,
    /// The tables of two variables, as masks.
    pub(crate) pairs: PairMasks,
}

impl Model for Language {
    ghost use Rattle.language.specs.Language.{Language};

    ghost Value = { Language };

    ghost use Rattle.language.specs.Inside.{seen, IsSound};

    ghost view = { seen };

    ghost invariant = { IsSound };
}

impl Language {
    /// How many variables there are.
    pub fn n(&self) -> u8
        ensures is { result ≡ variable_count self.now }
        ensures lawful { IsLanguage self.now }
    {
        self.names.len() as u8
    }

    /// How many values each variable may have.
    pub fn d(&self) -> u8
        ensures is { result ≡ self.now.value_count }
        ensures lawful { IsLanguage self.now }
    {
        self.value_count
    }

    /// The first and the last value that a variable may have.
    pub fn range(&self, v: u8) -> (u8, u8)
        requires { v < variable_count self.now }
        ensures first { result.0 ≡ (range_of self.now v).first }
        ensures last { result.1 ≡ (range_of self.now v).last }
        ensures some { result.0 ≤ result.1 }
        ensures known { result.1 < self.now.value_count }
    {
        let range = self.ranges[v as usize];
        (range.first, range.last)
    }

    /// How many scopes there are.
    pub fn scopes(&self) -> u32
        ensures is { result ≡ length self.now.scopes }
        ensures lawful { IsLanguage self.now }
    {
        self.scopes.len() as u32
    }

    /// The variables of a scope, strictly rising.
    pub fn scope(&self, s: ScopeId) -> &[u8]
        requires { s < length self.now.scopes }
        ensures is { result.now ≡ scope_at self.now s }
        ensures scope { IsScope (variable_count self.now) result.now }
    {
        self.scopes[s as usize].as_slice()
    }

    /// The variables of a scope, as a set.
    pub fn scope_set(&self, s: ScopeId) -> VarSet
        requires { s < length self.now.scopes }
        ensures { result ≡ scope_at self.now s }
    {
        set_of(self.scopes[s as usize].as_slice())
    }

    /// Whether a scope has exactly these variables, where this is the least one. Most scopes begin
    /// with another one.
    fn has_variables(&self, s: ScopeId, w: VarSet, least: Option<u8>) -> bool
        requires scope { s < length self.now.scopes }
        requires least { least ≡ least_of w }
        ensures { result ≡ is_same w (scope_at self.now s) }
    {
        let first = self.scope(s)[0];
        match least {
            Some(v) if v == first => w == self.scope_set(s),
            _ => false,
        }
    }

    /// The scope that has exactly these variables, if there is one.
    pub fn scope_of(&self, w: VarSet) -> Option<ScopeId>
        ensures is { result ≡ scope_number self.now w }
        ensures known { IfSome result (λ s. s < length self.now.scopes) }
        ensures scope { IfSome result (λ s. scope_at self.now s ≡ w) }
    {
        let least = w.least();
        for s in 0..self.scopes.len() as ScopeId {
            if self.has_variables(s, w, least) {
                return Some(s);
            }
        }
        None
    }

    /// Whether each variable of a scope has all values.
    pub fn is_whole(&self, s: ScopeId) -> bool
        requires { s < length self.now.scopes }
        ensures { result ≡ is_whole self.now s }
    {
        self.is_whole || are_whole(self.own_ranges(), self.value_count, self.scope(s))
    }

    /// How many relations there are on a scope.
    pub fn relations_on(&self, s: ScopeId) -> u8
        requires { s < length self.now.scopes }
        ensures is { result ≡ length (relations_on self.now s) }
        ensures few { result ≤ 64 }
        ensures lawful { IsLanguage self.now }
    {
        let s = s as usize;
        (self.numbers[s + 1] - self.numbers[s]) as u8
    }

    /// The ranges of the variables.
    pub(crate) fn own_ranges(&self) -> &[ValueRange]
        ensures is { result.now ≡ self.now.ranges }
        ensures size { length result.now ≡ variable_count self.now }
    {
        &self.ranges[..self.names.len()]
    }

    /// Whether each value of the tuple at a place is one of its variable's.
    fn is_inside(&self, s: ScopeId, place: u32) -> bool
        requires scope { s < length self.now.scopes }
        requires place { place < self.now.value_count ^ length (scope_at self.now s) }
        ensures { result ≡ are_in self.now.ranges (scope_at self.now s)
            (tuple_at self.now.value_count (length (scope_at self.now s)) place) }
    {
        if self.is_whole {
            return true;
        }
        let scope = self.scope(s);
        let ranges = self.own_ranges();
        are_whole(ranges, self.value_count, scope)
            || lies_within(ranges, self.value_count, scope, place)
    }

    /// A table that agrees with relation r on a scope at each tuple within the ranges; outside them
    /// the relation holds. Where each variable of the scope has all values it is the relation's.
    #[inline]
    pub fn table_on(&self, s: ScopeId, r: u8) -> &Table
        requires scope { s < length self.now.scopes }
        requires rel { r < length (relations_on self.now s) }
        ensures agrees { AgreeWithin self.now.ranges self.now.value_count
            (scope_at self.now s) result.now.truth (slice_index_or (relations_on self.now s) r []) }
        ensures widened { widened self.now.ranges self.now.value_count
            (scope_at self.now s) result.now.truth ≡ slice_index_or (relations_on self.now s) r [] }
        ensures whole { IsTrue (is_whole self.now s) →
            result.now.truth ≡ slice_index_or (relations_on self.now s) r [] }
        ensures arity { result.now.arity ≡ length (scope_at self.now s) }
        ensures values { result.now.value_count ≡ self.now.value_count }
        ensures size { length result.now.truth
            ≡ self.now.value_count ^ length (scope_at self.now s) }
    {
        let tables = self.relations.list(self.scope(s).len() as u8);
        let number = self.on[self.numbers[s as usize] as usize + r as usize];
        &tables[number as usize]
    }

    /// Whether relation r on a scope accepts the tuple at a place.
    pub fn holds(&self, s: ScopeId, r: u8, place: u32) -> bool
        requires scope { s < length self.now.scopes }
        requires rel { r < length (relations_on self.now s) }
        requires place { place < self.now.value_count ^ length (scope_at self.now s) }
        ensures { result
            ≡ slice_index_or (slice_index_or (relations_on self.now s) r []) place false }
    {
        self.table_on(s, r).at(place) || !self.is_inside(s, place)
    }

    /// Whether relation r on a scope accepts the tuple at a place, of which it is known whether it
    /// is outside the ranges.
    #[inline]
    fn holds_at(&self, s: ScopeId, r: u8, place: u32, outside: bool) -> bool
        requires scope { s < length self.now.scopes }
        requires rel { r < length (relations_on self.now s) }
        requires place { place < self.now.value_count ^ length (scope_at self.now s) }
        requires outside { outside ≡ not (are_in self.now.ranges (scope_at self.now s)
            (tuple_at self.now.value_count (length (scope_at self.now s)) place)) }
        ensures { result
            ≡ slice_index_or (slice_index_or (relations_on self.now s) r []) place false }
    {
        let table = self.table_on(s, r);
        outside || table.at(place)
    }

    /// The relations on a scope that accept the tuple at a place: bit r is 1 exactly where relation
    /// r does. Whether the tuple is within the ranges is looked at once for all.
    pub fn accepting(&self, s: ScopeId, place: u32) -> u64
        requires scope { s < length self.now.scopes }
        requires place { place < self.now.value_count ^ length (scope_at self.now s) }
        ensures is { (r : ℕ) → (bit_at result r == 1)
            ≡ slice_index_or (slice_index_or (relations_on self.now s) r []) place false }
        ensures lawful { IsLanguage self.now }
    {
        let outside = !self.is_inside(s, place);
        let mut relations = 0;
        for r in 0..self.relations_on(s) {
            let held = self.holds_at(s, r, place, outside);
            relations |= u64::from(held) << r;
        }
        relations
    }

    /// The truth values of relation r on a scope from a place on, one for each value of the last
    /// variable: bit y is 1 where it accepts the tuple y places further. The bits past the values
    /// mean nothing.
    pub fn row_on(&self, s: ScopeId, r: u8, place: u32) -> u64
        requires scope { s < length self.now.scopes }
        requires rel { r < length (relations_on self.now s) }
        requires row { place + self.now.value_count
            ≤ self.now.value_count ^ length (scope_at self.now s) }
        ensures { (y : ℕ) → y < self.now.value_count → (bit_at result y == 1)
            ≡ slice_index_or (slice_index_or (relations_on self.now s) r []) (place + y) false }
    {
        if self.is_whole(s) {
            return self.table_on(s, r).row(place);
        }
        let mut row = 0;
        for y in 0..self.value_count {
            row |= u64::from(self.holds(s, r, place + u32::from(y))) << y;
        }
        row
    }

    /// How many candidates there are.
    pub fn candidates(&self) -> u32
        ensures is { result ≡ length (candidates self.now) }
        ensures lawful { IsLanguage self.now }
    {
        self.numbers[self.scopes.len()]
    }

    /// The candidate of this number.
    pub fn candidate(&self, number: u32) -> Candidate
        requires { number < length (candidates self.now) }
        ensures candidate { IsCandidate self.now result }
        ensures number { number_of self.now result ≡ number }
    {
        // The last scope whose first candidate has no greater number, of those that have
        // candidates.
        let s = self.numbers.partition_point(|first| *first <= number) - 1;
        Candidate {
            scope: s as ScopeId,
            rel: (number - self.numbers[s]) as u8,
        }
    }

    /// A candidate's number, from 0: by scope and then by relation.
    pub fn number_of(&self, c: Candidate) -> u32
        requires { IsCandidate self.now c }
        ensures is { result ≡ number_of self.now c }
        ensures below { result < length (candidates self.now) }
    {
        self.numbers[c.scope as usize] + u32::from(c.rel)
    }

    /// The place of a question's tuple on a scope, where the question gives each variable there a
    /// value.
    pub fn place_on(&self, s: ScopeId, q: &Partial) -> Option<u32>
        requires scope { s < length self.now.scopes }
        requires question { IsQuestion self.now q.now }
        ensures is { result ≡ place_on self.now s q.now }
        ensures below { IfSome result
            (λ at. at < self.now.value_count ^ length (scope_at self.now s)) }
        ensures small { self.now.value_count ^ length (scope_at self.now s) ≤ 65536 }
    {
        place_of_values(self.value_count, self.scope(s), q)
    }

    /// Whether a question gives each variable of the candidate's scope a value, and the relation
    /// rejects them.
    pub fn candidate_violated(&self, c: Candidate, q: &Partial) -> bool
        requires candidate { IsCandidate self.now c }
        requires question { IsQuestion self.now q.now }
        ensures { result ≡ violates self.now c q.now }
    {
        match self.place_on(c.scope, q) {
            None => false,
            Some(place) => !self.holds(c.scope, c.rel, place),
        }
    }

    /// The text of question k: `q1 a=1 b=2`, with the shown values of the variables that have one.
    pub fn question_text(&self, alloc: Global, k: u32, q: &Partial) -> Result<String, Memory>
        ensures { IfOk result (λ t. string_bytes t ≡ question_text self.now k q.now) }
    {
        let mut text = String::with_capacity(alloc, room_for(q.vars()))?;
        self.write_question(&mut text, k, q)?;
        Ok(text)
    }

    /// Writes the text of question k in place of what `text` held, in the memory that it has, as
    /// far as that goes. Who writes question after question is spared a new text for each. Where
    /// memory lacks, `text` is of no further use but for another call.
    pub fn write_question(&self, text: &mut String, k: u32, q: &Partial) -> Result<(), Memory>
        ensures { OnOk result (string_bytes text.new ≡ question_text self.now k q.now) }
    {
        write_question(text, k, self.least_value, &self.names, q)?;
        Ok(())
    }

    /// The names of the relations that contain the candidate's, and those of its variables: `eq&ne
    /// a b`.
    pub fn candidate_text(&self, alloc: Global, c: Candidate) -> Result<String, Memory>
        requires { IsCandidate self.now c }
        ensures { IfOk result (λ t. string_bytes t ≡ candidate_text self.now c) }
    {
        let ranges = self.own_ranges();
        let scope = self.scope(c.scope);
        let table = self.table_on(c.scope, c.rel);
        let text = text_of_candidate(alloc, &self.given, ranges, scope, table, &self.names)?;
        Ok(text)
    }
}

// A missing proof that threads may share a language, or hand one over, would show here.
fn may_cross(l: &Language) {
    is_sync(l);
    is_send(l);
}

fn is_sync<T: Sync>(_value: &T) {}

fn is_send<T: Send>(_value: &T) {}
