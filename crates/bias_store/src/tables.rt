//! Which relations on a scope accept which tuples.

ghost use Rattle.std.specs.Prelude.{ℕ, ◌==◌, ◌≡◌, ◌≢◌, ◌+◌, ◌*◌, ◌^◌, ◌<◌, ◌≤◌, true, List, Some};
ghost use Rattle.std.specs.Prelude.{All, length, slice_index_or, IfOk, OnOk, IfSome, IfNone};
ghost use Rattle.std.specs.Int.{bit_at};
ghost use Rattle.std.specs.List.{filter};
ghost use Rattle.std.specs.Option.{ForSome};
ghost use Rattle.assign.specs.Sets.{numbers, ones_of};
ghost use Rattle.assign.specs.Assignment.{Assignment, value_of, variables_of};
ghost use Rattle.rel_table.specs.Relation.{tuple_at};
ghost use Rattle.language.specs.Language.{variable_count, range_of, scope_at, place_on, IsLanguage};
ghost use Rattle.language.specs.Language.{IsQuestion};
ghost use Rattle.language.specs.Ranges.{is_in, are_in};
ghost use Rattle.language.specs.Pairs.{IsPairTable};
ghost use Rattle.bias_store.specs.Accepting.{accepting_on, places_on, first_of, Accepts};
ghost use Rattle.bias_store.specs.Accepting.{AreRunsFrom, IsRow, AreRowsFrom, IsTableOf};
ghost use Rattle.bias_store.specs.Accepting.{IsAcceptingOf, AreAdded, AreRowsAt};
ghost use Rattle.bias_store.specs.Made.{HasTables, AcceptBy, AreClasses, IsMadeOfScopes, AreWider};
ghost use Rattle.bias_store.specs.Violated.{violated_on, AreNoneViolated, IsViolated};
ghost use Rattle.bias_store.specs.Violated.{AreHitsListed};

use crate::left::Left;
use crate::row::first_in_row;
use assign::{Partial, VarSet};
use language::{Language, Memory, ScopeId};
use std::alloc::{AllocError, Global};
use std::marker::Model;

/// A scope with relations that a question violates.
#[derive(Clone, Copy)]
pub(crate) struct Violated {
    /// The scope's number.
    pub(crate) scope: ScopeId,
    /// The relations: bit r is one where the question violates relation r.
    pub(crate) relations: u64,
}

/// In place of where a scope's table begins: it has none.
const NO_TABLE: u32 = u32::MAX;

/// How many classes of scopes of two variables have a table at most, beside that of scopes whose
/// variables have all values.
const MOST_CLASSES: usize = 16;

/// For each scope and each place of its tuples the relations that accept the tuple there, and an
/// index by variables.
///
/// The scopes whose variables have all values share a table with those that have as many variables:
/// 8 bytes for each tuple, at most 512 KB. Scopes of two variables share one wherever their
/// relations have the same tables, and go by it within the ranges: 17 such tables at most. The
/// other scopes have none: there the language is asked. Each scope takes 8 bytes beside it.
#[derive(Drop)]
pub(crate) struct Tables {
    /// For each scope where its table begins, or `NO_TABLE`.
    first: Vec<u32>,
    /// The tables, each a mask for each place: bit r is one where relation r accepts the tuple
    /// there.
    masks: Vec<u64>,
    /// For each scope the next one with another first variable, and past the last such one how many
    /// scopes there are.
    next: Vec<ScopeId>,
    /// For each scope where its row ends; no greater than the scope, where it is in none. The
    /// scopes of a row have two variables and one table: the same first variable, and second ones
    /// that follow one another.
    rows: Vec<ScopeId>,
}

impl Model for Tables {
    ghost use Rattle.bias_store.specs.Accepting.{Accepting};

    ghost Value = { Accepting };

    ghost view = { λ t. record {
      first = t.first.items;
      masks = t.masks.items;
      next = t.next.items;
      rows = t.rows.items;
    } };
}

/// The relations on a scope that accept the tuple at a place.
fn accepting_at(lang: &Language, s: ScopeId, place: u32) -> u64
    requires scope { s < length lang.now.scopes }
    requires place { place < places_on lang.now s }
    ensures { ones_of result ≡ accepting_on lang.now s place }
{
    lang.accepting(s, place)
}

/// The truth values of the relations on a scope from a place on: bit y of the word at r is one
/// where relation r accepts the tuple y places further.
fn rows_at(lang: &Language, s: ScopeId, place: u32) -> [u64; 64]
    requires scope { s < length lang.now.scopes }
    requires row { place + lang.now.value_count ≤ places_on lang.now s }
    ensures long { length result ≡ 64 }
    ensures rows { AreRowsAt lang.now s place result }
{
    let mut rows = [0; 64];
    for r in 0..lang.relations_on(s) {
        rows[usize::from(r)] = lang.row_on(s, r, place);
    }
    rows
}

/// The bits y of some words: bit r is that of the word at r.
#[inline]
fn column(words: &[u64], y: u8) -> u64
    requires few { length words.now ≤ 64 }
    requires bit { y < 64 }
    ensures { ones_of result
        ≡ filter (λ r. bit_at (slice_index_or words.now r 0) y == 1) (numbers (length words.now)) }
{
    let mut bits = 0;
    for r in 0..words.len() {
        bits |= ((words[r] >> y) & 1) << r;
    }
    bits
}

/// The masks of a scope's places from one on, one for each value of the last variable, behind those
/// of the places before.
fn add_row(masks: &mut Vec<u64>, lang: &Language, s: ScopeId, place: u32) -> Result<(), AllocError>
    requires scope { s < length lang.now.scopes }
    requires row { place + lang.now.value_count ≤ places_on lang.now s }
    ensures { (before : List ℕ) →
        AreAdded (Accepts lang.now s) before masks.old.items place → OnOk result
        (AreAdded (Accepts lang.now s) before masks.new.items (place + lang.now.value_count)) }
{
    let rows = rows_at(lang, s, place);
    let relations = usize::from(lang.relations_on(s));
    for y in 0..lang.d() {
        masks.push(column(&rows[..relations], y))?;
    }
    Ok(())
}

/// The table of a scope, behind other ones.
fn add_masks(masks: &mut Vec<u64>, lang: &Language, s: ScopeId) -> Result<(), AllocError>
    requires scope { s < length lang.now.scopes }
    ensures { OnOk result
        (AreAdded (Accepts lang.now s) masks.old.items masks.new.items (places_on lang.now s)) }
{
    let d = u32::from(lang.d());
    let others = lang.scope(s).len() as u32 - 1;
    for row in 0..d.pow(others) {
        add_row(masks, lang, s, row * d)?;
    }
    Ok(())
}

/// For each scope the next one with another first variable, and past the last such one how many
/// scopes there are.
fn runs_of(alloc: Global, lang: &Language) -> Result<Vec<ScopeId>, AllocError>
    ensures { IfOk result (λ v. AreRunsFrom lang.now v.items 0) }
{
    let scopes = lang.scopes() as ScopeId;
    let mut next = vec![in alloc; scopes; usize::from(scopes)]?;
    for back in 1..scopes {
        let s = scopes - 1 - back;
        let end = if lang.scope(s)[0] == lang.scope(s + 1)[0] {
            next[usize::from(s + 1)]
        } else {
            s + 1
        };
        next[usize::from(s)] = end;
    }
    Ok(next)
}

/// Where the row ends that begins with a scope, if one that begins with the next scope ends there.
fn row_of(lang: &Language, first: &[u32], s: ScopeId, end: ScopeId) -> ScopeId
    requires scope { s < length lang.now.scopes }
    requires first { length first.now ≡ length lang.now.scopes }
    requires within { end ≤ length lang.now.scopes }
    requires row { IsRow lang.now first.now (s + 1) end }
    ensures within { result ≤ length lang.now.scopes }
    ensures row { IsRow lang.now first.now s result }
{
    let scopes = lang.scopes() as ScopeId;
    let [variable, second] = *lang.scope(s) else {
        return 0;
    };
    if first[usize::from(s)] == NO_TABLE {
        return 0;
    }
    let next = s + 1;
    if next == scopes || first[usize::from(next)] != first[usize::from(s)] {
        return next;
    }
    match *lang.scope(next) {
        [other, third] if other == variable && third == second + 1 => end.max(next),
        _ => next,
    }
}

/// For each scope of two variables that has a table where its row ends.
fn rows_of(alloc: Global, lang: &Language, first: &[u32]) -> Result<Vec<ScopeId>, AllocError>
    requires { length first.now ≡ length lang.now.scopes }
    ensures { IfOk result (λ v. AreRowsFrom lang.now first.now v.items 0) }
{
    let scopes = lang.scopes() as ScopeId;
    let mut rows = vec![in alloc; 0; usize::from(scopes)]?;
    let mut end = 0;
    for back in 0..scopes {
        let s = scopes - 1 - back;
        end = row_of(lang, first, s, end);
        rows[usize::from(s)] = end;
    }
    Ok(rows)
}

/// Whether a variable may have a value.
fn is_value(lang: &Language, v: u8, value: u32) -> bool
    requires { v < variable_count lang.now }
    ensures { result ≡ is_in (range_of lang.now v) value }
{
    let (first, last) = lang.range(v);
    u32::from(first) <= value && value <= u32::from(last)
}

/// Whether the tuple at a place is within the ranges. Looked at where a scope has two variables, or
/// these have all values.
fn is_inside(lang: &Language, s: ScopeId, place: u32) -> bool
    requires scope { s < length lang.now.scopes }
    requires place { place < places_on lang.now s }
    ensures { result ≡ true → are_in lang.now.ranges (scope_at lang.now s)
        (tuple_at lang.now.value_count (length (scope_at lang.now s)) place) ≡ true }
{
    let d = u32::from(lang.d());
    if lang.is_whole(s) {
        return true;
    }
    let [v, w] = *lang.scope(s) else {
        return false;
    };
    is_value(lang, v, place / d) && is_value(lang, w, place % d)
}

/// Of these relations on a scope, those that a question violates whose tuple there has this place:
/// none where it has none, since it leaves a variable open.
#[inline]
fn violated_at(
    tables: &Tables,
    lang: &Language,
    s: ScopeId,
    place: Option<u32>,
    relations: u64,
) -> u64
    requires tables { IsAcceptingOf lang.now tables.now }
    requires scope { s < length lang.now.scopes }
    requires place { ForSome place (λ at. at < places_on lang.now s) }
    ensures { (q : Assignment) → IsQuestion lang.now q → place ≡ place_on lang.now s q →
        ones_of result ≡ violated_on lang.now q s relations }
{
    match place {
        None => 0,
        Some(place) => relations & !tables.accepting_asked(lang, s, place),
    }
}

/// Of these relations on a scope, those that the question violates: none where it leaves a variable
/// there open.
pub(crate) fn violated_on(
    tables: &Tables,
    lang: &Language,
    s: ScopeId,
    q: &Partial,
    relations: u64,
) -> u64
    requires tables { IsAcceptingOf lang.now tables.now }
    requires scope { s < length lang.now.scopes }
    requires question { IsQuestion lang.now q.now }
    ensures { ones_of result ≡ violated_on lang.now q.now s relations }
{
    if relations == 0 {
        return 0;
    }
    violated_at(tables, lang, s, lang.place_on(s, q), relations)
}

/// Scopes of two variables whose relations have the same tables, one after another: they share a
/// table of masks.
#[derive(Drop)]
struct Class {
    /// For each relation the number of its table.
    tables: Vec<u8>,
    /// Where the masks begin.
    begin: u32,
}

/// Of relations with these tables of two variables those that accept the pair at a place: bit r is
/// one where the table at r has it.
fn pair_mask(lang: &Language, tables: &[u8], place: u32) -> u64
    requires known { All (IsPairTable lang.now) tables.now }
    requires few { length tables.now ≤ 64 }
    requires place { place < lang.now.value_count ^ 2 }
    ensures { AcceptBy lang.now tables.now place result }
{
    let d = u32::from(lang.d());
    let (x, y) = (place / d, place % d);
    let mut relations = 0;
    for r in 0..tables.len() {
        let row = lang.pair_rows(tables[r])[x as usize];
        relations |= ((row >> y) & 1) << r;
    }
    relations
}

/// The masks of relations with these tables of two variables, behind other ones.
fn add_pair_masks(masks: &mut Vec<u64>, lang: &Language, tables: &[u8]) -> Result<(), AllocError>
    requires known { All (IsPairTable lang.now) tables.now }
    requires few { length tables.now ≤ 64 }
    ensures { OnOk result (AreAdded (AcceptBy lang.now tables.now) masks.old.items masks.new.items
        (lang.now.value_count ^ 2)) }
{
    for place in 0..u32::from(lang.d()).pow(2) {
        masks.push(pair_mask(lang, tables, place))?;
    }
    Ok(())
}

/// Whether the relations on a scope of two variables have these tables.
fn has_tables(lang: &Language, s: ScopeId, tables: &[u8]) -> bool
    requires scope { s < length lang.now.scopes }
    requires two { length (scope_at lang.now s) ≡ 2 }
    ensures { result ≡ true → HasTables lang.now s tables.now }
{
    let count = lang.relations_on(s);
    if usize::from(count) != tables.len() {
        return false;
    }
    for r in 0..count {
        if lang.pair_table(s, r) != tables[usize::from(r)] {
            return false;
        }
    }
    true
}

/// The tables of the relations on a scope of two variables.
fn tables_on(alloc: Global, lang: &Language, s: ScopeId) -> Result<Vec<u8>, AllocError>
    requires scope { s < length lang.now.scopes }
    requires two { length (scope_at lang.now s) ≡ 2 }
    ensures has { IfOk result (λ v. HasTables lang.now s v.items) }
    ensures known { IfOk result (λ v. All (IsPairTable lang.now) v.items) }
    ensures few { IfOk result (λ v. length v.items ≤ 64) }
{
    let mut tables = Vec::new(alloc);
    for r in 0..lang.relations_on(s) {
        tables.push(lang.pair_table(s, r))?;
    }
    Ok(tables)
}

/// Where the masks begin of a scope of two variables that is of one of these classes.
fn begin_among(lang: &Language, s: ScopeId, classes: &[Class]) -> u32
    requires lawful { IsLanguage lang.now }
    requires scope { s < length lang.now.scopes }
    requires two { length (scope_at lang.now s) ≡ 2 }
    ensures { (masks : List ℕ) → AreClasses lang.now classes.now masks → result ≢ NO_TABLE →
        IsTableOf lang.now s masks result }
{
    for class in classes {
        if has_tables(lang, s, &class.tables) {
            return class.begin;
        }
    }
    NO_TABLE
}

/// The tables that were made for some scopes.
#[derive(Drop)]
struct Made {
    /// The masks, one table behind the other.
    masks: Vec<u64>,
    /// The classes of scopes of two variables that have a table.
    classes: Vec<Class>,
    /// For each number of variables where the table begins of the scopes with so many whose
    /// variables have all values, once it was made.
    begins: [u32; 5],
}

impl Made {
    /// Where the table of a scope of two variables begins, if it has one. The first of a class has
    /// it made, unless there are many.
    fn pair_begin(&mut self, alloc: Global, lang: &Language, s: ScopeId) -> Result<u32, Memory>
        requires lawful { IsLanguage lang.now }
        requires made { IsMadeOfScopes lang.now self.old }
        requires scope { s < length lang.now.scopes }
        requires two { length (scope_at lang.now s) ≡ 2 }
        requires room { length self.old.masks.items ≤ 65536 * s }
        ensures made { OnOk result (IsMadeOfScopes lang.now self.new) }
        ensures wider { OnOk result (AreWider self.old.masks.items self.new.masks.items) }
        ensures room { OnOk result (length self.new.masks.items ≤ 65536 * (s + 1)) }
        ensures table { IfOk result (λ begin. begin ≢ NO_TABLE →
            IsTableOf lang.now s self.new.masks.items begin) }
    {
        let known = begin_among(lang, s, &self.classes);
        let is_full = self.classes.len() >= MOST_CLASSES && !lang.is_whole(s);
        if known != NO_TABLE || is_full {
            return Ok(known);
        }
        let begin = self.masks.len() as u32;
        let tables = tables_on(alloc, lang, s)?;
        add_pair_masks(&mut self.masks, lang, &tables)?;
        self.classes.push(Class { tables, begin })?;
        Ok(begin)
    }

    /// Where the table of a scope begins, if it has one: of its own, unless it has two variables.
    fn new_begin(&mut self, alloc: Global, lang: &Language, s: ScopeId) -> Result<u32, Memory>
        requires lawful { IsLanguage lang.now }
        requires made { IsMadeOfScopes lang.now self.old }
        requires scope { s < length lang.now.scopes }
        requires room { length self.old.masks.items ≤ 65536 * s }
        ensures made { OnOk result (IsMadeOfScopes lang.now self.new) }
        ensures wider { OnOk result (AreWider self.old.masks.items self.new.masks.items) }
        ensures room { OnOk result (length self.new.masks.items ≤ 65536 * (s + 1)) }
        ensures table { IfOk result (λ begin. begin ≢ NO_TABLE →
            IsTableOf lang.now s self.new.masks.items begin) }
    {
        if lang.scope(s).len() == 2 {
            return self.pair_begin(alloc, lang, s);
        }
        if !lang.is_whole(s) {
            return Ok(NO_TABLE);
        }
        let begin = self.masks.len() as u32;
        add_masks(&mut self.masks, lang, s)?;
        Ok(begin)
    }

    /// Where the table of a scope begins, if it has one.
    fn begin(&mut self, alloc: Global, lang: &Language, s: ScopeId) -> Result<u32, Memory>
        requires lawful { IsLanguage lang.now }
        requires made { IsMadeOfScopes lang.now self.old }
        requires scope { s < length lang.now.scopes }
        requires room { length self.old.masks.items ≤ 65536 * s }
        ensures made { OnOk result (IsMadeOfScopes lang.now self.new) }
        ensures wider { OnOk result (AreWider self.old.masks.items self.new.masks.items) }
        ensures room { OnOk result (length self.new.masks.items ≤ 65536 * (s + 1)) }
        ensures table { IfOk result (λ begin. begin ≢ NO_TABLE →
            IsTableOf lang.now s self.new.masks.items begin) }
    {
        if !lang.is_whole(s) {
            return self.new_begin(alloc, lang, s);
        }
        let size = lang.scope(s).len();
        if self.begins[size] == NO_TABLE {
            self.begins[size] = self.new_begin(alloc, lang, s)?;
        }
        Ok(self.begins[size])
    }
}

impl Tables {
    /// The tables of a language. `Memory` where there is none for them.
    pub(crate) fn of(alloc: Global, lang: &Language) -> Result<Tables, Memory>
        ensures { IfOk result (IsAcceptingOf lang.now) }
    {
        let mut first = Vec::new(alloc);
        let mut made = Made {
            masks: Vec::new(alloc),
            classes: Vec::new(alloc),
            begins: [NO_TABLE; 5],
        };
        for s in 0..lang.scopes() as ScopeId {
            let begin = made.begin(alloc, lang, s)?;
            let Ok(()) = first.push(begin) else {
                return Err(Memory);
            };
        }
        let (Ok(next), Ok(rows)) = (runs_of(alloc, lang), rows_of(alloc, lang, &first)) else {
            return Err(Memory);
        };
        Ok(Tables {
            first,
            masks: made.masks,
            next,
            rows,
        })
    }

    /// In the row that begins with a scope the first scope with relations, of these, that the
    /// question violates.
    #[inline]
    fn next_in_row(
        &self,
        lang: &Language,
        q: &Partial,
        shown: VarSet,
        left: &Left,
        s: ScopeId,
        value: u8,
    ) -> Option<Violated>
        requires made { IsAcceptingOf lang.now self.now }
        requires question { IsQuestion lang.now q.now }
        requires shown { shown ≡ variables_of q.now }
        requires left { length left.now ≡ length lang.now.scopes }
        requires row { s < slice_index_or self.now.rows s 0 }
        requires scope { s < length lang.now.scopes }
        requires value { value_of q.now (first_of lang.now s) ≡ Some value }
        ensures found { IfSome result (IsViolated lang.now q.now left.now s) }
        ensures none { IfNone result
            (AreNoneViolated lang.now q.now left.now s (slice_index_or self.now.rows s 0)) }
    {
        let end = self.rows[usize::from(s)];
        let second = usize::from(lang.scope(s)[1]);
        let d = usize::from(lang.d());
        let begin = self.first[usize::from(s)] as usize + usize::from(value) * d;
        let row = &left.masks()[usize::from(s)..usize::from(end)];
        let accepting = &self.masks[begin..begin + d];
        let (place, violated) = first_in_row(q, shown, left, s, row, accepting, second)?;
        Some(Violated {
            scope: s + place as ScopeId,
            relations: violated,
        })
    }

    /// From a scope on the first one with relations, of these, that the question violates.
    ///
    /// Scopes whose first variable the question leaves open are passed over in runs, and in a row
    /// of scopes, 64 at once, those whose second one it leaves open and those without relations.
    /// Each other one costs the reading of a value, and one AND; or one look at each relation,
    /// where the scope has no table.
    pub(crate) fn next_violated(
        &self,
        lang: &Language,
        q: &Partial,
        shown: VarSet,
        left: &Left,
        from: ScopeId,
    ) -> Option<Violated>
        requires made { IsAcceptingOf lang.now self.now }
        requires question { IsQuestion lang.now q.now }
        requires shown { shown ≡ variables_of q.now }
        requires left { length left.now ≡ length lang.now.scopes }
        requires from { from ≤ length lang.now.scopes }
        ensures found { IfSome result (IsViolated lang.now q.now left.now from) }
        ensures none { IfNone result
            (AreNoneViolated lang.now q.now left.now from (length lang.now.scopes)) }
    {
        let scopes = lang.scopes() as ScopeId;
        let mut s = from;
        while s < scopes {
            let Some(value) = q.get(lang.scope(s)[0]) else {
                s = self.next[usize::from(s)];
                continue;
            };
            let end = self.rows[usize::from(s)];
            if s < end {
                if let Some(found) = self.next_in_row(lang, q, shown, left, s, value) {
                    return Some(found);
                }
                s = end;
            } else {
                let violated = violated_on(self, lang, s, q, left.on(s));
                if violated != 0 {
                    return Some(Violated {
                        scope: s,
                        relations: violated,
                    });
                }
                s += 1;
            }
        }
        None
    }

    /// Lists the variables of the scopes with relations, of these, that the question violates, in
    /// the order of scopes, as far as there is room. Says how many sets these are, and whether they
    /// are all.
    pub(crate) fn list_violated(
        &self,
        lang: &Language,
        q: &Partial,
        left: &Left,
        sets: &mut [VarSet],
    ) -> (usize, bool)
        requires made { IsAcceptingOf lang.now self.now }
        requires question { IsQuestion lang.now q.now }
        requires left { length left.now ≡ length lang.now.scopes }
        ensures { AreHitsListed lang.now q.now left.now sets.new result.0 result.1 }
    {
        let shown = q.vars();
        let mut count = 0;
        let mut from = 0;
        while let Some(found) = self.next_violated(lang, q, shown, left, from) {
            if count == sets.len() {
                return (count, false);
            }
            sets[count] = lang.scope_set(found.scope);
            count += 1;
            from = found.scope + 1;
        }
        (count, true)
    }

    /// The relations on a scope that accept a question's tuple there, which has this place.
    #[inline]
    fn accepting_asked(&self, lang: &Language, s: ScopeId, place: u32) -> u64
        requires made { IsAcceptingOf lang.now self.now }
        requires scope { s < length lang.now.scopes }
        requires place { place < places_on lang.now s }
        ensures { (q : Assignment) → IsQuestion lang.now q → Some place ≡ place_on lang.now s q →
            Accepts lang.now s place result }
    {
        let _d = lang.d();
        let first = self.first[usize::from(s)];
        if first == NO_TABLE {
            return accepting_at(lang, s, place);
        }
        self.masks[first as usize + place as usize]
    }

    /// The relations on a scope that accept the tuple at a place: bit r is one exactly where
    /// relation r does.
    pub(crate) fn accepting(&self, lang: &Language, s: ScopeId, place: u32) -> u64
        requires made { IsAcceptingOf lang.now self.now }
        requires scope { s < length lang.now.scopes }
        requires place { place < places_on lang.now s }
        ensures { ones_of result ≡ accepting_on lang.now s place }
    {
        let first = self.first[usize::from(s)];
        if first == NO_TABLE || !is_inside(lang, s, place) {
            return accepting_at(lang, s, place);
        }
        self.masks[first as usize + place as usize]
    }
}
