//! The relations on a scope whose variables have ranges.

ghost use Rattle.std.specs.Prelude.{◌≡◌, ℕ, ◌^◌, ◌<◌, ◌≤◌, [], length, map, take, drop};
ghost use Rattle.std.specs.Prelude.{slice_index_or, ◌&&◌, All, Contains, IfOk, IfSome, None};
ghost use Rattle.std.specs.List.{flat_map, range_with_len, list_all};
ghost use Rattle.assign.specs.Sets.{numbers};
ghost use Rattle.rel_table.specs.Relation.{Relation, meet, tuple_at};
ghost use Rattle.rel_table.specs.Table.{TruthTable};
ghost use Rattle.rel_table.specs.Closing.{IsOfKind};
ghost use Rattle.rel_table.specs.InOrder.{Above, IsBelow, IsInOrder};
ghost use Rattle.language.specs.Ranges.{is_in, range_in, is_whole_range, have_same_ranges, are_in};
ghost use Rattle.language.specs.Ranges.{are_whole, inside, widened};
ghost use Rattle.language.specs.Texts.{is_part};
ghost use Rattle.language.specs.Language.{IsScope};
ghost use Rattle.language.specs.Building.{relations_of_arity, IsOver};
ghost use Rattle.language.specs.Inside.{given_by, truths, chosen_on};
ghost use Rattle.language.specs.Built.{AreRanges, AreChosen, IsClosedOf};
ghost use Rattle.language.specs.PairOrder.{IsRangeMask, TellsFirstBit, TellsOrder};

use crate::parts::RelPart;
use crate::ranges::ValueRange;
use rel_table::{CloseFault, Memory, Table, close, tuple_of};
use std::alloc::{AllocError, Global};

/// Whether a value is one of a range.
fn is_in(range: ValueRange, value: u8) -> bool
    ensures { result ≡ is_in range value }
{
    range.first <= value && value <= range.last
}

/// Whether each of these variables has all values.
pub(crate) fn are_whole(ranges: &[ValueRange], d: u8, scope: &[u8]) -> bool
    requires some { 1 ≤ d }
    requires known { All (λ v. v < length ranges.now) scope.now }
    ensures { result ≡ are_whole ranges.now d scope.now }
{
    for v in scope {
        let range = ranges[*v as usize];
        if range.first != 0 || range.last != d - 1 {
            return false;
        }
    }
    true
}

/// Whether each value of the tuple at a place is one of its variable's.
pub(crate) fn lies_within(ranges: &[ValueRange], d: u8, scope: &[u8], place: u32) -> bool
    requires known { All (λ v. v < length ranges.now) scope.now }
    requires short { length scope.now ≤ 4 }
    requires place { place < d ^ length scope.now }
    ensures { result ≡ are_in ranges.now scope.now (tuple_at d (length scope.now) place) }
{
    let tuple = tuple_of(d, scope.len() as u8, place);
    for i in 0..scope.len() {
        let range = ranges[scope[i] as usize];
        if !is_in(range, tuple[i]) {
            return false;
        }
    }
    true
}

/// Whether the variables of two scopes have the same ranges, one by one.
pub(crate) fn have_same_ranges(ranges: &[ValueRange], scope: &[u8], other: &[u8]) -> bool
    requires known { All (λ v. v < length ranges.now) scope.now }
    requires other { All (λ v. v < length ranges.now) other.now }
    ensures { result ≡ have_same_ranges ranges.now scope.now other.now }
{
    if scope.len() != other.len() {
        return false;
    }
    for i in 0..scope.len() {
        let one = ranges[scope[i] as usize];
        let two = ranges[other[i] as usize];
        if one.first != two.first || one.last != two.last {
            return false;
        }
    }
    true
}

/// Whether each range is all values.
pub(crate) fn are_all(ranges: &[ValueRange], d: u8) -> bool
    requires { 1 ≤ d }
    ensures { result ≡ list_all (is_whole_range d) ranges.now }
{
    for range in ranges {
        if range.first != 0 || range.last != d - 1 {
            return false;
        }
    }
    true
}

/// The values of a range: bit y is 1 where y is one of them.
fn range_mask(range: ValueRange, d: u8) -> u64
    requires { d ≤ 64 }
    ensures { IsRangeMask d range result }
{
    let mut mask = 0;
    for y in 0..d {
        mask |= u64::from(is_in(range, y)) << y;
    }
    mask
}

/// Whether each pair of the first relation within the ranges is one of the second, row by row.
fn is_pair_part(ranges: &[ValueRange], scope: &[u8], table: &Table, other: &Table) -> bool
    requires scope { IsScope (length ranges.now) scope.now }
    requires two { length scope.now ≡ 2 }
    requires size { length table.now.truth ≡ table.now.value_count ^ 2 }
    requires other { length other.now.truth ≡ table.now.value_count ^ 2 }
    requires values { other.now.value_count ≡ table.now.value_count }
    ensures { let d = table.now.value_count in result ≡ is_part (widened ranges.now d scope.now
        table.now.truth) (widened ranges.now d scope.now other.now.truth) }
{
    let d = table.value_count();
    let range = ranges[scope[0] as usize];
    let among = range_mask(ranges[scope[1] as usize], d);
    for x in 0..d {
        let place = u32::from(x) * u32::from(d);
        if is_in(range, x) && table.row(place) & !other.row(place) & among != 0 {
            return false;
        }
    }
    true
}

/// Whether each tuple of the first relation is one of the second on a scope, where both hold
/// outside the ranges.
pub(crate) fn is_part_on(ranges: &[ValueRange], scope: &[u8], table: &Table, other: &Table) -> bool
    requires scope { IsScope (length ranges.now) scope.now }
    requires size { length table.now.truth ≡ table.now.value_count ^ length scope.now }
    requires other { length other.now.truth ≡ table.now.value_count ^ length scope.now }
    ensures { let d = table.now.value_count in result ≡ is_part (widened ranges.now d scope.now
        table.now.truth) (widened ranges.now d scope.now other.now.truth) }
{
    let value_count = table.value_count();
    if are_whole(ranges, value_count, scope) {
        return table.within(other);
    }
    if scope.len() == 2 && other.value_count() == value_count {
        return is_pair_part(ranges, scope, table, other);
    }
    for place in 0..table.size() {
        if table.at(place) && !other.at(place) && lies_within(ranges, value_count, scope, place) {
            return false;
        }
    }
    true
}

/// Puts each value before each tuple: it is within where the value is one of the range and the
/// tuple was within.
fn with_first(
    alloc: Global,
    range: ValueRange,
    d: u8,
    rest: &[bool],
) -> Result<Vec<bool>, AllocError>
    ensures { IfOk result (λ v.
        v.items ≡ flat_map (λ x. map (λ within. is_in range x && within) rest.now) (numbers d)) }
{
    let mut truth = Vec::with_capacity(alloc, rest.len())?;
    for x in 0..d {
        let is_first = is_in(range, x);
        for within in rest {
            truth.push(is_first && *within)?;
        }
    }
    Ok(truth)
}

/// Which tuples on a scope are within the ranges.
fn inside(alloc: Global, ranges: &[ValueRange], d: u8, scope: &[u8]) -> Result<Table, Memory>
    requires ranges { AreRanges d ranges.now }
    requires scope { IsScope (length ranges.now) scope.now }
    requires fits { d ^ length scope.now ≤ 65536 }
    ensures { IfOk result (λ t. t ≡ record {
      arity = length scope.now;
      value_count = d;
      truth = inside ranges.now d scope.now;
    }) }
{
    // From the last variable back, so that no place has to be taken apart.
    let mut truth = vec![in alloc; true]?;
    for k in 0..scope.len() {
        let v = scope[scope.len() - 1 - k];
        truth = with_first(alloc, ranges[v as usize], d, &truth)?;
    }
    Table::from_truth(alloc, scope.len() as u8, d, &truth)
}

/// The vocabulary's relations of a table's arity, each cut down to the table.
fn given_under(alloc: Global, rels: &[RelPart], mask: &Table) -> Result<Vec<Table>, Memory>
    requires { All (IsOver mask.now.value_count) rels.now }
    ensures are { IfOk result (λ v. truths v.items ≡ map (λ r. meet r mask.now.truth)
        (relations_of_arity (map given_by rels.now) mask.now.arity)) }
    ensures arity { IfOk result (λ v. All (λ (t : TruthTable). t.arity ≡ mask.now.arity) v.items) }
    ensures values { IfOk result
        (λ v. All (λ (t : TruthTable). t.value_count ≡ mask.now.value_count) v.items) }
{
    let mut under = Vec::new(alloc);
    for part in rels {
        if part.table.arity() == mask.arity() {
            under.push(part.table.meet(alloc, mask)?)?;
        }
    }
    Ok(under)
}

/// These tables, each cut down to another.
fn tables_under(alloc: Global, tables: &[Table], mask: &Table) -> Result<Vec<Table>, Memory>
    requires { All (IsOfKind mask.now.arity mask.now.value_count) tables.now }
    ensures are { IfOk result
        (λ v. truths v.items ≡ map (λ r. meet r mask.now.truth) (truths tables.now)) }
    ensures arity { IfOk result (λ v. All (λ (t : TruthTable). t.arity ≡ mask.now.arity) v.items) }
    ensures values { IfOk result
        (λ v. All (λ (t : TruthTable). t.value_count ≡ mask.now.value_count) v.items) }
{
    let mut under = Vec::new(alloc);
    for table in tables {
        under.push(table.meet(alloc, mask)?)?;
    }
    Ok(under)
}

/// The number of a table among others.
fn number_among(tables: &[Table], table: &Table) -> u8
    requires there { Contains tables.now table.now }
    requires few { length tables.now ≤ 64 }
    ensures below { result < length tables.now }
    ensures is { slice_index_or tables.now result table.now ≡ table.now }
{
    let mut k = 0;
    while !tables[k as usize].equals(table) {
        k += 1;
    }
    k
}

/// The numbers of tables among others.
fn numbers_among(alloc: Global, tables: &[Table], chosen: &[Table]) -> Result<Vec<u8>, AllocError>
    requires there { All (Contains tables.now) chosen.now }
    requires few { length tables.now ≤ 64 }
    ensures below { IfOk result (λ v. All (λ k. k < length tables.now) v.items) }
    ensures are { IfOk result (λ v.
        map (λ (k : ℕ). slice_index_or (truths tables.now) k []) v.items ≡ truths chosen.now) }
{
    let mut numbers = Vec::with_capacity(alloc, chosen.len())?;
    for table in chosen {
        numbers.push(number_among(tables, table))?;
    }
    Ok(numbers)
}

/// The numbers of the tables whose relations differ within the ranges, one for each relation, in
/// falling order.
fn narrow_numbers(
    alloc: Global,
    ranges: &[ValueRange],
    d: u8,
    rels: &[RelPart],
    tables: &[Table],
    scope: &[u8],
) -> Result<Vec<u8>, Memory>
    requires ranges { AreRanges d ranges.now }
    requires scope { IsScope (length ranges.now) scope.now }
    requires fits { d ^ length scope.now ≤ 65536 }
    requires over { All (IsOver d) rels.now }
    requires closed { IsClosedOf d (length scope.now) (map given_by rels.now) tables.now }
    ensures { IfOk result
        (λ v. AreChosen ranges.now d (map given_by rels.now) tables.now scope.now v.items) }
{
    let mask = inside(alloc, ranges, d, scope)?;
    let given = given_under(alloc, rels, &mask)?;
    let under = tables_under(alloc, tables, &mask)?;
    match close(alloc, &given) {
        Ok(closed) => Ok(numbers_among(alloc, &under, closed.list(scope.len() as u8))?),
        // No more relations differ within the ranges than differ at all.
        Err(CloseFault::TooMany(_)) => unreachable!(),
        Err(CloseFault::Memory) => Err(Memory),
    }
}

/// So many numbers, from 0.
fn all_numbers(alloc: Global, count: u8) -> Result<Vec<u8>, AllocError>
    ensures { IfOk result (λ v. v.items ≡ range_with_len 0 count) }
{
    let mut numbers = Vec::with_capacity(alloc, count as usize)?;
    for k in 0..count {
        numbers.push(k)?;
    }
    Ok(numbers)
}

/// Whether the first of two masks has the least bit among these that is in one of them alone.
/// Nothing where there is none.
fn first_bit(one: u64, other: u64, among: u64) -> Option<bool>
    ensures { TellsFirstBit one other among result }
{
    let differ = (one ^ other) & among;
    if differ == 0 {
        return None;
    }
    Some((one >> differ.trailing_zeros()) & 1 == 1)
}

/// Whether the first of two tables of two variables comes before the other on a scope. Nothing
/// where they are the same within the ranges. It goes by rows, of which the values of the second
/// variable's range count.
fn comes_before(
    ranges: &[ValueRange],
    d: u8,
    scope: &[u8],
    among: u64,
    one: &Table,
    other: &Table,
) -> Option<bool>
    requires ranges { AreRanges d ranges.now }
    requires scope { IsScope (length ranges.now) scope.now }
    requires two { length scope.now ≡ 2 }
    requires among { IsRangeMask d (range_in ranges.now (slice_index_or scope.now 1 0)) among }
    requires one { IsOfKind 2 d one.now }
    requires other { IsOfKind 2 d other.now }
    ensures { TellsOrder (widened ranges.now d scope.now one.now.truth)
        (widened ranges.now d scope.now other.now.truth) result }
{
    let range = ranges[scope[0] as usize];
    for x in range.first..range.last + 1 {
        let place = u32::from(x) * u32::from(d);
        let found = first_bit(one.row(place), other.row(place), among);
        if found.is_some() {
            return found;
        }
    }
    None
}

/// How many of the chosen tables, which stand in falling order on a scope of two variables, come
/// before another one; None where one of them is the same within the ranges.
fn place_within(
    ranges: &[ValueRange],
    d: u8,
    scope: &[u8],
    among: u64,
    tables: &[Table],
    chosen: &[u8],
    table: &Table,
) -> Option<usize>
    requires ranges { AreRanges d ranges.now }
    requires scope { IsScope (length ranges.now) scope.now }
    requires two { length scope.now ≡ 2 }
    requires among { IsRangeMask d (range_in ranges.now (slice_index_or scope.now 1 0)) among }
    requires kinds { All (IsOfKind 2 d) tables.now }
    requires known { All (λ k. k < length tables.now) chosen.now }
    requires table { IsOfKind 2 d table.now }
    ensures there { result ≡ None → Contains (chosen_on ranges.now d tables.now scope.now
        chosen.now) (widened ranges.now d scope.now table.now.truth) }
    ensures within { IfSome result (λ at. at ≤ length chosen.now) }
    ensures before { IfSome result (λ at. All (λ q. Above q (widened ranges.now d scope.now
        table.now.truth)) (take at (chosen_on ranges.now d tables.now scope.now chosen.now))) }
    ensures after { IfSome result (λ at. IsBelow (widened ranges.now d scope.now table.now.truth)
        (drop at (chosen_on ranges.now d tables.now scope.now chosen.now))) }
{
    for at in 0..chosen.len() {
        let here = &tables[chosen[at] as usize];
        match comes_before(ranges, d, scope, among, table, here) {
            None => return None,
            Some(true) => return Some(at),
            Some(false) => {}
        }
    }
    Some(chosen.len())
}

/// The numbers of the tables of two variables whose relations differ within the ranges, one for
/// each relation, in falling order: with no table made, unlike `narrow_numbers`.
fn pair_numbers(
    alloc: Global,
    ranges: &[ValueRange],
    d: u8,
    tables: &[Table],
    scope: &[u8],
) -> Result<Vec<u8>, AllocError>
    requires ranges { AreRanges d ranges.now }
    requires scope { IsScope (length ranges.now) scope.now }
    requires two { length scope.now ≡ 2 }
    requires kinds { All (IsOfKind 2 d) tables.now }
    requires few { length tables.now ≤ 64 }
    ensures order { IfOk result (λ v. IsInOrder (map (widened ranges.now d scope.now)
        (truths tables.now)) (chosen_on ranges.now d tables.now scope.now v.items)) }
    ensures known { IfOk result (λ v. All (λ k. k < length tables.now) v.items) }
    ensures few { IfOk result (λ v. length v.items ≤ length tables.now) }
{
    let among = range_mask(ranges[scope[1] as usize], d);
    let mut chosen = Vec::with_capacity(alloc, tables.len())?;
    for k in 0..tables.len() {
        if let Some(at) = place_within(ranges, d, scope, among, tables, &chosen, &tables[k]) {
            chosen.insert(at, k as u8)?;
        }
    }
    Ok(chosen)
}

/// The numbers of the tables of the relations on a scope, in falling order.
pub(crate) fn numbers_on(
    alloc: Global,
    ranges: &[ValueRange],
    d: u8,
    rels: &[RelPart],
    tables: &[Table],
    scope: &[u8],
) -> Result<Vec<u8>, Memory>
    requires ranges { AreRanges d ranges.now }
    requires scope { IsScope (length ranges.now) scope.now }
    requires fits { d ^ length scope.now ≤ 65536 }
    requires over { All (IsOver d) rels.now }
    requires closed { IsClosedOf d (length scope.now) (map given_by rels.now) tables.now }
    ensures { IfOk result
        (λ v. AreChosen ranges.now d (map given_by rels.now) tables.now scope.now v.items) }
{
    if are_whole(ranges, d, scope) {
        return Ok(all_numbers(alloc, tables.len() as u8)?);
    }
    if scope.len() == 2 {
        return Ok(pair_numbers(alloc, ranges, d, tables, scope)?);
    }
    narrow_numbers(alloc, ranges, d, rels, tables, scope)
}
