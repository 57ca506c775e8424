ghost use Rattle.std.specs.Prelude.{◌≡◌, ◌<◌, ◌≤◌, ◌^◌, ℕ, ◌++◌, ◌∷◌, ◌&&◌, ◌==◌, pos, negsuc};
ghost use Rattle.std.specs.Prelude.{◌≤ℤ◌, List, [], length, map, All, OnOk, IfOk, string_bytes};
ghost use Rattle.std.specs.Prelude.{if◌then◌else◌, slice_index_or};
ghost use Rattle.std.specs.List.{flat_map};
ghost use Rattle.std.specs.Fmt.{decimal, signed_decimal};
ghost use Rattle.language.specs.Inside.{given_by};
ghost use Rattle.rel_table.specs.Relation.{Relation};
ghost use Rattle.language.specs.Ranges.{widened};
ghost use Rattle.language.specs.Language.{of_arity, given_within, IsScope};
ghost use Rattle.language.specs.Texts.{value_text, values_text, is_part, joined, names_containing};

use crate::narrow::is_part_on;
use crate::parts::RelPart;
use crate::ranges::ValueRange;
use assign::{Partial, VarSet};
use itoa::Buffer;
use rel_table::Table;
use std::alloc::{AllocError, Global};

/// Adds a number. Most have one digit, and are spared the general way, which takes much longer.
fn add_number(text: &mut String, number: i64) -> Result<(), AllocError>
    ensures { OnOk result (string_bytes text.new ≡ string_bytes text.old ++ signed_decimal number) }
{
    match u8::try_from(number) {
        Ok(digit) if digit < 10 => text.push(char::from(b'0' + digit)),
        _ => text.push_str(Buffer::new().format(number)),
    }
}

/// Adds the number of a question.
fn add_mark(text: &mut String, k: u32) -> Result<(), AllocError>
    ensures { OnOk result (string_bytes text.new ≡ string_bytes text.old ++ 113 ∷ decimal k) }
{
    text.push('q')?;
    text.push_str(Buffer::new().format(k))
}

/// Adds a space, the name, `=` and the shown value, where the variable has a value.
fn add_value(
    text: &mut String,
    least_value: i64,
    name: &str,
    value: Option<u8>,
) -> Result<(), AllocError>
    requires low { negsuc 999999 ≤ℤ least_value }
    requires high { least_value ≤ℤ pos 1000000 }
    ensures { OnOk result
        (string_bytes text.new ≡ string_bytes text.old ++ value_text least_value name.now value) }
{
    let Some(value) = value else {
        return Ok(());
    };
    text.push(' ')?;
    text.push_str(name)?;
    text.push('=')?;
    add_number(text, least_value + i64::from(value))
}

/// How many bytes a question's text takes that gives values to these variables, unless names or
/// numbers are long. With so many at hand it needn't grow.
pub(crate) fn room_for(valued: VarSet) -> usize {
    16 + 8 * usize::from(valued.len())
}

/// Writes `q1 a=1 b=2` in place of what the text held.
pub(crate) fn write_question(
    text: &mut String,
    k: u32,
    least_value: i64,
    names: &[String],
    q: &Partial,
) -> Result<(), AllocError>
    requires low { negsuc 999999 ≤ℤ least_value }
    requires high { least_value ≤ℤ pos 1000000 }
    requires few { length names.now ≤ 128 }
    ensures { OnOk result (string_bytes text.new ≡ 113
        ∷ (decimal k ++ values_text least_value (map string_bytes names.now) q.now)) }
{
    text.clear();
    add_mark(text, k)?;
    let mut left = q.vars();
    while let Some(v) = left.least() {
        let at = usize::from(v);
        if at >= names.len() {
            return Ok(());
        }
        add_value(text, least_value, names[at].as_str(), q.get(v))?;
        left = left.without(v);
    }
    Ok(())
}

/// Whether the relation has the scope's length, and contains the table's there.
fn contains(part: &RelPart, ranges: &[ValueRange], scope: &[u8], table: &Table) -> bool
    requires scope { IsScope (length ranges.now) scope.now }
    requires size { length table.now.truth ≡ table.now.value_count ^ length scope.now }
    requires part { length part.now.table.truth ≡ table.now.value_count ^ part.now.table.arity }
    ensures { let on : Relation → Relation = widened ranges.now table.now.value_count scope.now in
        result ≡ ((part.now.table.arity == length scope.now) && is_part (on table.now.truth)
        (on part.now.table.truth)) }
{
    part.table.arity() as usize == scope.len() && is_part_on(ranges, scope, table, &part.table)
}

/// Adds a name to others, with `&` between them.
fn add_name(text: &mut String, name: &str) -> Result<(), AllocError>
    ensures { OnOk result (string_bytes text.new ≡ (if length (string_bytes text.old) == 0
        then name.now else string_bytes text.old ++ 38 ∷ name.now)) }
{
    if text.is_empty() {
        return text.push_str(name);
    }
    write!(text, "&{name}")
}

/// `eq&ne`
fn name_of(
    alloc: Global,
    given: &[RelPart],
    ranges: &[ValueRange],
    scope: &[u8],
    table: &Table,
) -> Result<String, AllocError>
    requires names { All (λ part. 1 ≤ length (string_bytes part.name)) given.now }
    requires sized { All
        (λ part. length part.table.truth ≡ table.now.value_count ^ part.table.arity) given.now }
    requires scope { IsScope (length ranges.now) scope.now }
    requires size { length table.now.truth ≡ table.now.value_count ^ length scope.now }
    ensures { IfOk result (λ t. let d = table.now.value_count in string_bytes t ≡ joined 38
        (names_containing (widened ranges.now d scope.now table.now.truth) (map (given_within
        ranges.now d scope.now) (of_arity (length scope.now) (map given_by given.now))))) }
{
    let mut text = String::new(alloc);
    for part in given {
        if contains(part, ranges, scope, table) {
            add_name(&mut text, part.name.as_str())?;
        }
    }
    Ok(text)
}

/// `eq&ne a b`
pub(crate) fn text_of_candidate(
    alloc: Global,
    given: &[RelPart],
    ranges: &[ValueRange],
    scope: &[u8],
    table: &Table,
    names: &[String],
) -> Result<String, AllocError>
    requires names { All (λ part. 1 ≤ length (string_bytes part.name)) given.now }
    requires sized { All
        (λ part. length part.table.truth ≡ table.now.value_count ^ part.table.arity) given.now }
    requires scope { IsScope (length ranges.now) scope.now }
    requires size { length table.now.truth ≡ table.now.value_count ^ length scope.now }
    requires known { length names.now ≡ length ranges.now }
    ensures { IfOk result (λ t. let d = table.now.value_count in
        string_bytes t ≡ joined 38 (names_containing
        (widened ranges.now d scope.now table.now.truth) (map (given_within ranges.now d scope.now)
        (of_arity (length scope.now) (map given_by given.now)))) ++ flat_map (λ name.
        32 ∷ name) (map (λ (v : ℕ). slice_index_or (map string_bytes names.now) v []) scope.now)) }
{
    let mut text = name_of(alloc, given, ranges, scope, table)?;
    for v in scope {
        let name = names[*v as usize].as_str();
        write!(text, " {name}")?;
    }
    Ok(text)
}
