// The ranges of values that a vocabulary states.
ghost use Rattle.std.specs.Prelude.{◌≡◌, ◌≢◌, ◌<◌, ◌≤◌, ◌^◌, length, map, None, All, AllPairs};
ghost use Rattle.std.specs.Prelude.{IfOk, OnOk};
ghost use Rattle.std.specs.Option.{ok_or};
ghost use Rattle.serde_json.specs.View.{view, items_view};
ghost use Rattle.voc_read.specs.Answers.{Reads, Refuses};
ghost use Rattle.voc_read.specs.Names.{first_repeat};
ghost use Rattle.voc_read.specs.Ranges.{stated_of, range_stated_by, range_data, stated_range};
ghost use Rattle.voc_read.specs.Ranges.{bounds_refusal, named_range, range_for, range_stated};
ghost use Rattle.voc_read.specs.Ranges.{ranges_from, ranged_names, ranges_refusal, ranges_of};
ghost use Rattle.voc_read.specs.Texts.{texts_of};

use crate::domain::Domain;
use crate::fault::{Spot, VocFault};
use crate::names::{first_repeat, index_names, number_of};
use crate::values::{items_of, whole_number};
use indexmap::IndexSet;
use serde_json::Value;
use std::alloc::{AllocError, Global};

/// A range as the vocabulary states it.
#[derive(Clone, Copy)]
struct StatedRange<'a> {
    name: &'a str,
    lowest: i64,
    highest: i64,
}

/// What a string and two whole numbers state.
fn stated_of<'a>(
    name: &'a Value,
    lowest: &Value,
    highest: &Value,
    here: Spot,
) -> Result<StatedRange<'a>, VocFault>
    ensures { Reads stated_range (ok_or (stated_of (view name.entry.now) (view lowest.now)
        (view highest.now)) (VocFault.WrongKind here)) result }
{
    let name = name.as_str().ok_or(VocFault::WrongKind(here))?;
    let lowest = whole_number(lowest, here)?;
    let highest = whole_number(highest, here)?;
    Ok(StatedRange {
        name,
        lowest,
        highest,
    })
}

/// What a list of one string and two whole numbers states.
fn stated_by<'a>(list: &'a [Value], here: Spot) -> Result<StatedRange<'a>, VocFault>
    ensures { Reads stated_range
        (ok_or (range_stated_by (items_view list.entry.now)) (VocFault.WrongKind here)) result }
{
    match list {
        [name, lowest, highest] => stated_of(name, lowest, highest, here),
        _ => Err(VocFault::WrongKind(here)),
    }
}

/// What an array of one string and two whole numbers states.
fn stated_in<'a>(value: &'a Value, here: Spot) -> Result<StatedRange<'a>, VocFault>
    ensures { Reads stated_range
        (ok_or (range_data (view value.entry.now)) (VocFault.WrongKind here)) result }
{
    let list = items_of(value, here)?;
    stated_by(list, here)
}

/// Refuses range i where its highest value is below the lowest, or one of them is outside the
/// domain.
fn check_bounds(i: u32, domain: Domain, stated: StatedRange<'_>) -> Result<(), VocFault>
    ensures { Refuses (bounds_refusal i domain.least_value domain.value_count
        (stated_range stated.entry)) result }
{
    if stated.lowest <= stated.highest && domain.has(stated.lowest) && domain.has(stated.highest) {
        Ok(())
    } else {
        Err(VocFault::BadRange(i))
    }
}

/// The range of a variable.
#[derive(Clone, Copy)]
pub struct NamedRange<'a> {
    pub name: &'a str,
    pub variable: u8,
    pub lowest: i64,
    pub highest: i64,
}

/// Range i, of the variable whose name is stated.
fn range_for<'a>(
    i: u32,
    domain: Domain,
    names: &IndexSet<&str>,
    stated: StatedRange<'a>,
) -> Result<NamedRange<'a>, VocFault>
    requires { length names.now.keys ≤ 128 }
    ensures { Reads named_range (range_for i domain.least_value domain.value_count
        (texts_of names.now.keys) (stated_range stated.entry)) result }
{
    let variable = number_of(names, stated.name).ok_or(VocFault::RangeName(i))?;
    check_bounds(i, domain, stated)?;
    Ok(NamedRange {
        name: stated.name,
        variable,
        lowest: stated.lowest,
        highest: stated.highest,
    })
}

/// Range i.
fn range_of<'a>(
    i: u32,
    domain: Domain,
    names: &IndexSet<&str>,
    value: &'a Value,
) -> Result<NamedRange<'a>, VocFault>
    requires { length names.now.keys ≤ 128 }
    ensures { Reads named_range (range_stated i domain.least_value domain.value_count
        (texts_of names.now.keys) (view value.entry.now)) result }
{
    let stated = stated_in(value, Spot::Range(i))?;
    range_for(i, domain, names, stated)
}

/// The ranges of a list.
fn ranges_in<'a>(
    alloc: Global,
    domain: Domain,
    names: &IndexSet<&str>,
    list: &'a [Value],
) -> Result<Vec<NamedRange<'a>>, VocFault>
    requires variables { length names.now.keys ≤ 128 }
    requires few { length list.now < 2 ^ 32 }
    ensures is { Reads (λ v. map named_range v.items) (ranges_from 0 domain.least_value
        domain.value_count (texts_of names.now.keys) (items_view list.entry.now)) result }
    ensures each { IfOk result (λ v. length v.items ≡ length list.entry.now) }
{
    let mut ranges = Vec::new(alloc);
    for (i, value) in list.iter().enumerate() {
        let range = range_of(i as u32, domain, names, value)?;
        ranges.push(range)?;
    }
    Ok(ranges)
}

/// The names of the variables that have a range.
fn names_of<'a>(alloc: Global, ranges: &[NamedRange<'a>]) -> Result<Vec<&'a str>, AllocError>
    ensures { IfOk result (λ v. texts_of v.items ≡ ranged_names (map named_range ranges.now)) }
{
    let mut names = Vec::new(alloc);
    for range in ranges {
        names.push(range.name)?;
    }
    Ok(names)
}

/// Refuses ranges of which two are of one variable.
fn check_apart(alloc: Global, ranges: &[NamedRange<'_>]) -> Result<(), VocFault>
    requires { length ranges.now < 2 ^ 32 }
    ensures { Refuses (ranges_refusal (map named_range ranges.now)) result }
{
    let names = names_of(alloc, ranges)?;
    if let Some((i, j)) = first_repeat(alloc, &names)? {
        return Err(VocFault::RangeRepeated(i, j));
    }
    Ok(())
}

/// The ranges of variables of these names, no two of one variable.
pub fn ranges_of<'a>(
    alloc: Global,
    domain: Domain,
    names: &[&str],
    list: &'a [Value],
) -> Result<Vec<NamedRange<'a>>, VocFault>
    requires variables { length names.now ≤ 128 }
    requires apart { first_repeat (texts_of names.now) ≡ None }
    requires few { length list.now < 2 ^ 32 }
    ensures { Reads (λ v. map named_range v.items) (ranges_of domain.least_value domain.value_count
        (texts_of names.now) (items_view list.entry.now)) result }
{
    let numbers = index_names(alloc, names)?;
    let ranges = ranges_in(alloc, domain, &numbers, list)?;
    check_apart(alloc, &ranges)?;
    Ok(ranges)
}
