// What a vocabulary holds, before its relations and scopes are read.
ghost use Rattle.std.specs.Prelude.{◌≡◌, ◌≤◌, length, IfOk, IfSome};
ghost use Rattle.serde_json.specs.View.{view, items_view};
ghost use Rattle.voc_read.specs.Answers.{Reads};
ghost use Rattle.voc_read.specs.Outline.{held_by, held_data, found_data, is_all, listed_under};
ghost use Rattle.voc_read.specs.Outline.{listed_items, ranges_under, outline_of, outline_data};
ghost use Rattle.voc_read.specs.Outline.{IsHeldWithin, IsOutlineWithin};
ghost use Rattle.voc_read.specs.Widest.{widest, widest_in};

use crate::fault::{Spot, VocFault};
use crate::keys::{check_keys, under};
use crate::values::{items_of, number_pair, text_list};
use serde_json::Value;
use std::alloc::Global;

static KEYS: [&str; 5] = ["variables", "domain", "relations", "scopes", "ranges"];

/// The values under the keys of a vocabulary.
#[derive(Clone, Copy)]
pub struct Held<'a> {
    pub variables: &'a Value,
    pub domain: &'a Value,
    pub relations: &'a Value,
    pub scopes: &'a Value,
    /// The value under the key that may be absent.
    pub ranges: Option<&'a Value>,
}

/// The values that an object holds under exactly these keys, of which `ranges` alone may be absent.
pub fn held_by<'a>(whole: &'a Value) -> Result<Held<'a>, VocFault>
    ensures within { IfOk result
        (λ held. IsHeldWithin (widest (view whole.entry.now)) (held_data held)) }
    ensures is { Reads held_data (held_by (view whole.entry.now)) result }
{
    check_keys(whole, &KEYS, Spot::Whole)?;
    let variables = under(whole, "variables", Spot::Variables)?;
    let domain = under(whole, "domain", Spot::Domain)?;
    let relations = under(whole, "relations", Spot::Relations)?;
    let scopes = under(whole, "scopes", Spot::Scopes)?;
    Ok(Held {
        variables,
        domain,
        relations,
        scopes,
        ranges: whole.get("ranges"),
    })
}

/// The names and the domain, with the relations, the scopes and the ranges that are still to be
/// read.
#[derive(Drop)]
pub struct Outline<'a> {
    pub names: Vec<&'a str>,
    pub least_value: i64,
    pub greatest_value: i64,
    pub relations: &'a [Value],
    /// The scopes that are listed, where they are.
    pub listed: Option<&'a [Value]>,
    pub ranges: &'a [Value],
}

/// Whether the scopes are the string `all`.
fn is_all(scopes: &Value) -> bool
    ensures { result ≡ is_all (view scopes.now) }
{
    match scopes.as_str() {
        Some(text) => text == "all",
        None => false,
    }
}

/// The scopes that are listed, or none for the string `all`.
fn listed_under<'a>(scopes: &'a Value) -> Result<Option<&'a [Value]>, VocFault>
    ensures few { IfOk result
        (λ listed. IfSome listed (λ list. length list.now ≤ widest (view scopes.entry.now))) }
    ensures is { Reads listed_items (listed_under (view scopes.entry.now)) result }
{
    if is_all(scopes) {
        return Ok(None);
    }
    let list = items_of(scopes, Spot::Scopes)?;
    Ok(Some(list))
}

/// The ranges that are stated, none where the key is absent.
fn ranges_under<'a>(ranges: Option<&'a Value>) -> Result<&'a [Value], VocFault>
    ensures few { IfOk result (λ list. length list.now ≤ widest_in (found_data ranges.entry)) }
    ensures is { Reads (λ list. items_view list.now)
        (ranges_under (found_data ranges.entry)) result }
{
    match ranges {
        Some(value) => items_of(value, Spot::Ranges),
        None => Ok(&[]),
    }
}

/// What the values are, where each is of its kind.
pub fn outline_of<'a>(alloc: Global, held: &Held<'a>) -> Result<Outline<'a>, VocFault>
    ensures within { IfOk result (IsOutlineWithin (held_data held.entry.now)) }
    ensures is { Reads outline_data (outline_of (held_data held.entry.now)) result }
{
    let names = text_list(alloc, held.variables, Spot::Variables)?;
    let (least_value, greatest_value) = number_pair(alloc, held.domain, Spot::Domain)?;
    let relations = items_of(held.relations, Spot::Relations)?;
    let listed = listed_under(held.scopes)?;
    let ranges = ranges_under(held.ranges)?;
    Ok(Outline {
        names,
        least_value,
        greatest_value,
        relations,
        listed,
        ranges,
    })
}
