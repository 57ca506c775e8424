// JSON values read as what a vocabulary holds.
ghost use Rattle.std.specs.Prelude.{◌≡◌, ◌≤◌, length, IfOk};
ghost use Rattle.std.specs.Option.{ok_or};
ghost use Rattle.serde_json.specs.View.{view, items_view};
ghost use Rattle.rel_table.specs.Made.{lists};
ghost use Rattle.voc_read.specs.Answers.{Reads};
ghost use Rattle.serde_json.specs.Find.{as_array, as_str};
ghost use Rattle.voc_read.specs.Values.{whole_number, each_of, text_list, number_list, tuple_list};
ghost use Rattle.voc_read.specs.Values.{both_of, number_pair};
ghost use Rattle.voc_read.specs.Texts.{texts_of};
ghost use Rattle.voc_read.specs.Widest.{widest, items_widest};

use crate::fault::{Spot, VocFault};
use serde_json::Value;
use std::alloc::Global;

/// The values of an array.
pub fn items_of<'a>(value: &'a Value, spot: Spot) -> Result<&'a [Value], VocFault>
    ensures few { IfOk result (λ list. length list.now ≤ widest (view value.entry.now)) }
    ensures parts { IfOk result
        (λ list. items_widest (items_view list.now) ≤ widest (view value.entry.now)) }
    ensures is { Reads (λ list. items_view list.now)
        (ok_or (as_array (view value.entry.now)) (VocFault.WrongKind spot)) result }
{
    match value.as_array() {
        Some(list) => Ok(list.as_slice()),
        None => Err(VocFault::WrongKind(spot)),
    }
}

/// A whole number of 64 bits.
pub fn whole_number(value: &Value, spot: Spot) -> Result<i64, VocFault>
    ensures { result ≡ ok_or (whole_number (view value.now)) (VocFault.WrongKind spot) }
{
    value.as_i64().ok_or(VocFault::WrongKind(spot))
}

/// The whole numbers of a list.
fn numbers_of(alloc: Global, list: &[Value], spot: Spot) -> Result<Vec<i64>, VocFault>
    ensures { Reads (λ v. v.items)
        (ok_or (each_of whole_number (items_view list.now)) (VocFault.WrongKind spot)) result }
{
    let mut numbers = Vec::new(alloc);
    for value in list {
        let number = whole_number(value, spot)?;
        numbers.push(number)?;
    }
    Ok(numbers)
}

/// An array of whole numbers.
pub fn number_list(alloc: Global, value: &Value, spot: Spot) -> Result<Vec<i64>, VocFault>
    ensures { Reads
        (λ v. v.items) (ok_or (number_list (view value.now)) (VocFault.WrongKind spot)) result }
{
    let list = items_of(value, spot)?;
    numbers_of(alloc, list, spot)
}

/// The tuples of a list.
fn tuples_of(alloc: Global, list: &[Value], spot: Spot) -> Result<Vec<Vec<i64>>, VocFault>
    ensures each { IfOk result (λ v. length v.items ≡ length list.now) }
    ensures is { Reads (λ v. lists v.items)
        (ok_or (each_of number_list (items_view list.now)) (VocFault.WrongKind spot)) result }
{
    let mut tuples = Vec::new(alloc);
    for value in list {
        let tuple = number_list(alloc, value, spot)?;
        tuples.push(tuple)?;
    }
    Ok(tuples)
}

/// An array of arrays of whole numbers.
pub fn tuple_list(alloc: Global, value: &Value, spot: Spot) -> Result<Vec<Vec<i64>>, VocFault>
    ensures few { IfOk result (λ v. length v.items ≤ widest (view value.now)) }
    ensures is { Reads (λ v. lists v.items)
        (ok_or (tuple_list (view value.now)) (VocFault.WrongKind spot)) result }
{
    let list = items_of(value, spot)?;
    tuples_of(alloc, list, spot)
}

/// Two numbers.
fn both_of(numbers: &[i64]) -> Option<(i64, i64)>
    ensures { result ≡ both_of numbers.now }
{
    match numbers {
        [low, high] => Some((*low, *high)),
        _ => None,
    }
}

/// An array of two whole numbers.
pub fn number_pair(alloc: Global, value: &Value, spot: Spot) -> Result<(i64, i64), VocFault>
    ensures { Reads
        (λ pair. pair) (ok_or (number_pair (view value.now)) (VocFault.WrongKind spot)) result }
{
    let numbers = number_list(alloc, value, spot)?;
    both_of(&numbers).ok_or(VocFault::WrongKind(spot))
}

/// The strings of a list.
fn texts_in<'a>(alloc: Global, list: &'a [Value], spot: Spot) -> Result<Vec<&'a str>, VocFault>
    ensures each { IfOk result (λ v. length v.items ≡ length list.entry.now) }
    ensures is { Reads (λ v. texts_of v.items)
        (ok_or (each_of as_str (items_view list.entry.now)) (VocFault.WrongKind spot)) result }
{
    let mut texts = Vec::new(alloc);
    for value in list {
        let text = value.as_str().ok_or(VocFault::WrongKind(spot))?;
        texts.push(text)?;
    }
    Ok(texts)
}

/// An array of strings.
pub fn text_list<'a>(alloc: Global, value: &'a Value, spot: Spot) -> Result<Vec<&'a str>, VocFault>
    ensures few { IfOk result (λ v. length v.items ≤ widest (view value.entry.now)) }
    ensures is { Reads (λ v. texts_of v.items)
        (ok_or (text_list (view value.entry.now)) (VocFault.WrongKind spot)) result }
{
    let list = items_of(value, spot)?;
    texts_in(alloc, list, spot)
}
