// The scopes that a vocabulary lists.
ghost use Rattle.std.specs.Prelude.{◌≡◌, ◌<◌, ◌≤◌, ◌^◌, length, map, None, IfOk, IfSome};
ghost use Rattle.std.specs.Option.{ok_or};
ghost use Rattle.serde_json.specs.View.{view, items_view};
ghost use Rattle.language.specs.Building.{listed_in, AreKnown, AreCountable};
ghost use Rattle.voc_read.specs.Answers.{Reads};
ghost use Rattle.voc_read.specs.Names.{first_repeat};
ghost use Rattle.voc_read.specs.Outline.{listed_items};
ghost use Rattle.voc_read.specs.Scopes.{numbers_of, scope_stated, scopes_from, scopes_stated};
ghost use Rattle.voc_read.specs.Texts.{texts_of};

use crate::fault::{Spot, VocFault};
use crate::names::{index_names, number_of};
use crate::values::text_list;
use indexmap::IndexSet;
use language::ScopePart;
use serde_json::Value;
use smallvec::SmallVec;
use std::alloc::Global;

/// The numbers of the variables that scope i lists.
fn numbers_of(
    alloc: Global,
    i: u32,
    names: &IndexSet<&str>,
    listed: &[&str],
) -> Result<SmallVec<u8, 4>, VocFault>
    requires { length names.now.keys ≤ 128 }
    ensures { Reads (λ scope. scope.items) (ok_or (numbers_of (texts_of names.now.keys)
        (texts_of listed.now)) (VocFault.UnknownVariable i)) result }
{
    let mut scope = SmallVec::new(alloc);
    for name in listed {
        let number = number_of(names, name).ok_or(VocFault::UnknownVariable(i))?;
        scope.push(number)?;
    }
    Ok(scope)
}

/// The variables of scope i.
fn scope_of(
    alloc: Global,
    i: u32,
    names: &IndexSet<&str>,
    value: &Value,
) -> Result<SmallVec<u8, 4>, VocFault>
    requires { length names.now.keys ≤ 128 }
    ensures { Reads
        (λ scope. scope.items) (scope_stated i (texts_of names.now.keys) (view value.now)) result }
{
    let listed = text_list(alloc, value, Spot::Scope(i))?;
    numbers_of(alloc, i, names, &listed)
}

/// The scopes of a list.
fn scopes_in(
    alloc: Global,
    names: &IndexSet<&str>,
    list: &[Value],
) -> Result<Vec<SmallVec<u8, 4>>, VocFault>
    requires variables { length names.now.keys ≤ 128 }
    requires few { length list.now < 2 ^ 32 }
    ensures is { Reads (λ v. map (λ scope. scope.items) v.items)
        (scopes_from 0 (texts_of names.now.keys) (items_view list.now)) result }
    ensures each { IfOk result (λ v. length v.items ≡ length list.now) }
{
    let mut scopes = Vec::new(alloc);
    for (i, value) in list.iter().enumerate() {
        let scope = scope_of(alloc, i as u32, names, value)?;
        scopes.push(scope)?;
    }
    Ok(scopes)
}

/// The scopes of variables of these names: those that are listed, or all.
pub fn scopes_of(
    alloc: Global,
    names: &[&str],
    listed: Option<&[Value]>,
) -> Result<ScopePart, VocFault>
    requires variables { length names.now ≤ 128 }
    requires apart { first_repeat (texts_of names.now) ≡ None }
    requires few { IfSome listed (λ list. length list.now < 2 ^ 32) }
    ensures is { Reads listed_in
        (scopes_stated (texts_of names.now) (listed_items listed.entry)) result }
    ensures known { IfOk result (λ part. AreKnown (length names.now) (listed_in part)) }
    ensures countable { IfOk result (λ part. AreCountable (listed_in part)) }
{
    match listed {
        None => Ok(ScopePart::All),
        Some(list) => {
            let numbers = index_names(alloc, names)?;
            let scopes = scopes_in(alloc, &numbers, list)?;
            Ok(ScopePart::Listed(scopes))
        }
    }
}
