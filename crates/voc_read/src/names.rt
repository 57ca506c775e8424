// The names of variables and of relations.
ghost use Rattle.std.specs.Prelude.{◌≡◌, ◌<◌, ◌≤◌, ◌^◌, not, length, map, string_bytes, position};
ghost use Rattle.std.specs.Prelude.{None, IfOk, OnOk};
ghost use Rattle.language.specs.Language.{is_name, AreNames};
ghost use Rattle.voc_read.specs.Names.{first_repeat, variable_number, names_refusal};
ghost use Rattle.voc_read.specs.Answers.{Refuses};
ghost use Rattle.voc_read.specs.Texts.{texts_of};

use crate::fault::VocFault;
use indexmap::IndexSet;
use language::is_name;
use std::alloc::{AllocError, Global};

/// The number of the first name that doesn't have the form of one.
pub fn first_bad(names: &[&str]) -> Option<usize>
    ensures { result ≡ position (λ name. not (is_name name.now)) names.now }
{
    names.iter().position(|name| !is_name(name))
}

/// The first name that repeats an earlier one: the number of that one, and its own.
pub fn first_repeat(alloc: Global, names: &[&str]) -> Result<Option<(u32, u32)>, AllocError>
    requires { length names.now < 2 ^ 32 }
    ensures { IfOk result (λ found. found ≡ first_repeat (texts_of names.now)) }
{
    let mut numbers = IndexSet::new(alloc);
    for (j, name) in names.iter().enumerate() {
        let (i, is_new) = numbers.insert_full(*name)?;
        if !is_new {
            return Ok(Some((i as u32, j as u32)));
        }
    }
    Ok(None)
}

/// These names by number, where no two are equal.
pub fn index_names<'a>(alloc: Global, names: &[&'a str]) -> Result<IndexSet<&'a str>, AllocError>
    requires few { length names.now < 2 ^ 32 }
    requires apart { first_repeat (texts_of names.now) ≡ None }
    ensures { IfOk result (λ set. texts_of set.keys ≡ texts_of names.now) }
{
    let mut numbers = IndexSet::new(alloc);
    for name in names {
        numbers.insert(*name)?;
    }
    Ok(numbers)
}

/// The number of the variable of this name.
pub fn number_of(names: &IndexSet<&str>, name: &str) -> Option<u8>
    requires { length names.now.keys ≤ 128 }
    ensures { result ≡ variable_number (texts_of names.now.keys) name.now }
{
    match names.get_index_of(&name) {
        Some(number) => Some(number as u8),
        None => None,
    }
}

/// Refuses names of variables that don't have the form of names, or that repeat another.
pub fn check_names(alloc: Global, names: &[&str]) -> Result<(), VocFault>
    requires { length names.now < 2 ^ 32 }
    ensures refused { Refuses (names_refusal (texts_of names.now)) result }
    ensures names { OnOk result (AreNames (texts_of names.now)) }
    ensures apart { OnOk result (first_repeat (texts_of names.now) ≡ None) }
{
    if let Some(i) = first_bad(names) {
        return Err(VocFault::BadName(i as u32));
    }
    if let Some((i, j)) = first_repeat(alloc, names)? {
        return Err(VocFault::NameRepeated(i, j));
    }
    Ok(())
}

/// Copies of the names.
pub fn to_strings(alloc: Global, names: &[&str]) -> Result<Vec<String>, AllocError>
    ensures { IfOk result (λ v. map string_bytes v.items ≡ texts_of names.now) }
{
    let mut copies = Vec::new(alloc);
    for name in names {
        copies.push(String::from_str(alloc, name)?)?;
    }
    Ok(copies)
}
