// The relations of a vocabulary.
ghost use Rattle.std.specs.Prelude.{◌≡◌, ◌≢◌, ◌<◌, ◌≤◌, ◌^◌, length, map, All, string_bytes, IfOk};
ghost use Rattle.serde_json.specs.View.{view, items_view};
ghost use Rattle.language.specs.Inside.{given_by};
ghost use Rattle.language.specs.Building.{IsOver};
ghost use Rattle.language.specs.Language.{AreNames};
ghost use Rattle.voc_read.specs.Answers.{Reads, Refuses};
ghost use Rattle.voc_read.specs.Relations.{relation_data, stated_relation, name_refusal};
ghost use Rattle.voc_read.specs.Relations.{small_arity, made_of, relation_stated, relations_from};
ghost use Rattle.voc_read.specs.Relations.{given_names, relation_names_refusal, listed_relations};
ghost use Rattle.voc_read.specs.Relations.{IsNamed};
ghost use Rattle.voc_read.specs.Rules.{tuple_count};
ghost use Rattle.voc_read.specs.Texts.{texts_of};
ghost use Rattle.voc_read.specs.Widest.{widest, items_widest};

use crate::domain::Domain;
use crate::fault::{Spot, VocFault};
use crate::keys::{check_keys, under};
use crate::names::first_repeat;
use crate::rules::{Rule, rule_in, stated_under, table_by};
use crate::values::whole_number;
use language::{RelPart, is_name};
use rel_table::table_size;
use serde_json::Value;
use std::alloc::{AllocError, Global};

static KEYS: [&str; 4] = ["name", "arity", "tuples", "formula"];

/// A relation as the vocabulary states it.
#[derive(Drop)]
struct StatedRelation<'a> {
    name: &'a str,
    arity: i64,
    rule: Rule<'a>,
}

/// What an object states under these keys, each value of its kind.
fn stated_by<'a>(
    alloc: Global,
    value: &'a Value,
    here: Spot,
) -> Result<StatedRelation<'a>, VocFault>
    ensures few { IfOk result (λ stated. tuple_count stated.rule ≤ widest (view value.entry.now)) }
    ensures is { Reads stated_relation (relation_data here (view value.entry.now)) result }
{
    check_keys(value, &KEYS, here)?;
    let name = under(value, "name", here)?;
    let arity = under(value, "arity", here)?;
    let stated = stated_under(value, here)?;
    let name = name.as_str().ok_or(VocFault::WrongKind(here))?;
    let arity = whole_number(arity, here)?;
    let rule = rule_in(alloc, stated, here)?;
    Ok(StatedRelation { name, arity, rule })
}

/// Refuses a name that doesn't have the form of one.
fn check_name(i: u32, name: &str) -> Result<(), VocFault>
    ensures { Refuses (name_refusal i name.now) result }
{
    if !is_name(name) {
        return Err(VocFault::BadRelName(i));
    }
    Ok(())
}

/// The arity of relation i, where there are 1 to 65,536 tuples of it.
fn small_arity(i: u32, value_count: u32, arity: i64) -> Result<u8, VocFault>
    ensures is { Reads (λ a. a) (small_arity i value_count arity) result }
    ensures some { IfOk result (λ a. 1 ≤ a) }
    ensures short { IfOk result (λ a. a ≤ 4) }
    ensures fits { IfOk result (λ a. value_count ^ a ≤ 65536) }
{
    match table_size(arity, value_count) {
        Ok(_) => Ok(arity as u8),
        Err(fault) => Err(VocFault::Table(i, fault)),
    }
}

/// Relation i, made of what is stated.
fn made_of(
    alloc: Global,
    i: u32,
    domain: Domain,
    stated: &StatedRelation<'_>,
) -> Result<RelPart, VocFault>
    requires { tuple_count stated.now.rule < 2 ^ 32 }
    ensures is { Reads given_by
        (made_of i domain.least_value domain.value_count (stated_relation stated.now)) result }
    ensures kind { IfOk result (IsOver domain.value_count) }
    ensures named { IfOk result IsNamed }
{
    check_name(i, stated.name)?;
    let arity = small_arity(i, domain.value_count, stated.arity)?;
    let table = table_by(alloc, i, domain, arity, &stated.rule)?;
    let name = String::from_str(alloc, stated.name)?;
    Ok(RelPart { name, table })
}

/// Relation i, over the values of the domain.
fn relation_of(alloc: Global, i: u32, domain: Domain, value: &Value) -> Result<RelPart, VocFault>
    requires { widest (view value.now) < 2 ^ 32 }
    ensures is { Reads given_by
        (relation_stated i domain.least_value domain.value_count (view value.now)) result }
    ensures kind { IfOk result (IsOver domain.value_count) }
    ensures named { IfOk result IsNamed }
{
    let stated = stated_by(alloc, value, Spot::Relation(i))?;
    made_of(alloc, i, domain, &stated)
}

/// The relations of a vocabulary, in its order.
fn relations_of(alloc: Global, domain: Domain, list: &[Value]) -> Result<Vec<RelPart>, VocFault>
    requires few { length list.now < 2 ^ 32 }
    requires parts { items_widest (items_view list.now) < 2 ^ 32 }
    ensures is { Reads (λ v. map given_by v.items)
        (relations_from 0 domain.least_value domain.value_count (items_view list.now)) result }
    ensures kinds { IfOk result (λ v. All (IsOver domain.value_count) v.items) }
    ensures named { IfOk result (λ v. All IsNamed v.items) }
    ensures each { IfOk result (λ v. length v.items ≡ length list.now) }
{
    let mut relations = Vec::new(alloc);
    for (i, value) in list.iter().enumerate() {
        let relation = relation_of(alloc, i as u32, domain, value)?;
        relations.push(relation)?;
    }
    Ok(relations)
}

/// The names of the relations.
fn names_of<'a>(alloc: Global, relations: &'a [RelPart]) -> Result<Vec<&'a str>, AllocError>
    ensures { IfOk result (λ v. texts_of v.items ≡ given_names (map given_by relations.entry.now)) }
{
    let mut names = Vec::new(alloc);
    for relation in relations {
        names.push(relation.name.as_str())?;
    }
    Ok(names)
}

/// Refuses relations of which two have one name.
fn check_names_apart(alloc: Global, relations: &[RelPart]) -> Result<(), VocFault>
    requires { length relations.now < 2 ^ 32 }
    ensures { Refuses (relation_names_refusal (map given_by relations.now)) result }
{
    let names = names_of(alloc, relations)?;
    if let Some((i, j)) = first_repeat(alloc, &names)? {
        return Err(VocFault::RelRepeated(i, j));
    }
    Ok(())
}

/// The relations of a vocabulary, no two of one name.
pub fn given_of(alloc: Global, domain: Domain, list: &[Value]) -> Result<Vec<RelPart>, VocFault>
    requires few { length list.now < 2 ^ 32 }
    requires parts { items_widest (items_view list.now) < 2 ^ 32 }
    ensures is { Reads (λ v. map given_by v.items)
        (listed_relations domain.least_value domain.value_count (items_view list.now)) result }
    ensures kinds { IfOk result (λ v. All (IsOver domain.value_count) v.items) }
    ensures names { IfOk result (λ v. AreNames (given_names (map given_by v.items))) }
{
    let given = relations_of(alloc, domain, list)?;
    check_names_apart(alloc, &given)?;
    Ok(given)
}
