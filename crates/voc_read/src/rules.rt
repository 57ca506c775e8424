// What tells which tuples a relation accepts: a list of them, or a formula.
ghost use Rattle.std.specs.Prelude.{◌≡◌, ◌≢◌, ◌<◌, ◌≤◌, ◌^◌, length, IfOk, IfErr};
ghost use Rattle.std.specs.Option.{option_map};
ghost use Rattle.serde_json.specs.View.{view};
ghost use Rattle.rel_table.specs.Made.{lists};
ghost use Rattle.rel_table.specs.Table.{TruthTable};
ghost use Rattle.rel_formula.specs.Reading.{formula_in};
ghost use Rattle.voc_read.specs.Answers.{Reads};
ghost use Rattle.voc_read.specs.Rules.{stated_under, stated_data, stated_widest, rule_in};
ghost use Rattle.voc_read.specs.Rules.{rule_data, tuple_count, rule_formula, relation_of_tuples};
ghost use Rattle.voc_read.specs.Rules.{relation_of_formula, relation_of_rule};
ghost use Rattle.voc_read.specs.Widest.{widest};

use crate::domain::Domain;
use crate::fault::{Spot, VocFault};
use crate::values::tuple_list;
use rel_formula::{Formula, FormulaFault, TableOfFault, read_formula};
use rel_table::{Table, TableFault};
use serde_json::Value;
use std::alloc::Global;

/// What a vocabulary states under one of the two keys.
#[derive(Clone, Copy)]
pub enum Stated<'a> {
    Tuples(&'a Value),
    Formula(&'a Value),
}

/// What stands under `tuples` or `formula`: one of the keys has to be there, and not both.
pub fn stated_under<'a>(value: &'a Value, here: Spot) -> Result<Stated<'a>, VocFault>
    ensures part { IfOk result
        (λ stated. stated_widest (stated_data stated) ≤ widest (view value.entry.now)) }
    ensures is { Reads stated_data (stated_under here (view value.entry.now)) result }
{
    match (value.get("tuples"), value.get("formula")) {
        (None, None) => Err(VocFault::Missing(here)),
        (Some(tuples), None) => Ok(Stated::Tuples(tuples)),
        (None, Some(formula)) => Ok(Stated::Formula(formula)),
        (Some(_), Some(_)) => Err(VocFault::WrongKind(here)),
    }
}

/// The tuples of a relation, or the value that is to be its formula.
#[derive(Drop)]
pub enum Rule<'a> {
    Tuples(Vec<Vec<i64>>),
    Formula(&'a Value),
}

/// The rule that is stated, where tuples are an array of arrays of whole numbers.
pub fn rule_in<'a>(alloc: Global, stated: Stated<'a>, here: Spot) -> Result<Rule<'a>, VocFault>
    ensures few { IfOk result
        (λ rule. tuple_count rule ≤ stated_widest (stated_data stated.entry)) }
    ensures is { Reads rule_data (rule_in here (stated_data stated.entry)) result }
{
    match stated {
        Stated::Tuples(value) => {
            let tuples = tuple_list(alloc, value, here)?;
            Ok(Rule::Tuples(tuples))
        }
        Stated::Formula(value) => Ok(Rule::Formula(value)),
    }
}

/// Why there is no table of relation i, as the vocabulary tells it.
fn table_fault(i: u32, fault: TableFault) -> VocFault
    ensures memory { fault ≡ TableFault.Memory → result ≡ VocFault.Memory }
    ensures other { fault ≢ TableFault.Memory → result ≡ VocFault.Table i fault }
{
    match fault {
        TableFault::Memory => VocFault::Memory,
        _ => VocFault::Table(i, fault),
    }
}

/// The table of tuples, for relation i.
fn table_of_tuples(
    alloc: Global,
    i: u32,
    domain: Domain,
    arity: u8,
    tuples: &[Vec<i64>],
) -> Result<Table, VocFault>
    requires some { 1 ≤ arity }
    requires short { arity ≤ 4 }
    requires fits { domain.value_count ^ arity ≤ 65536 }
    requires few { length tuples.now < 2 ^ 32 }
    ensures is { Reads (λ (t : TruthTable). t.truth) (relation_of_tuples i domain.least_value
        domain.value_count arity (lists tuples.now)) result }
    ensures long { IfOk result (λ t. t.arity ≡ arity) }
    ensures values { IfOk result (λ t. t.value_count ≡ domain.value_count) }
{
    match Table::from_tuples(
        alloc,
        i64::from(arity),
        domain.least_value,
        domain.value_count,
        tuples,
    ) {
        Ok(table) => {
            // The size tells that there is a truth value for each tuple.
            let _size = table.size();
            Ok(table)
        }
        Err(fault) => Err(table_fault(i, fault)),
    }
}

/// The formula of relation i.
fn formula_of(alloc: Global, i: u32, arity: u8, value: &Value) -> Result<Formula, VocFault>
    ensures { Reads (λ f. f) (rule_formula i (formula_in arity (view value.now))) result }
{
    match read_formula(alloc, value, arity) {
        Ok(formula) => Ok(formula),
        Err(FormulaFault::Memory) => Err(VocFault::Memory),
        Err(fault) => Err(VocFault::Formula(i, fault)),
    }
}

/// Why the formula of relation i has no table, as the vocabulary tells it.
fn evaluation_fault(i: u32, fault: TableOfFault) -> VocFault
    ensures memory { fault ≡ TableOfFault.Memory → result ≡ VocFault.Memory }
    ensures other { fault ≢ TableOfFault.Memory → result ≡ VocFault.TableOf i fault }
{
    match fault {
        TableOfFault::Memory => VocFault::Memory,
        _ => VocFault::TableOf(i, fault),
    }
}

/// The table of a formula, for relation i.
fn table_of_formula(
    alloc: Global,
    i: u32,
    domain: Domain,
    arity: u8,
    value: &Value,
) -> Result<Table, VocFault>
    requires some { 1 ≤ arity }
    requires short { arity ≤ 4 }
    requires fits { domain.value_count ^ arity ≤ 65536 }
    ensures is { Reads (λ (t : TruthTable). t.truth) (relation_of_formula i domain.least_value
        domain.value_count arity (view value.now)) result }
    ensures long { IfOk result (λ t. t.arity ≡ arity) }
    ensures values { IfOk result (λ t. t.value_count ≡ domain.value_count) }
{
    let formula = formula_of(alloc, i, arity, value)?;
    match rel_formula::table_of(
        alloc,
        &formula,
        arity,
        domain.least_value,
        domain.value_count,
    ) {
        Ok(table) => Ok(table),
        Err(fault) => Err(evaluation_fault(i, fault)),
    }
}

/// The table of a rule, for relation i.
pub fn table_by(
    alloc: Global,
    i: u32,
    domain: Domain,
    arity: u8,
    rule: &Rule<'_>,
) -> Result<Table, VocFault>
    requires some { 1 ≤ arity }
    requires short { arity ≤ 4 }
    requires fits { domain.value_count ^ arity ≤ 65536 }
    requires few { tuple_count rule.now < 2 ^ 32 }
    ensures is { Reads (λ (t : TruthTable). t.truth) (relation_of_rule i domain.least_value
        domain.value_count arity (rule_data rule.now)) result }
    ensures long { IfOk result (λ t. t.arity ≡ arity) }
    ensures values { IfOk result (λ t. t.value_count ≡ domain.value_count) }
{
    match rule {
        Rule::Tuples(tuples) => table_of_tuples(alloc, i, domain, arity, tuples),
        Rule::Formula(value) => table_of_formula(alloc, i, domain, arity, value),
    }
}
