// The text of each fault.
ghost use Rattle.std.specs.Prelude.{◌≡◌, ◌++◌, codes, string_bytes, IfOk};
ghost use Rattle.std.specs.Fmt.{decimal};
ghost use Rattle.voc_read.specs.FaultTexts.{pair_text, spot_text, table_text, formula_text};
ghost use Rattle.voc_read.specs.FaultTexts.{evaluation_text, lang_text, fault_text};

use crate::fault::{Spot, VocFault};
use language::LangFault;
use rel_formula::{FormulaFault, TableOfFault};
use rel_table::{CloseFault, TableFault};
use std::alloc::{AllocError, Global};

/// A text behind another.
fn joined(alloc: Global, before: &str, after: &str) -> Result<String, AllocError>
    ensures { IfOk result (λ text. string_bytes text ≡ before.now ++ after.now) }
{
    format!(in alloc; "{before}{after}")
}

/// A number behind a text.
fn numbered(alloc: Global, before: &str, i: u32) -> Result<String, AllocError>
    ensures { IfOk result (λ text. string_bytes text ≡ before.now ++ decimal i) }
{
    format!(in alloc; "{before}{i}")
}

/// Two numbers behind a text.
fn numbered_twice(alloc: Global, before: &str, i: u32, j: u32) -> Result<String, AllocError>
    ensures { IfOk result (λ text. string_bytes text ≡ before.now ++ pair_text i j) }
{
    format!(in alloc; "{before}{i} {j}")
}

/// A number behind two texts.
fn placed(alloc: Global, what: &str, place: &str, i: u32) -> Result<String, AllocError>
    ensures { IfOk result (λ text. string_bytes text ≡ what.now ++ (place.now ++ decimal i)) }
{
    format!(in alloc; "{what}{place}{i}")
}

/// What is wrong with relation i: two texts behind its number.
fn of_relation(alloc: Global, i: u32, what: &str, reason: &str) -> Result<String, AllocError>
    ensures { IfOk result
        (λ text. string_bytes text ≡ codes "relation " ++ (decimal i ++ (what.now ++ reason.now))) }
{
    format!(in alloc; "relation {i}{what}{reason}")
}

/// What is wrong, and where.
fn spot_text(alloc: Global, what: &str, spot: Spot) -> Result<String, AllocError>
    ensures { IfOk result (λ text. string_bytes text ≡ what.now ++ spot_text spot) }
{
    match spot {
        Spot::Whole => joined(alloc, what, "whole"),
        Spot::Variables => joined(alloc, what, "variables"),
        Spot::Domain => joined(alloc, what, "domain"),
        Spot::Relations => joined(alloc, what, "relations"),
        Spot::Relation(i) => placed(alloc, what, "relation ", i),
        Spot::Scopes => joined(alloc, what, "scopes"),
        Spot::Scope(i) => placed(alloc, what, "scope ", i),
        Spot::Ranges => joined(alloc, what, "ranges"),
        Spot::Range(i) => placed(alloc, what, "range ", i),
    }
}

/// Why there is no table.
fn table_text(alloc: Global, fault: TableFault) -> Result<String, AllocError>
    ensures { IfOk result (λ text. string_bytes text ≡ table_text fault) }
{
    match fault {
        TableFault::BadArity => String::from_str(alloc, "bad arity"),
        TableFault::TupleLength(t) => numbered(alloc, "tuple length ", t),
        TableFault::ValueOut(t) => numbered(alloc, "value out ", t),
        TableFault::TooLarge => String::from_str(alloc, "too large"),
        TableFault::Memory => String::from_str(alloc, "memory"),
    }
}

/// Why a value is no formula.
fn formula_text(alloc: Global, fault: FormulaFault) -> Result<String, AllocError>
    ensures { IfOk result (λ text. string_bytes text ≡ formula_text fault) }
{
    match fault {
        FormulaFault::BadShape(p) => numbered(alloc, "bad shape ", p),
        FormulaFault::BadOperator(p) => numbered(alloc, "bad operator ", p),
        FormulaFault::BadPosition(p) => numbered(alloc, "bad position ", p),
        FormulaFault::TooDeep => String::from_str(alloc, "too deep"),
        FormulaFault::TooManyNodes => String::from_str(alloc, "too many nodes"),
        FormulaFault::Memory => String::from_str(alloc, "memory"),
    }
}

/// Why there is no table of a formula.
fn evaluation_text(alloc: Global, fault: TableOfFault) -> Result<String, AllocError>
    ensures { IfOk result (λ text. string_bytes text ≡ evaluation_text fault) }
{
    match fault {
        TableOfFault::TooBig(p) => numbered(alloc, "value too big ", p),
        TableOfFault::Memory => String::from_str(alloc, "memory"),
    }
}

/// Why relation i has no table.
fn table_fault_text(alloc: Global, i: u32, fault: TableFault) -> Result<String, AllocError>
    ensures { IfOk result (λ text. string_bytes text ≡ codes "relation "
        ++ (decimal i ++ (codes " table " ++ table_text fault))) }
{
    let reason = table_text(alloc, fault)?;
    of_relation(alloc, i, " table ", reason.as_str())
}

/// Why relation i has no formula.
fn formula_fault_text(alloc: Global, i: u32, fault: FormulaFault) -> Result<String, AllocError>
    ensures { IfOk result (λ text. string_bytes text ≡ codes "relation "
        ++ (decimal i ++ (codes " formula " ++ formula_text fault))) }
{
    let reason = formula_text(alloc, fault)?;
    of_relation(alloc, i, " formula ", reason.as_str())
}

/// Why the formula of relation i has no table.
fn evaluation_fault_text(alloc: Global, i: u32, fault: TableOfFault) -> Result<String, AllocError>
    ensures { IfOk result (λ text. string_bytes text ≡ codes "relation "
        ++ (decimal i ++ (codes " " ++ evaluation_text fault))) }
{
    let reason = evaluation_text(alloc, fault)?;
    of_relation(alloc, i, " ", reason.as_str())
}

/// Why there is no language.
fn lang_text(alloc: Global, fault: LangFault) -> Result<String, AllocError>
    ensures { IfOk result (λ text. string_bytes text ≡ lang_text fault) }
{
    match fault {
        LangFault::NoVariables => String::from_str(alloc, "no variables"),
        LangFault::TooManyVariables => String::from_str(alloc, "too many variables"),
        LangFault::BadDomain => String::from_str(alloc, "bad domain"),
        LangFault::NoRelations => String::from_str(alloc, "no relations"),
        LangFault::ScopeOrder(i) => numbered(alloc, "scope order ", i),
        LangFault::TooManyScopes => String::from_str(alloc, "too many scopes"),
        LangFault::ScopeRepeated(i, j) => numbered_twice(alloc, "scope repeated ", i, j),
        LangFault::Nested(i, j) => numbered_twice(alloc, "nested ", i, j),
        LangFault::NoRelationOfArity(i) => numbered(alloc, "no relation of arity ", i),
        LangFault::Closing(CloseFault::TooMany(arity)) => {
            numbered(alloc, "too many relations ", u32::from(arity))
        }
        LangFault::Closing(CloseFault::Memory) | LangFault::Memory => {
            String::from_str(alloc, "memory")
        }
    }
}

/// The text of a fault, as a user reads it behind `refused vocabulary `. No vocabulary causes want
/// of memory; it is told as `memory`.
pub fn voc_text(alloc: Global, fault: VocFault) -> Result<String, AllocError>
    ensures { IfOk result (λ text. string_bytes text ≡ fault_text fault) }
{
    match fault {
        VocFault::TooLong => String::from_str(alloc, "too long"),
        VocFault::NotJson => String::from_str(alloc, "not json"),
        VocFault::Missing(spot) => spot_text(alloc, "missing ", spot),
        VocFault::WrongKind(spot) => spot_text(alloc, "wrong kind ", spot),
        VocFault::UnknownKey(spot) => spot_text(alloc, "unknown key ", spot),
        VocFault::BadName(i) => numbered(alloc, "bad name ", i),
        VocFault::NameRepeated(i, j) => numbered_twice(alloc, "name repeated ", i, j),
        VocFault::RangeName(i) => numbered(alloc, "range name ", i),
        VocFault::BadRange(i) => numbered(alloc, "bad range ", i),
        VocFault::RangeRepeated(i, j) => numbered_twice(alloc, "range repeated ", i, j),
        VocFault::BadRelName(i) => numbered(alloc, "bad relation name ", i),
        VocFault::RelRepeated(i, j) => numbered_twice(alloc, "relation repeated ", i, j),
        VocFault::UnknownVariable(i) => numbered(alloc, "unknown variable ", i),
        VocFault::Formula(i, fault) => formula_fault_text(alloc, i, fault),
        VocFault::Table(i, fault) => table_fault_text(alloc, i, fault),
        VocFault::TableOf(i, fault) => evaluation_fault_text(alloc, i, fault),
        VocFault::Lang(fault) => lang_text(alloc, fault),
        VocFault::Memory => String::from_str(alloc, "memory"),
    }
}
