ghost use Rattle.std.specs.Prelude.{◌≡◌, ◌≢◌, ℕ, ◌-◌, ◌≤◌, [], map, length, slice_index_or, All};
ghost use Rattle.std.specs.Prelude.{IfOk, IfErr, OnOk, Some, None};
ghost use Rattle.rel_table.specs.Table.{TruthTable, IsTable};
ghost use Rattle.language.specs.Language.{Given, AreNames};
ghost use Rattle.language.specs.Inside.{given_by};
ghost use Rattle.language.specs.Building.{build_refusal, closing_refusal, listed_in, AreCountable};
ghost use Rattle.language.specs.Building.{AreKnown, IsBuilt, IsOver};
ghost use Rattle.language.specs.Built.{IsClosedOf};

use crate::frame::Frame;
use crate::lang::Language;
use crate::masks::PairMasks;
use crate::narrow::are_all;
use crate::numbering::numbers_of;
use crate::parts::{LangFault, RelPart, ScopePart};
use crate::scopes::stated_scopes;
use rel_table::{CloseFault, Closed, Memory, Table, close};
use std::alloc::Global;

/// The relations' tables.
fn tables_of(alloc: Global, rels: &[RelPart]) -> Result<Vec<Table>, Memory>
    ensures is { IfOk result (λ v. v.items ≡ map (λ (part : RelPart). part.table) rels.now) }
    ensures lawful { IfOk result (λ v. All IsTable v.items) }
{
    let mut tables = Vec::new(alloc);
    for rel in rels {
        let _arity = rel.table.arity();
        // A relation meets itself in itself.
        let copy = rel.table.meet(alloc, &rel.table)?;
        tables.push(copy)?;
    }
    Ok(tables)
}

/// The relations closed under intersection.
fn closed_relations(alloc: Global, rels: &[RelPart]) -> Result<Closed, LangFault>
    ghost d: { ℕ }
    requires tables { All (IsOver d) rels.now }
    ensures closed { IfOk result (λ lists. (arity : ℕ) → 1 ≤ arity → arity ≤ 4 →
        IsClosedOf d arity (map given_by rels.now) (slice_index_or lists (arity - 1) [])) }
    ensures four { IfOk result (λ lists. length lists ≡ 4) }
    ensures made { OnOk result (closing_refusal (map given_by rels.now) ≡ None) }
    ensures lawful { OnOk result (All (λ (part : RelPart). IsTable part.table) rels.now) }
    ensures refused { IfErr result (λ e. e ≢ LangFault.Memory →
        closing_refusal (map given_by rels.now) ≡ Some e) }
{
    let tables = tables_of(alloc, rels)?;
    match close(alloc, &tables) {
        Ok(closed) => Ok(closed),
        Err(CloseFault::TooMany(arity)) => Err(LangFault::Closing(CloseFault::TooMany(arity))),
        Err(CloseFault::Memory) => Err(LangFault::Memory),
    }
}

impl Language {
    /// The language of these relations over these scopes, with the relations of each arity closed
    /// under intersection.
    ///
    /// Refused, in this order: no relation; a scope that is empty, longer than 4 or not strictly
    /// rising; more than 8,192 scopes; a scope that stands twice; a scope within another; a scope
    /// with no relation of its length; an arity with more than 64 intersections. The least scope is
    /// named, and of pairs the one whose second scope is least, and then whose first is.
    pub fn build(
        alloc: Global,
        frame: Frame,
        rels: Vec<RelPart>,
        scopes: ScopePart,
    ) -> Result<Language, LangFault>
        requires tables { All (IsOver frame.value_count) rels.items }
        requires names { AreNames (map (λ (g : Given). g.name) (map given_by rels.items)) }
        requires known { AreKnown (length frame.names) (listed_in scopes) }
        requires countable { AreCountable (listed_in scopes) }
        ensures built { IfOk result
            (λ l. IsBuilt frame (map given_by rels.items) (listed_in scopes) l) }
        ensures made { OnOk result (build_refusal (length frame.names) (map given_by rels.items)
            (listed_in scopes) ≡ None) }
        ensures refused { IfErr result (λ e. e ≢ LangFault.Memory → build_refusal
            (length frame.names) (map given_by rels.items) (listed_in scopes) ≡ Some e) }
    {
        if rels.is_empty() {
            return Err(LangFault::NoRelations);
        }
        let scopes = stated_scopes(alloc, frame.names.len() as u8, &rels, scopes)?;
        let relations = closed_relations(alloc, &rels)?;
        let Frame {
            names,
            least_value,
            value_count,
            ranges,
        } = frame;
        let own = &ranges[..names.len()];
        let is_whole = are_all(own, value_count);
        let numbers = numbers_of(alloc, own, value_count, &rels, &scopes, &relations)?;
        let pairs = PairMasks::of(alloc, value_count, relations.list(2))?;
        Ok(Language {
            names,
            least_value,
            value_count,
            ranges,
            is_whole,
            given: rels,
            scopes,
            relations,
            on: numbers.on,
            numbers: numbers.starts,
            pairs,
        })
    }
}
