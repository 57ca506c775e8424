//! Scopes and relations, told by their names.

ghost use Rattle.std.specs.Prelude.{◌≡◌, ℕ, ◌^◌, ◌<◌, ◌≤◌, List, [], length, map, All};
ghost use Rattle.std.specs.Prelude.{string_bytes, slice_index_or, option_map, IfSome};
ghost use Rattle.std.specs.Str.{bytes_eq};
ghost use Rattle.std.specs.Cmp.Lexicographic.{pointwise};
ghost use Rattle.assign.specs.SetLemmas.{is_one};
ghost use Rattle.rel_table.specs.Table.{TruthTable};
ghost use Rattle.language.specs.Inside.{given_by};
ghost use Rattle.language.specs.Language.{of_arity, scope_at, relations_on, IsLanguage};
ghost use Rattle.language.specs.Ranges.{widened};
ghost use Rattle.language.specs.ByName.{texts_of, has_names, scope_named, relation_among};
ghost use Rattle.language.specs.ByName.{relation_named, TellsWithin, TellsNamed};

use crate::candidates::ScopeId;
use crate::lang::Language;
use crate::narrow::is_part_on;
use crate::parts::RelPart;
use rel_table::Table;

/// The table of the relation of this arity and name.
fn table_named<'a>(given: &'a [RelPart], arity: u8, name: &str) -> Option<&'a Table>
    ensures { option_map (λ t. t.now.truth) result
        ≡ relation_among name.now (of_arity arity (map given_by given.entry.now)) }
{
    for part in given {
        if part.table.arity() == arity && part.name.as_str() == name {
            return Some(&part.table);
        }
    }
    None
}

/// Whether the variables of a scope have these names, in this order.
fn are_named(all: &[String], scope: &[u8], names: &[&str]) -> bool
    requires { All (λ v. v < length all.now) scope.now }
    ensures { result ≡ pointwise bytes_eq (map (λ (v : ℕ).
        slice_index_or (map string_bytes all.now) v []) scope.now) (texts_of names.now) }
{
    if scope.len() != names.len() {
        return false;
    }
    for i in 0..scope.len() {
        if all[scope[i] as usize].as_str() != names[i] {
            return false;
        }
    }
    true
}

impl Language {
    /// Whether the variables of a scope have these names, in this order.
    fn has_names(&self, s: ScopeId, names: &[&str]) -> bool
        requires { s < length self.now.scopes }
        ensures { result ≡ has_names self.now (texts_of names.now) (scope_at self.now s) }
    {
        are_named(&self.names, self.scope(s), names)
    }

    /// The scope whose variables have these names, in this order, if there is one. Takes no memory.
    pub fn scope_named(&self, names: &[&str]) -> Option<ScopeId>
        ensures is { result ≡ scope_named self.now (texts_of names.now) }
        ensures known { IfSome result (λ s. s < length self.now.scopes) }
        ensures lawful { IsLanguage self.now }
    {
        for s in 0..self.scopes.len() as ScopeId {
            if self.has_names(s, names) {
                return Some(s);
            }
        }
        None
    }

    /// Which relations on a scope lie within a table's there: bit r tells of relation r.
    fn within(&self, s: ScopeId, table: &Table) -> u64
        requires scope { s < length self.now.scopes }
        requires size { length table.now.truth
            ≡ self.now.value_count ^ length (scope_at self.now s) }
        ensures { TellsWithin self.now s (widened self.now.ranges self.now.value_count
            (scope_at self.now s) table.now.truth) result }
    {
        let scope = self.scope(s);
        let ranges = self.own_ranges();
        let mut relations = 0;
        for r in 0..self.relations_on(s) {
            relations |= u64::from(is_part_on(ranges, scope, self.table_on(s, r), table)) << r;
        }
        relations
    }

    /// Which relations on a scope lie within the vocabulary's relation of this name, of the scope's
    /// arity: bit r tells of relation r. None where no relation of the arity has the name. Takes no
    /// memory.
    pub fn within_named(&self, s: ScopeId, name: &str) -> Option<u64>
        requires { s < length self.now.scopes }
        ensures { TellsNamed self.now s (relation_named self.now s name.now) result }
    {
        let arity = self.scope(s).len() as u8;
        let table = table_named(&self.given, arity, name)?;
        Some(self.within(s, table))
    }
}
