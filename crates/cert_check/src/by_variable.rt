//! The items of a network by the variables of their scopes.

ghost use Rattle.std.specs.Prelude.{◌≡◌, ◌<◌, ◌^◌, [], length, slice_index_or, IfOk};
ghost use Rattle.language.specs.Language.{variable_count};
ghost use Rattle.language.specs.Answers.{IsNetwork};
ghost use Rattle.cert_check.specs.ByVariable.{by_variable, has_variable, items_on};

use language::{Candidate, Language};
use std::alloc::{AllocError, Global};
use std::marker::Model;

/// For each variable the numbers of the items that have it in their scope, rising.
#[derive(Drop)]
pub(crate) struct ByVariable {
    rows: Vec<Vec<u32>>,
}

impl Model for ByVariable {
    ghost use Rattle.std.specs.Prelude.{ℕ, List};

    ghost Value = { List (List ℕ) };

    ghost use Rattle.cert_check.specs.ByVariable.{rows_of_fields};

    ghost view = { rows_of_fields };
}

/// Whether there is an item of this number, and its scope has the variable.
fn has_variable(lang: &Language, net: &[Candidate], v: u8, i: u32) -> bool
    requires { IsNetwork lang.now net.now }
    ensures { result ≡ has_variable lang.now net.now v i }
{
    match net.get(i as usize) {
        None => false,
        Some(c) => lang.scope(c.scope).contains(&v),
    }
}

/// The numbers of the items whose scope has the variable, rising.
fn items_on(
    alloc: Global,
    lang: &Language,
    net: &[Candidate],
    v: u8,
) -> Result<Vec<u32>, AllocError>
    requires network { IsNetwork lang.now net.now }
    requires few { length net.now < 2 ^ 32 }
    ensures { IfOk result (λ row. row.items ≡ items_on lang.now net.now v) }
{
    let count = net.len() as u32;
    (0..count)
        .filter(|i| has_variable(lang, net, v, *i))
        .collect(alloc)
}

impl ByVariable {
    /// Those of this network.
    pub(crate) fn of(
        alloc: Global,
        lang: &Language,
        net: &[Candidate],
    ) -> Result<ByVariable, AllocError>
        requires network { IsNetwork lang.now net.now }
        requires few { length net.now < 2 ^ 32 }
        ensures { IfOk result (λ by. by ≡ by_variable lang.now net.now) }
    {
        let mut rows = Vec::new(alloc);
        for v in 0..lang.n() {
            let row = items_on(alloc, lang, net, v)?;
            rows.push(row)?;
        }
        Ok(ByVariable { rows })
    }

    /// The numbers of the items that have this variable in their scope, rising.
    pub(crate) fn items(&self, v: u8) -> &[u32]
        requires { v < length self.now }
        ensures { result.now ≡ slice_index_or self.now v [] }
    {
        &self.rows[v as usize]
    }
}
