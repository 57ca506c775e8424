//! What is known of a condition before a search.

ghost use Rattle.std.specs.Prelude.{◌≡◌, ◌<◌, ◌≤◌, ℕ, All, length, take, slice_index_or};
ghost use Rattle.language.specs.Language.{IsLanguage, IsCandidate, scope_of};
ghost use Rattle.propagators.specs.Families.{arc_of};
ghost use Rattle.propagators.specs.Briefs.{IsBriefOf, IsBriefOn, bound_at};

use crate::pairs::{bounds_of, tells_apart};
use language::{Candidate, Language, PairBounds};

/// A condition on two variables.
#[derive(Clone, Copy)]
pub struct Pair {
    pub(crate) first: u8,
    pub(crate) second: u8,
    /// The number of its relation's table.
    pub(crate) table: u8,
    /// Whether the relation is to hold, or not to hold.
    pub(crate) holding: bool,
    /// How many values of either variable it rejects at most with one of the other. With more of
    /// them it takes no value of the other away.
    pub(crate) bounds: PairBounds,
}

/// A condition on one variable, or on three or four.
#[derive(Clone, Copy)]
pub struct OnScope {
    /// Its variables; those from `size` on have no meaning.
    pub(crate) scope: [u8; 4],
    pub(crate) size: u8,
    /// Whether the relation is to hold, or not to hold.
    pub(crate) holding: bool,
    pub(crate) candidate: Candidate,
}

/// What is known of a condition before a search.
#[derive(Clone, Copy)]
pub enum Brief {
    /// It has two variables.
    Two(Pair),
    /// It has two, and says that they differ.
    Apart(Pair),
    /// It is another one.
    Other(OnScope),
}

/// What stands for a brief where there is none.
pub(crate) const BLANK: Brief = Brief::Other(OnScope {
    scope: [0; 4],
    size: 0,
    holding: false,
    candidate: Candidate { scope: 0, rel: 0 },
});

/// The variables of a scope in the first ones of four places.
fn four_places(scope: &[u8]) -> [u8; 4]
    requires { length scope.now ≤ 4 }
    ensures { take (length scope.now) result ≡ scope.now }
{
    let mut places = [0; 4];
    places[..scope.len()].copy_from_slice(scope);
    places
}

/// The brief of a candidate on a scope, where it is to hold, or not to hold.
pub(crate) fn brief_of(lang: &Language, c: Candidate, scope: &[u8], holding: bool) -> Brief
    requires lawful { IsLanguage lang.now }
    requires candidate { IsCandidate lang.now c }
    requires scope { scope.now ≡ scope_of lang.now c }
    ensures is { IsBriefOf lang.now (arc_of lang.now c holding) result }
    ensures on { IsBriefOn scope.now result }
{
    if scope.len() != 2 {
        return Brief::Other(OnScope {
            scope: four_places(scope),
            size: scope.len() as u8,
            holding,
            candidate: c,
        });
    }
    let table = lang.pair_table(c.scope, c.rel);
    let pair = Pair {
        first: scope[0],
        second: scope[1],
        table,
        holding,
        bounds: bounds_of(lang, table, holding),
    };
    if tells_apart(lang, table, holding) {
        Brief::Apart(pair)
    } else {
        Brief::Two(pair)
    }
}

/// Raises a variable's limit to a bound.
fn raise(limits: &mut [u8], v: u8, bound: u8)
    requires { v < length limits.old }
    ensures there { bound ≤ slice_index_or limits.new v 0 }
    ensures grows { (u : ℕ) → slice_index_or limits.old u 0 ≤ slice_index_or limits.new u 0 }
{
    let v = usize::from(v);
    limits[v] = limits[v].max(bound);
}

/// Raises the limits of a scope's variables to the bounds of the brief that the condition has.
pub(crate) fn raise_all(limits: &mut [u8], scope: &[u8], brief: Brief)
    requires known { All (λ v. v < length limits.old) scope.now }
    requires is { IsBriefOn scope.now brief }
    ensures there { (j : ℕ) → j < length scope.now →
        bound_at brief j ≤ slice_index_or limits.new (slice_index_or scope.now j 0) 0 }
    ensures grows { (u : ℕ) → slice_index_or limits.old u 0 ≤ slice_index_or limits.new u 0 }
{
    match brief {
        Brief::Two(pair) => {
            raise(limits, pair.first, pair.bounds.first);
            raise(limits, pair.second, pair.bounds.second);
        }
        Brief::Apart(pair) => {
            raise(limits, pair.first, pair.bounds.first);
            raise(limits, pair.second, pair.bounds.second);
        }
        Brief::Other(_) => {
            for v in scope {
                raise(limits, *v, 64);
            }
        }
    }
}
