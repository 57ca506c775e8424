//! Conditions on two variables: how many values one rejects at most.

ghost use Rattle.propagators.specs.Briefs.{TellsApart};
ghost use Rattle.std.specs.Prelude.{◌≡◌, true, ◌<◌, ◌≤◌, ◌==◌, ℕ, List, length, slice_index_or};
ghost use Rattle.std.specs.Int.{bit_at};
ghost use Rattle.rel_table.specs.Relation.{Relation};
ghost use Rattle.language.specs.Language.{IsLanguage};
ghost use Rattle.language.specs.Pairs.{rejected_of, ArePairTables, IsPairTable};
ghost use Rattle.propagators.specs.Loose.{IsBounded};
ghost use Rattle.propagators.specs.Families.{is_wanted};
ghost use Rattle.propagators.specs.Pairs.{by_table};

use crate::values::{count, first_values, only_value, passing};
use language::{Language, PairBounds};

/// Of d masks how many of the first d values one rejects at most.
fn most_rejected(masks: &[u64], d: u8, holding: bool) -> u8
    requires few { d ≤ 64 }
    requires long { length masks.now ≡ 64 }
    ensures { (x : ℕ) → x < d → rejected_of d
        (λ y. is_wanted holding (bit_at (slice_index_or masks.now x 0) y == 1)) ≤ result }
{
    let all = first_values(d);
    let mut most = 0;
    for x in 0..usize::from(d) {
        most = most.max(count(passing(all, masks[x], !holding)));
    }
    most
}

/// Whether a table of two variables, where it is to hold, or not to hold, has the pairs of
/// different values and no others.
pub(crate) fn tells_apart(lang: &Language, table: u8, holding: bool) -> bool
    requires lawful { IsLanguage lang.now }
    requires table { IsPairTable lang.now table }
    ensures { result ≡ true → (pairs : List Relation) → ArePairTables lang.now pairs →
        TellsApart lang.now.value_count (by_table lang.now pairs table holding) }
{
    let all = first_values(lang.d());
    let rows = lang.pair_rows(table);
    for x in 0..lang.d() {
        let others = passing(all, only_value(all, x), false);
        if passing(all, rows[usize::from(x)], holding) != others {
            return false;
        }
    }
    true
}

/// The bounds of a condition by a table of two variables, where it is to hold, or not to hold.
pub(crate) fn bounds_of(lang: &Language, table: u8, holding: bool) -> PairBounds
    requires lawful { IsLanguage lang.now }
    requires table { IsPairTable lang.now table }
    ensures { (pairs : List Relation) → ArePairTables lang.now pairs →
        IsBounded lang.now.value_count (by_table lang.now pairs table holding) result }
{
    let bounds = lang.pair_bounds(table);
    if holding {
        return bounds;
    }
    PairBounds {
        first: most_rejected(lang.pair_columns(table), lang.d(), false),
        second: most_rejected(lang.pair_rows(table), lang.d(), false),
        is_chain: bounds.is_chain,
    }
}
