ghost use Rattle.std.specs.Prelude.{◌≡◌, ◌≤◌, ◌+◌, ◌*◌, ◌/◌, length, vec_capacity};

use crate::briefs::Brief;

/// What is known of the conditions before a search.
#[derive(Drop)]
pub struct Plan {
    /// How many conditions there is room for.
    pub(crate) room: usize,
    /// What is known of each condition, as far as there is room. There is none in a plan that isn't
    /// written yet, and else as many as there is room for.
    pub(crate) briefs: Vec<Brief>,
    /// For each variable a bound of its conditions: with more values it supports each value of the
    /// others.
    pub(crate) limits: Vec<u8>,
    /// How many words a set of conditions has.
    pub(crate) words: usize,
    /// So many words for each variable, the first ones of all variables, then the second ones and
    /// so on. Condition i is bit i % 64 of word i / 64 of each of its variables; words past the
    /// last condition's mean nothing.
    pub(crate) sets: Vec<u64>,
    /// For each variable two words, laid out as in `sets`: the variables that have to differ from
    /// it. What says so stands in no set.
    pub(crate) aparts: Vec<u64>,
    ghost long: { length sets.items ≡ 128 * words },
    ghost covered: { length briefs.items ≤ words * 64 },
    ghost within: { length briefs.items ≤ room },
    ghost words_within: { words ≤ (room + 63) / 64 },
    ghost briefs_fit: { room ≤ vec_capacity briefs },
    ghost sets_fit: { 128 * ((room + 63) / 64) ≤ vec_capacity sets },
    ghost aparts_long: { length aparts.items ≡ 128 * 2 },
    ghost limits_long: { length limits.items ≡ 128 },
}
