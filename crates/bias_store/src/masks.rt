//! Sets of relations on a scope, each a mask of 64 bits.

ghost use Rattle.std.specs.Prelude.{◌≡◌, ◌≢◌, ◌≤◌, ◌∷◌, length};
ghost use Rattle.assign.specs.Sets.{numbers, has, ones_of};
ghost use Rattle.bias_store.specs.Ones.{IsLeastOne};

/// The first so many relations.
pub(crate) fn first_relations(count: u8) -> u64
    requires { count ≤ 64 }
    ensures { ones_of result ≡ numbers count }
{
    if count == 64 {
        u64::MAX
    } else {
        (1 << count) - 1
    }
}

/// Whether relation r is one of these.
pub(crate) fn has_relation(relations: u64, r: u8) -> bool
    ensures { result ≡ has (ones_of relations) r }
{
    r < 64 && (relations >> r) & 1 == 1
}

/// How many relations these are.
pub(crate) fn relation_count(relations: u64) -> u32
    ensures { result ≡ length (ones_of relations) }
{
    relations.count_ones()
}

/// The place of the least one of a word, and the word without it.
#[inline]
pub(crate) fn take_least(word: u64) -> (u8, u64)
    requires { word ≢ 0 }
    ensures { IsLeastOne word result.0 result.1 }
{
    let at = word.trailing_zeros() as u8;
    (at, word & !(1 << at))
}

/// The least of some relations, and the others.
#[inline]
pub fn split_first(relations: u64) -> (u8, u64)
    requires { relations ≢ 0 }
    ensures { ones_of relations ≡ result.0 ∷ ones_of result.1 }
{
    take_least(relations)
}
