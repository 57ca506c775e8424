//! Tuples of up to four values.

ghost use Rattle.std.specs.Prelude.{◌≡◌, ◌^◌, ◌<◌, ◌≤◌, [], take, slice_index_or};
ghost use Rattle.rel_table.specs.Relation.{tuples, tuple_at};

use rel_table::tuple_of;
use std::marker::Model;

/// The values on a scope.
#[derive(Drop)]
pub struct Tuple {
    size: u8,
    /// In scope order; those from `size` on have no meaning.
    values: [u8; 4],
}

impl Model for Tuple {
    ghost use Rattle.std.specs.Prelude.{ℕ, List, ◌≤◌, take};

    ghost Value = { List ℕ };

    ghost view = { λ t. take t.size t.values };

    ghost invariant = { λ t. t.size ≤ 4 };
}

/// The values of the pair at a place. Most tuples are pairs, which one division tells.
fn pair_at(value_count: u8, place: u32) -> [u8; 4]
    requires { place < value_count ^ 2 }
    ensures { take 2 result ≡ tuple_at value_count 2 place }
{
    let d = u32::from(value_count);
    [(place / d) as u8, (place % d) as u8, 0, 0]
}

impl Tuple {
    /// The tuple of no values.
    pub fn blank() -> Tuple {
        Tuple {
            size: 0,
            values: [0; 4],
        }
    }

    /// The tuple at a place of the table order.
    pub fn at(value_count: u8, size: u8, place: u32) -> Tuple
        requires short { size ≤ 4 }
        requires place { place < value_count ^ size }
        ensures { result ≡ slice_index_or (tuples value_count size) place [] }
    {
        if size == 2 {
            return Tuple {
                size,
                values: pair_at(value_count, place),
            };
        }
        Tuple {
            size,
            values: tuple_of(value_count, size, place),
        }
    }

    /// The tuple's values, in the order of its scope: at most four.
    pub fn values(&self) -> &[u8]
        ensures { result.now ≡ self.now }
    {
        &self.values[..usize::from(self.size)]
    }
}
