//! Places and tuples: where a tuple stands in a table, and which tuple stands there.

ghost use Rattle.std.specs.Prelude.{◌≡◌, ◌-◌, ◌^◌, ◌<◌, ◌≤◌, take, drop, replicate, All};
ghost use Rattle.rel_table.specs.Relation.{tuple_at};

/// The number of places that tuples of this arity over d values have, which is d to the power of
/// the arity. Most are pairs, which are spared the general way.
pub fn place_count(d: u8, arity: u8) -> u32
    requires { arity ≤ 4 }
    ensures { result ≡ d ^ arity }
{
    let d = u32::from(d);
    if arity == 2 {
        return d * d;
    }
    d.pow(u32::from(arity))
}

/// The tuple of this arity over d values that stands at a place: its first `arity` entries, and
/// then zeros.
pub fn tuple_of(d: u8, arity: u8, place: u32) -> [u8; 4]
    requires short { arity ≤ 4 }
    requires within { place < d ^ arity }
    ensures values { take arity result ≡ tuple_at d arity place }
    ensures fit { All (λ x. x < d) (take arity result) }
    ensures zeros { drop arity result ≡ replicate (4 - arity) 0 }
{
    let mut tuple = [0; 4];
    let mut rest = place;
    let mut size = place_count(d, arity);
    for i in 0..arity as usize {
        size /= u32::from(d);
        tuple[i] = (rest / size) as u8;
        rest %= size;
    }
    tuple
}
