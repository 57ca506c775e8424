ghost use Rattle.std.specs.Prelude.{◌≡◌, ◌^◌, ◌<◌, ◌≤◌, length, All, IfSome, Some, None};
ghost use Rattle.std.specs.Prelude.{if◌then◌else◌};
ghost use Rattle.std.specs.Option.{ForSome};
ghost use Rattle.assign.specs.Assignment.{covers, tuple_on};
ghost use Rattle.rel_table.specs.Relation.{place};

use assign::Partial;

/// The place of the tuple that a question gives these variables, where it gives each a value.
pub(crate) fn place_of_values(d: u8, variables: &[u8], q: &Partial) -> Option<u32>
    requires some { 1 ≤ d }
    requires fits { d ^ length variables.now ≤ 65536 }
    requires values { All (λ o. ForSome o (λ x. x < d)) q.now }
    ensures is { result ≡ (if covers q.now variables.now
        then Some (place d (tuple_on q.now variables.now)) else None) }
    ensures below { IfSome result (λ at. at < d ^ length variables.now) }
{
    let mut place = 0u32;
    for v in variables {
        let value = q.get(*v)?;
        place = place * u32::from(d) + u32::from(value);
    }
    Some(place)
}
