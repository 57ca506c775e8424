// The keys of an object.
ghost use Rattle.std.specs.Prelude.{◌≡◌, ◌≤◌, not, IfOk, map, string_bytes};
ghost use Rattle.std.specs.List.{list_any};
ghost use Rattle.std.specs.Str.{bytes_eq};
ghost use Rattle.serde_json.specs.View.{view, members_view};
ghost use Rattle.voc_read.specs.Answers.{Reads, Refuses};
ghost use Rattle.voc_read.specs.Keys.{has_other_key, keys_refusal, under};
ghost use Rattle.voc_read.specs.Texts.{texts_of};
ghost use Rattle.voc_read.specs.Widest.{widest};

use crate::fault::{Spot, VocFault};
use serde_json::{Map, Value};

/// Whether a key is one of the known ones.
fn is_known(known: &[&str], key: &str) -> bool
    ensures { result ≡ list_any (λ name. bytes_eq name.now key.now) known.now }
{
    known.iter().any(|name| *name == key)
}

/// Whether some key is none of the known ones.
fn some_unknown(members: &Map<String, Value>, known: &[&str]) -> bool
    ensures { result ≡ list_any (λ key. not (list_any (λ name. bytes_eq name.now (string_bytes key))
        known.now)) (map (λ entry. entry.0) members.now.entries) }
{
    members.keys().any(|key| !is_known(known, key.as_str()))
}

/// Whether an object has another key than the known ones.
pub fn has_other_key(members: &Map<String, Value>, known: &[&str]) -> bool
    ensures { result ≡ has_other_key (texts_of known.now) (members_view members.now.entries) }
{
    some_unknown(members, known)
}

/// Refuses a value that is no object of the known keys alone.
pub fn check_keys(value: &Value, known: &[&str], spot: Spot) -> Result<(), VocFault>
    ensures { Refuses (keys_refusal (texts_of known.now) spot (view value.now)) result }
{
    let members = value.as_object().ok_or(VocFault::WrongKind(spot))?;
    if has_other_key(members, known) {
        return Err(VocFault::UnknownKey(spot));
    }
    Ok(())
}

/// The value under a key.
pub fn under<'a>(value: &'a Value, key: &str, spot: Spot) -> Result<&'a Value, VocFault>
    ensures part { IfOk result (λ found. widest (view found.now) ≤ widest (view value.entry.now)) }
    ensures is { Reads (λ found. view found.now)
        (under key.entry.now spot (view value.entry.now)) result }
{
    value.get(key).ok_or(VocFault::Missing(spot))
}
