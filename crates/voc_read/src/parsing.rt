// The JSON value that a text is.
ghost use Rattle.std.specs.Prelude.{◌≡◌, ◌+◌, ◌≤◌, length, IfOk};
ghost use Rattle.std.specs.Option.{ok_or};
ghost use Rattle.serde_json.specs.View.{view};
ghost use Rattle.voc_read.specs.Answers.{Reads};
ghost use Rattle.voc_read.specs.Widest.{widest};
ghost use Rattle.rel_formula.specs.Json.{json_of};

use crate::fault::VocFault;
use serde_json::Value;
use std::alloc::Global;

/// The JSON value that a text is.
pub fn json_of(alloc: Global, bytes: &[u8]) -> Result<Value, VocFault>
    ensures few { IfOk result (λ value. widest (view value) ≤ length bytes.now + 1) }
    ensures is { Reads view (ok_or (json_of bytes.now) VocFault.NotJson) result }
{
    match Value::from_slice(alloc, bytes) {
        Ok(value) => Ok(value),
        Err(fault) => {
            if fault.is_memory() {
                Err(VocFault::Memory)
            } else {
                Err(VocFault::NotJson)
            }
        }
    }
}
