ghost use Rattle.std.specs.Prelude.{◌≡◌, ◌≤◌, IfOk, OnOk, length, string_bytes};
ghost use Rattle.std.specs.Str.{IsUtf8};
ghost use Rattle.event_json.specs.Json.{quoted};
ghost use Rattle.wire_base.specs.Ranges.{IsKey, IsOp, IsRow};
ghost use Rattle.registry_frame.specs.Body.{moment_bytes, operation_bytes};
ghost use Rattle.registry_frame.specs.BodyOf.{IsStoredOp, IsStoredRow};

use std::alloc::Global;
use wire_base::{Moment, NoMemory, Op, Row, Text};

/// No operation within its ranges has a longer text, in bytes.
pub const MAX_OPERATION: usize = 80_000;

/// The text of an operation.
pub fn operation_text(alloc: Global, op: &Op) -> Result<String, NoMemory>
    requires { IsOp op.now }
    ensures spelled { IfOk result (λ text. string_bytes text ≡ operation_bytes op.now) }
    ensures short { IfOk result (λ text. length (string_bytes text) ≤ MAX_OPERATION) }
    ensures stored { OnOk result (IsStoredOp op.now) }
{
    match op {
        Op::Set(row) => set_text(alloc, row),
        Op::Remove(key) => remove_text(alloc, key),
    }
}

/// The text of the operation that sets this row.
pub fn set_text(alloc: Global, row: &Row) -> Result<String, NoMemory>
    requires { IsRow row.now }
    ensures spelled { IfOk result (λ text. string_bytes text ≡ operation_bytes (Op.Set row.now)) }
    ensures short { IfOk result (λ text. length (string_bytes text) ≤ MAX_OPERATION) }
    ensures stored { OnOk result (IsStoredRow row.now) }
{
    let moment = moment_text(alloc, row.changed)?;
    let epoch = row.epoch.0;
    let offset = row.offset;
    let key = quoted_text(alloc, &row.key)?;
    let path = quoted_text(alloc, &row.path)?;
    Ok(format!(in alloc;
        "{{{moment}\"epoch\":{epoch},\"key\":{key},\"offset\":{offset},\"op\":\"set\",\"path\":{path}}}"
    )?)
}

/// The field of a row's moment of change, with the comma after it; empty for a row that has none.
fn moment_text(alloc: Global, changed: Moment) -> Result<String, NoMemory>
    ensures { IfOk result (λ text. string_bytes text ≡ moment_bytes changed.0) }
{
    let moment = changed.0;
    if moment == 0 {
        return Ok(String::new(alloc));
    }
    Ok(format!(in alloc; "\"changed\":{moment},")?)
}

fn remove_text(alloc: Global, key: &Text) -> Result<String, NoMemory>
    requires { IsKey key.now }
    ensures spelled { IfOk result (λ text. string_bytes text ≡ operation_bytes (Op.Remove key.now)) }
    ensures short { IfOk result (λ text. length (string_bytes text) ≤ MAX_OPERATION) }
    ensures stored { OnOk result (IsStoredOp (Op.Remove key.now)) }
{
    let key = quoted_text(alloc, key)?;
    Ok(format!(in alloc; "{{\"key\":{key},\"op\":\"remove\"}}")?)
}

/// The JSON text of a key or a path.
fn quoted_text(alloc: Global, text: &Text) -> Result<String, NoMemory>
    ensures spelled { IfOk result (λ written. string_bytes written ≡ quoted text.now) }
    ensures utf8 { IsUtf8 text.now }
{
    match serde_json::to_string(alloc, &text.as_str()) {
        Ok(written) => Ok(written),
        Err(_) => Err(NoMemory),
    }
}
