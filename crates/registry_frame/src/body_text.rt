ghost use Rattle.std.specs.Prelude.{◌≡◌, ◌≢◌, ◌⊎◌, ◌<◌, ◌≤◌, ◌+◌, All, IfOk, List, OnOk, [], length, map, string_bytes, take};
ghost use Rattle.wire_base.specs.Ranges.{IsOp};
ghost use Rattle.wire_base.specs.declared.row.Op.{Op};
ghost use Rattle.registry_frame.specs.Body.{body_bytes, operation_bytes};
ghost use Rattle.registry_frame.specs.BodyOf.{IsBodyOf, IsStoredOp};

use crate::operation::{MAX_OPERATION, operation_text};
use std::alloc::Global;
use wire_base::{Blob, NoMemory, Op};

/// The body of a record with these operations, in their order.
pub fn body(alloc: Global, ops: &[Op]) -> Result<Blob, NoMemory>
    requires some { ops.now ≢ [] }
    requires in_range { All IsOp ops.now }
    ensures spelled { IfOk result (λ body. body ≡ body_bytes ops.now) }
    ensures stored { OnOk result (All IsStoredOp ops.now) }
{
    let mut texts = Vec::new(alloc);
    for op in ops {
        texts.push(operation_text(alloc, op)?)?;
    }
    joined(alloc, &texts)
}

/// The first of some operations, as many as one body has room for.
#[derive(Debug, Drop)]
pub struct Front {
    /// How many they are.
    pub count: usize,
    /// The body of a record with them.
    pub body: Blob,
}

/// The first of these operations, as many as a body of at most `most` bytes holds, which are 80,002 to 1,048,576. The text of
/// each is made once.
pub fn front_body(alloc: Global, ops: &[Op], most: usize) -> Result<Front, NoMemory>
    requires some { ops.now ≢ [] }
    requires in_range { All IsOp ops.now }
    requires room { MAX_OPERATION + 2 ≤ most }
    requires most { most ≤ 1_048_576 }
    ensures within { IfOk result (λ front. front.count ≤ length ops.now) }
    ensures body { IfOk result (λ front. IsBodyOf (take front.count ops.now) front.body) }
    ensures fits { IfOk result (λ front. length front.body ≤ most) }
    ensures no_room_for_more { IfOk result (λ front. (front.count ≡ length ops.now)
        ⊎ (most < length (body_bytes (take (front.count + 1) ops.now)))) }
{
    let mut texts = Vec::new(alloc);
    // a bracket or a comma before each operation, and the last bracket
    let mut size = 1;
    for op in ops {
        let text = operation_text(alloc, op)?;
        size += text.len() + 1;
        if size > most {
            return front_of(alloc, &texts);
        }
        texts.push(text)?;
    }
    front_of(alloc, &texts)
}

fn front_of(alloc: Global, texts: &Vec<String>) -> Result<Front, NoMemory>
    ensures count { IfOk result (λ front. front.count ≡ length texts.now.items) }
    ensures body { (ops : List Op) → map string_bytes texts.now.items ≡ map operation_bytes ops →
        IfOk result (λ front. front.body ≡ body_bytes ops) }
{
    Ok(Front {
        count: texts.len(),
        body: joined(alloc, texts)?,
    })
}

/// The body with operations of these texts.
fn joined(alloc: Global, texts: &Vec<String>) -> Result<Blob, NoMemory>
    ensures { (ops : List Op) → map string_bytes texts.now.items ≡ map operation_bytes ops →
        IfOk result (λ body. body ≡ body_bytes ops) }
{
    let list = texts.join(alloc, ",")?;
    Ok(Blob::from_vec(format!(in alloc; "[{list}]")?.into_bytes()))
}
