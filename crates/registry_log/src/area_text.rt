ghost use Rattle.std.specs.Prelude.{◌≡◌, ◌<◌, ◌≤◌, ◌-◌, ◌++◌, ◌∷◌, All, IfOk, OnOk, length, codes, List};
ghost use Rattle.registry_frame.specs.Body.{body_bytes, operation_bytes};
ghost use Rattle.registry_frame.specs.BodyOf.{IsStoredRow};
ghost use Rattle.registry_log.specs.Area.{area_bytes, sets};
ghost use Rattle.registry_log.specs.Records.{groups, record_of, records_behind, records_bytes};
ghost use Rattle.registry_log.specs.State.{IsState, Opened};
ghost use Rattle.ship_core.specs.Rows.{IsInOrder};
ghost use Rattle.wire_base.specs.declared.row.Op.{Op};

use registry_frame::set_text;
use ship_core::Rows;
use std::alloc::Global;
use wire_base::NoMemory;

/// The longest body of a record, in bytes.
pub const MAX_BODY: usize = 1_048_576;

/// The text of an area while it is written.
#[derive(Drop)]
struct AreaText {
    /// what is whole
    text: Vec<u8>,
    /// the body of the next record, without its last bracket
    body: Vec<u8>,
}

impl AreaText {
    /// Adds an operation by its text.
    fn add(&mut self, alloc: Global, operation: &str) -> Result<(), NoMemory>
        ensures { (op : Op) (ops : List Op) → operation.now ≡ operation_bytes op → OnOk result (self.new.text.items ++ records_behind self.new.body.items ops ≡ self.old.text.items ++ records_behind self.old.body.items (op ∷ ops)) }
    {
        if self.body.len() + operation.len() > MAX_BODY - 2 {
            self.close_record(alloc)?;
            self.body.clear();
            self.body.push(b'[')?;
        } else {
            self.body.push(b',')?;
        }
        self.body.extend_from_slice(operation.as_bytes())?;
        Ok(())
    }

    fn close_record(&mut self, alloc: Global) -> Result<(), NoMemory>
        ensures text { OnOk result (self.new.text.items ≡ self.old.text.items ++ record_of (self.old.body.items ++ codes "]")) }
        ensures body { self.new.body ≡ self.old.body }
    {
        let size = self.body.len() + 1;
        let head = format!(in alloc; "{{{size:07} ")?;
        self.text.extend_from_slice(head.as_bytes())?;
        self.text.extend_from_slice(&self.body)?;
        self.text.extend_from_slice(b"]\n")?;
        Ok(())
    }
}

/// All of the area after its first gate.
pub(crate) fn area_text(alloc: Global, generation: u64, rows: &Rows) -> Result<Vec<u8>, NoMemory>
    requires generation { 0 < generation }
    requires rows { length rows.now ≤ 65_536 }
    ensures spelled { IfOk result (λ text. 0x7B ∷ text.items ≡ area_bytes generation rows.now) }
    ensures bodies_fit { OnOk result (All (λ ops. length (body_bytes ops) ≤ MAX_BODY) (groups (sets rows.now))) }
    ensures opened { OnOk result (IsState (area_bytes generation rows.now) (Opened generation rows.now 29 (length (area_bytes generation rows.now) - 1))) }
{
    let header = format!(in alloc; "beat 2 {generation:020}\n")?.into_bytes();
    let mut text = with_records(alloc, header, rows)?;
    text.push(b'.')?;
    Ok(text)
}

fn with_records(alloc: Global, header: Vec<u8>, rows: &Rows) -> Result<Vec<u8>, NoMemory>
    ensures written { IfOk result (λ text. text.items ≡ header.items ++ records_bytes (sets rows.now)) }
    ensures bodies_fit { OnOk result (All (λ ops. length (body_bytes ops) ≤ MAX_BODY) (groups (sets rows.now))) }
    ensures stored { OnOk result (All IsStoredRow rows.now) }
    ensures in_order { OnOk result (IsInOrder rows.now) }
{
    if rows.len() == 0 {
        return Ok(header);
    }
    let first = set_text(alloc, rows.at(0))?;
    let mut area = AreaText {
        text: header,
        body: format!(in alloc; "[{first}")?.into_bytes(),
    };
    for i in 1..rows.len() {
        let operation = set_text(alloc, rows.at(i))?;
        area.add(alloc, operation.as_str())?;
    }
    area.close_record(alloc)?;
    Ok(area.text)
}
