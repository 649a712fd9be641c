ghost use Rattle.std.specs.Prelude.{◌≡◌, IfOk};

use crate::{Epoch, Moment, NoMemory, Text};
use std::alloc::Global;

/// The longest key, in bytes.
pub const MAX_KEY: usize = 8_192;

/// The longest path, in bytes.
pub const MAX_PATH: usize = 4_096;

/// How far one file is done.
#[derive(Debug, Drop, PartialEq, Eq)]
pub struct Row {
    pub key: Text,
    pub path: Text,
    pub epoch: Epoch,
    pub offset: u64,
    /// The greatest moment of change with which a scan listed the file; 0 if no scan gave one.
    pub changed: Moment,
}

impl Row {
    pub fn copy(&self, alloc: Global) -> Result<Row, NoMemory>
        ensures { IfOk result (λ row. row ≡ self.now) }
    {
        Ok(Row {
            key: self.key.copy(alloc)?,
            path: self.path.copy(alloc)?,
            epoch: self.epoch,
            offset: self.offset,
            changed: self.changed,
        })
    }
}

/// One change of the registry.
#[derive(Debug, Drop, PartialEq, Eq)]
pub enum Op {
    /// The row of this key, in place of an earlier one.
    Set(Row),
    /// No row of this key.
    Remove(Text),
}
