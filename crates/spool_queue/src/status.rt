/// How a run ended.
#[derive(Clone, Copy, Debug, PartialEq, Eq)]
pub enum SpoolStatus {
    /// All lines were put, or all payloads were sent and settled.
    Done,
    /// The arguments are not the command's.
    Usage,
    SourceFault,
    /// The bytes of the disk are no spool from this place on.
    SpoolBad { at: u64 },
    DiskFault,
    /// There is no room for the line of this number, from 0 on.
    Full { line: u64 },
    /// The peer was not reached, sent what it may not, or was silent.
    Unreachable,
    OutFault,
    /// The line of this number, from 0 on, is longer than a payload may be.
    TooLong { line: u64 },
    NoMemory,
}

impl SpoolStatus {
    ghost use Rattle.std.specs.Prelude.{◌≡◌};
    ghost use Rattle.spool_queue.specs.Codes.{status_code};

    /// The exit status: 0, 2, 3, 4, 5, 6, 7, 8, 9 and 12.
    pub fn code(&self) -> u8
        ensures { result ≡ status_code self.now }
    {
        match self {
            SpoolStatus::Done => 0,
            SpoolStatus::Usage => 2,
            SpoolStatus::SourceFault => 3,
            SpoolStatus::SpoolBad { .. } => 4,
            SpoolStatus::DiskFault => 5,
            SpoolStatus::Full { .. } => 6,
            SpoolStatus::Unreachable => 7,
            SpoolStatus::OutFault => 8,
            SpoolStatus::TooLong { .. } => 9,
            SpoolStatus::NoMemory => 12,
        }
    }
}
