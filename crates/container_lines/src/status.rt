ghost use Rattle.std.specs.Prelude.{◌≡◌};
ghost use Rattle.container_lines.specs.Ending.{code_of};

/// The lines of a log that are not of its format.
#[derive(Clone, Copy, Debug, PartialEq, Eq)]
pub struct BadLines {
    /// The place of the first byte of the first of them.
    pub first: u64,
    /// How many they are; at least one.
    pub count: u64,
}

/// How a run ended.
#[derive(Clone, Copy, Debug, PartialEq, Eq)]
pub enum ContainerStatus {
    /// Each complete line is of the format.
    Done,
    /// The arguments are not those of the program.
    Usage,
    SourceFault,
    /// Lines are not of the format; the first begins at `first`, and `count` is their number.
    BadLines { first: u64, count: u64 },
    OutFault,
    /// Also if the source gives more than `MAX_PLACE` bytes.
    NoMemory,
}

impl ContainerStatus {
    /// The exit status of the program.
    pub fn code(self) -> u8
        ensures { result ≡ code_of self }
    {
        match self {
            ContainerStatus::Done => 0,
            ContainerStatus::Usage => 2,
            ContainerStatus::SourceFault => 3,
            ContainerStatus::BadLines { .. } => 4,
            ContainerStatus::OutFault => 5,
            ContainerStatus::NoMemory => 12,
        }
    }
}
