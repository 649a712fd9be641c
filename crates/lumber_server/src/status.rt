/// How a receiver's run ended.
#[derive(Clone, Copy, Debug, PartialEq, Eq)]
pub enum SinkStatus {
    /// All links were served.
    Done,
    /// The bell rang.
    Stopped,
    /// The arguments are not the command's.
    Usage,
    /// A line could not be written.
    OutFault,
    /// The port failed.
    PortFault,
    NoMemory,
}

impl SinkStatus {
    ghost use Rattle.std.specs.Prelude.{◌≡◌};
    ghost use Rattle.lumber_server.specs.Codes.{status_code};

    /// The exit status: 0, 1, 2, 3, 4 and 12.
    pub fn code(&self) -> u8
        ensures { result ≡ status_code self.now }
    {
        match self {
            SinkStatus::Done => 0,
            SinkStatus::Stopped => 1,
            SinkStatus::Usage => 2,
            SinkStatus::OutFault => 3,
            SinkStatus::PortFault => 4,
            SinkStatus::NoMemory => 12,
        }
    }
}
