ghost use Rattle.std.specs.Prelude.{◌≡◌};
ghost use Rattle.findings.specs.Ends.{code_of};

use report::Status;

/// How a check ended.
#[derive(Debug, Drop)]
pub enum Ending {
    /// Nothing was found that ends a run.
    Well,
    /// A folder or a file cannot be read.
    Unreadable,
    /// Each folder and each file can be read, and a host does not connect.
    Unreachable,
    /// There is nothing to check, since a run would end so.
    Refused(Status),
}

impl Ending {
    /// The exit status of the program.
    pub fn code(&self) -> u8
        ensures { result ≡ code_of self.now }
    {
        match self {
            Ending::Well => 0,
            Ending::Unreadable => 6,
            Ending::Unreachable => 7,
            Ending::Refused(status) => status.code(),
        }
    }
}
