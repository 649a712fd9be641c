/// How a container runtime writes its log files.
#[derive(Clone, Copy, Debug, PartialEq, Eq)]
pub enum Format {
    /// Kubernetes' CRI log format.
    Cri,
    /// Docker's json-file driver.
    Docker,
}

/// A standard stream of a container.
#[derive(Clone, Copy, Debug, PartialEq, Eq)]
pub enum Stream {
    Stdout,
    Stderr,
}

/// The streams whose lines are kept.
#[derive(Clone, Copy, Debug, PartialEq, Eq)]
pub enum Keep {
    All,
    Only(Stream),
}

impl Keep {
    ghost use Rattle.std.specs.Prelude.{◌≡◌};
    ghost use Rattle.container_lines.specs.Part.{is_kept};

    /// Whether the lines of this stream are kept.
    pub(crate) fn keeps(self, stream: Stream) -> bool
        ensures { result ≡ is_kept self stream }
    {
        match self {
            Keep::All => true,
            Keep::Only(kept) => kept == stream,
        }
    }
}
