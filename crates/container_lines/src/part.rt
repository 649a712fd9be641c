ghost use Rattle.std.specs.Prelude.{◌≡◌, codes};
ghost use Rattle.container_lines.specs.Part.{stream_named};

use crate::format::Stream;

/// What a line says, as its bytes are in the line or beside it.
#[derive(Clone, Copy)]
pub struct Part<'a> {
    pub stream: Stream,
    /// Whether the container's own line goes on.
    pub partial: bool,
    pub text: &'a [u8],
}

pub fn stream_named(name: &[u8]) -> Option<Stream>
    ensures { result ≡ stream_named name.now }
{
    if name == b"stdout".as_slice() {
        Some(Stream::Stdout)
    } else if name == b"stderr".as_slice() {
        Some(Stream::Stderr)
    } else {
        None
    }
}
