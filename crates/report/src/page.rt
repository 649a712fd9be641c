ghost use Rattle.std.specs.Prelude.{◌≡◌, [], Some};

use outside::{Failed, Sink};
use std::alloc::Global;
use wire_base::Blob;

/// A sink in memory. A write fails only if there is no memory for it.
#[derive(Debug, Drop)]
pub(crate) struct Page {
    bytes: Vec<u8>,
    faults: u64,
}

impl Page {
    pub(crate) fn new(alloc: Global) -> Page
        ensures { ⟦<Page as Sink>⟧.written result ≡ Some [] }
    {
        Page {
            bytes: Vec::new(alloc),
            faults: 0,
        }
    }

    pub(crate) fn into_blob(self) -> Blob
        ensures { ⟦<Page as Sink>⟧.written self ≡ Some result }
    {
        Blob::from_vec(self.bytes)
    }
}

impl Sink for Page {
    ghost written = { λ p. Some p.bytes.items };

    ghost faults = { λ p. p.faults };

    fn write(&mut self, piece: &[u8]) -> Result<usize, Failed> {
        match self.bytes.extend_from_slice(piece) {
            Ok(()) => Ok(piece.len()),
            Err(_) => {
                self.faults = self.faults.saturating_add(1);
                Err(Failed)
            }
        }
    }
}
