//! An open file that shows at each look what a script says. Contracts know nothing of it.
ghost use Rattle.std.specs.Prelude.{None};

use outside::{Failed, Tail};

/// What one look at a file finds: one call for its length, or one read.
#[derive(Clone, Copy)]
pub enum Look<'a> {
    /// The file has these bytes.
    Holds(&'a [u8]),
    Fails,
}

/// Looks beyond the script find what its last one found.
#[derive(Drop)]
pub struct ScriptTail<'a> {
    script: &'a [Look<'a>],
    looks: usize,
    faults: u64,
}

impl<'a> ScriptTail<'a> {
    pub fn new(script: &'a [Look<'a>]) -> ScriptTail<'a> {
        ScriptTail {
            script,
            looks: 0,
            faults: 0,
        }
    }

    /// How many looks there were.
    pub fn looks(&self) -> usize {
        self.looks
    }

    fn found(&self) -> Look<'a> {
        let last = self.script.len().saturating_sub(1);
        match self.script.get(self.looks.min(last)) {
            Some(look) => *look,
            None => Look::Holds(b""),
        }
    }
}

impl Tail for ScriptTail<'_> {
    ghost told = { λ _. None };

    ghost numbers = { λ _. None };

    ghost faults = { λ t. t.faults };

    fn native(&self) -> Option<(u64, u64)> {
        None
    }

    fn length(&mut self) -> Result<u64, Failed> {
        let found = self.found();
        self.looks = self.looks.saturating_add(1);
        match found {
            Look::Holds(bytes) => Ok((bytes.len() as u64).min(1 << 32)),
            Look::Fails => {
                self.faults = self.faults.saturating_add(1);
                Err(Failed)
            }
        }
    }

    fn read_at(&mut self, at: u64, into: &mut [u8]) -> Result<usize, Failed> {
        let found = self.found();
        self.looks = self.looks.saturating_add(1);
        let Look::Holds(bytes) = found else {
            self.faults = self.faults.saturating_add(1);
            return Err(Failed);
        };
        if at >= 1 << 32 {
            return Ok(0);
        }
        let start = (at as usize).min(bytes.len());
        let rest = &bytes[start..];
        let count = rest.len().min(into.len()).min(16_384);
        into[..count].copy_from_slice(&rest[..count]);
        Ok(count)
    }
}
