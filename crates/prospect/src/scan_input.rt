ghost use Rattle.std.specs.Prelude.{◌≡◌, ◌↔◌, None, IfOk, IsTrue, map};
ghost use Rattle.glob_paths.specs.Fault.{fault_of};
ghost use Rattle.prospect.specs.Members.{AreGlobs, HaveGlobs, IsCovered};
ghost use Rattle.prospect.specs.Readings.{reading, reading_of, readings_from};

use event_tree::{IdentityRule, InputRule};
use glob_paths::{Glob, GlobError};
use std::alloc::Global;
use wire_base::{NoMemory, Text};

/// What a scan asks of an input.
#[derive(Debug, Drop)]
pub struct ScanInput {
    /// Its place in the settings, from 0.
    pub number: u32,
    pub id: Text,
    pub identity: IdentityRule,
    pub globs: Vec<Glob>,
}

/// The inputs in their order. `NoMemory` means out of memory, or a place above
/// 4,294,967,295.
pub fn number_inputs(alloc: Global, inputs: &[InputRule]) -> Result<Vec<ScanInput>, NoMemory>
    requires { HaveGlobs inputs.now }
    ensures { IfOk result (λ read. map reading_of read.items ≡ readings_from 0 inputs.now) }
{
    let mut read = Vec::new(alloc);
    for (number, input) in inputs.iter().enumerate() {
        read.push(number_input(alloc, number, input)?)?;
    }
    Ok(read)
}

fn number_input(alloc: Global, number: usize, input: &InputRule) -> Result<ScanInput, NoMemory>
    requires { AreGlobs input.now.paths }
    ensures { IfOk result (λ read. reading_of read ≡ reading number input.now) }
{
    let Ok(number) = u32::try_from(number) else {
        return Err(NoMemory);
    };
    Ok(ScanInput {
        number,
        id: input.id.copy(alloc)?,
        identity: input.file_identity,
        globs: read_globs(alloc, input.paths.as_slice())?,
    })
}

/// The globs of texts without a fault.
fn read_globs(alloc: Global, texts: &[Text]) -> Result<Vec<Glob>, NoMemory>
    requires { AreGlobs texts.now }
    ensures { IfOk result (λ globs. globs.items ≡ texts.now) }
{
    let mut globs = Vec::new(alloc);
    for text in texts {
        globs.push(read_glob(alloc, text)?)?;
    }
    Ok(globs)
}

fn read_glob(alloc: Global, text: &Text) -> Result<Glob, NoMemory>
    requires { fault_of text.now ≡ None }
    ensures { IfOk result (λ glob. glob ≡ text.now) }
{
    match Glob::read(alloc, text) {
        Ok(glob) => Ok(glob),
        Err(GlobError::NoMemory) => Err(NoMemory),
        // The text has no fault.
        Err(_) => unreachable!(),
    }
}

impl ScanInput {
    /// Whether some glob of the input covers the path.
    pub fn covers(&self, path: &Text) -> bool
        ensures { IsTrue result ↔ IsCovered self.now.globs.items path.now }
    {
        self.globs.iter().any(|glob| glob.covers(path.bytes()))
    }
}
