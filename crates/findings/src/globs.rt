ghost use Rattle.std.specs.Prelude.{◌≡◌, ◌++◌, IfOk, None, OnOk, map};
ghost use Rattle.findings.specs.Globs.{asked_globs, of_input, glob_of};
ghost use Rattle.glob_paths.specs.Fault.{fault_of};
ghost use Rattle.prospect.specs.Members.{AreGlobs, HaveGlobs};

use event_tree::{IdentityRule, InputRule};
use glob_paths::{Glob, GlobError};
use std::alloc::Global;
use wire_base::{NoMemory, Text};

/// One glob of the settings.
#[derive(Drop)]
pub struct GlobAsked {
    /// Its input's place in the settings, from 0.
    pub input: usize,
    /// Its input's id.
    pub id: Text,
    pub identity: IdentityRule,
    /// The glob as it is written.
    pub text: Text,
    pub glob: Glob,
}

/// The globs of the inputs, in the order of the settings.
pub(crate) fn globs_of(alloc: Global, inputs: &[InputRule]) -> Result<Vec<GlobAsked>, NoMemory>
    requires { HaveGlobs inputs.now }
    ensures { IfOk result (λ globs. globs.items ≡ asked_globs 0 inputs.now) }
{
    let mut globs = Vec::new(alloc);
    for (number, input) in inputs.iter().enumerate() {
        add_globs(alloc, &mut globs, number, input)?;
    }
    Ok(globs)
}

fn add_globs(
    alloc: Global,
    globs: &mut Vec<GlobAsked>,
    number: usize,
    input: &InputRule,
) -> Result<(), NoMemory>
    requires { AreGlobs input.now.paths }
    ensures { OnOk result (globs.new.items ≡ globs.old.items ++ of_input number input.now) }
{
    for text in input.paths.as_slice() {
        globs.push(glob_of(alloc, number, input, text)?)?;
    }
    Ok(())
}

fn glob_of(
    alloc: Global,
    number: usize,
    input: &InputRule,
    text: &Text,
) -> Result<GlobAsked, NoMemory>
    requires { fault_of text.now ≡ None }
    ensures { IfOk result (λ asked. asked ≡ glob_of number input.now text.now) }
{
    Ok(GlobAsked {
        input: number,
        id: input.id.copy(alloc)?,
        identity: input.file_identity,
        text: text.copy(alloc)?,
        glob: read_glob(alloc, text)?,
    })
}

fn read_glob(alloc: Global, text: &Text) -> Result<Glob, NoMemory>
    requires { fault_of text.now ≡ None }
    ensures { IfOk result (λ glob. glob ≡ text.now) }
{
    match Glob::read(alloc, text) {
        Ok(glob) => Ok(glob),
        Err(GlobError::NoMemory) => Err(NoMemory),
        // The text has no fault.
        Err(_) => unreachable!(),
    }
}
