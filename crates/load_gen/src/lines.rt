ghost use Rattle.std.specs.Prelude.{◌≡◌, ◌++◌, IfOk, OnOk};
ghost use Rattle.load_gen.specs.Generated.{generated_text, line_text};

use itoa::Buffer;
use std::alloc::Global;
use wire_base::{Blob, NoMemory};

/// This many of the lines that an event has.
const LINES_PER_EVENT: u32 = 3;

/// A log of `count` lines, in bytes. Line i, from 0, is `[i]` and a line feed if i is a multiple of 3, which begins an
/// event, and else a space, i and a line feed (this project's profile).
pub fn generated(alloc: Global, count: u32) -> Result<Blob, NoMemory>
    ensures { IfOk result (λ text. text ≡ generated_text count) }
{
    let mut bytes = Vec::new(alloc);
    for number in 0..count {
        push_line(&mut bytes, number)?;
    }
    Ok(Blob::from_vec(bytes))
}

fn push_line(bytes: &mut Vec<u8>, number: u32) -> Result<(), NoMemory>
    ensures { OnOk result (bytes.new.items ≡ bytes.old.items ++ line_text number) }
{
    let mut buffer = Buffer::new();
    let digits = buffer.format(number).as_bytes();
    if number % LINES_PER_EVENT == 0 {
        bytes.extend_from_slice(b"[")?;
        bytes.extend_from_slice(digits)?;
        bytes.extend_from_slice(b"]\n")?;
    } else {
        bytes.extend_from_slice(b" ")?;
        bytes.extend_from_slice(digits)?;
        bytes.extend_from_slice(b"\n")?;
    }
    Ok(())
}
