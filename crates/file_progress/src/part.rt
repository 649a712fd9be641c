ghost use Rattle.std.specs.Prelude.{◌≡◌, ◌++◌, OnOk};
ghost use Rattle.std.specs.List.{flat_map};
ghost use Rattle.file_progress.specs.Parts.{label_escape, number_or_line, part_bytes, right_of, left_of, spaces};

use itoa::Buffer;
use wire_base::{NoMemory, Text};

/// One part of a line.
#[derive(Clone, Copy)]
pub(crate) enum Part<'a> {
    /// Bytes as they are.
    Plain(&'a [u8]),
    /// A number in decimal.
    Number(u64),
    /// A number at the right end of this many columns; `-` if there is none.
    Right { number: Option<u64>, columns: usize },
    /// A name at the left end of so many columns.
    Left { name: &'a [u8], columns: usize },
    /// The value of a label.
    Label(&'a Text),
}

/// Puts the parts one after another.
pub(crate) fn put_parts(page: &mut Vec<u8>, parts: &[Part<'_>]) -> Result<(), NoMemory>
    ensures { OnOk result (page.new.items ≡ page.old.items ++ flat_map part_bytes parts.now) }
{
    for part in parts {
        put_part(page, part)?;
    }
    Ok(())
}

fn put_part(page: &mut Vec<u8>, part: &Part<'_>) -> Result<(), NoMemory>
    ensures { OnOk result (page.new.items ≡ page.old.items ++ part_bytes part.now) }
{
    match part {
        Part::Plain(bytes) => page.extend_from_slice(bytes)?,
        Part::Number(number) => page.extend_from_slice(Buffer::new().format(*number).as_bytes())?,
        Part::Right { number, columns } => put_right(page, *number, *columns)?,
        Part::Left { name, columns } => {
            page.extend_from_slice(name)?;
            put_spaces(page, *columns, name.len())?;
        }
        Part::Label(text) => put_escaped(page, text.bytes())?,
    }
    Ok(())
}

fn put_right(page: &mut Vec<u8>, number: Option<u64>, columns: usize) -> Result<(), NoMemory>
    ensures { OnOk result
        (page.new.items ≡ page.old.items ++ right_of columns (number_or_line number)) }
{
    let mut buffer = Buffer::new();
    let text = match number {
        Some(number) => buffer.format(number).as_bytes(),
        None => b"-",
    };
    put_spaces(page, columns, text.len())?;
    page.extend_from_slice(text)?;
    Ok(())
}

/// Puts as many spaces as a text of this length leaves of so many columns.
fn put_spaces(page: &mut Vec<u8>, columns: usize, length: usize) -> Result<(), NoMemory>
    ensures { OnOk result (page.new.items ≡ page.old.items ++ spaces columns length) }
{
    let mut left = columns.saturating_sub(length);
    'spaces: while 0 < left {
        page.push(b' ')?;
        left -= 1;
    }
    Ok(())
}

fn put_escaped(page: &mut Vec<u8>, bytes: &[u8]) -> Result<(), NoMemory>
    ensures { OnOk result (page.new.items ≡ page.old.items ++ flat_map label_escape bytes.now) }
{
    for byte in bytes {
        put_byte(page, *byte)?;
    }
    Ok(())
}

fn put_byte(page: &mut Vec<u8>, byte: u8) -> Result<(), NoMemory>
    ensures { OnOk result (page.new.items ≡ page.old.items ++ label_escape byte) }
{
    match byte {
        b'\\' => page.extend_from_slice(b"\\\\")?,
        b'"' => page.extend_from_slice(b"\\\"")?,
        b'\n' => page.extend_from_slice(b"\\n")?,
        _ => page.push(byte)?,
    }
    Ok(())
}
