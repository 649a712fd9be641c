ghost use Rattle.std.specs.Prelude.{◌≡◌, IfOk};

use std::alloc::Global;
use std::test::Fail;
use wire_base::{Text, TextError};

pub fn text(alloc: Global, chars: &str) -> Result<Text, TextError>
    ensures { IfOk result (λ made. made ≡ chars.now) }
{
    Text::from_bytes(alloc, chars.as_bytes())
}

/// A text of each of the arguments.
pub fn texts(alloc: Global, words: &[&str]) -> Result<Vec<Text>, Fail> {
    let mut texts = Vec::new(alloc);
    for word in words {
        texts.push(text(alloc, word)?)?;
    }
    Ok(texts)
}
