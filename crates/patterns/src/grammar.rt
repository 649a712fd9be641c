ghost use Rattle.std.specs.Prelude.{◌≡◌, ◌<◌, vec_len, is_some, map, option_map, string_bytes, IfOk, IfSome};
ghost use Rattle.regex_syntax.specs.Verdict.{Reads};
ghost use Rattle.regex_syntax.specs.WellFormed.{IsWellFormed};
ghost use Rattle.patterns.specs.Pattern.{is_pattern, is_line_pattern, is_text_pattern, line_config, text_config};

use regex_syntax::{Config, ErrorKind, Parsed};
use std::alloc::Global;
use wire_base::NoMemory;

/// Whether the text is a pattern of lines. Nothing is compiled.
pub fn is_line_pattern(alloc: Global, text: &str) -> Result<bool, NoMemory>
    ensures { IfOk result (λ found. found ≡ is_line_pattern text.now) }
{
    Ok(read(alloc, text, &line_config())?.is_some())
}

/// Whether the text is a pattern of texts. Nothing is compiled.
pub fn is_text_pattern(alloc: Global, text: &str) -> Result<bool, NoMemory>
    ensures { IfOk result (λ found. found ≡ is_text_pattern text.now) }
{
    Ok(read(alloc, text, &text_config())?.is_some())
}

pub(crate) fn line_config() -> Config
    ensures { result ≡ line_config }
{
    let mut config = Config::default();
    config.utf8 = false;
    config
}

pub(crate) fn text_config() -> Config
    ensures { result ≡ text_config }
{
    Config::default()
}

/// What the grammar reads in the text, if it is a pattern.
pub(crate) fn read(alloc: Global, text: &str, config: &Config) -> Result<Option<Parsed>, NoMemory>
    ensures pattern { IfOk result (λ found. is_some found ≡ is_pattern config.now text.now) }
    ensures tree { IfOk result (λ found. IfSome found (λ parsed.
        Reads config.now text.now parsed.hir (map (option_map string_bytes) parsed.names.items))) }
    ensures formed { IfOk result (λ found. IfSome found (λ parsed.
        IsWellFormed config.now.utf8 parsed.hir)) }
    ensures group_zero { IfOk result (λ found. IfSome found (λ parsed. 0 < vec_len parsed.names)) }
{
    match regex_syntax::parse(alloc, text, config) {
        Ok(parsed) => Ok(Some(parsed)),
        Err(error) => match error.kind {
            ErrorKind::OutOfMemory => Err(NoMemory),
            _ => Ok(None),
        },
    }
}
