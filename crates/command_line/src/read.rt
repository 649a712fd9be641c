ghost use Rattle.std.specs.Prelude.{◌≡◌, ◌↔◌, IfOk, IsTrue, MatchOption, Some, codes, map, true, is_some};
ghost use Rattle.clap.specs.Words.{first_value, found_of, rows_of};
ghost use Rattle.command_line.specs.Words.{AsksFor, HasNoCount, IsCommand, IsNoCommand, source_of};

use crate::command::parse;
use crate::line_count::line_count;
use crate::words::Words;
use clap::ArgMatches;
use clap::error::ErrorKind;
use clap::parser::ValueSource;
use std::alloc::Global;
use wire_base::{NoMemory, Text};

/// What the arguments ask for; `None` exactly if the command refuses them. The program's name is none of them.
/// An `Err` means out of memory.
pub fn read_words(alloc: Global, words: &[Text]) -> Result<Option<Words>, NoMemory>
    ensures asked_exactly_where_taken { IfOk result (λ found.
        MatchOption found (IsNoCommand words.now) (IsCommand words.now)) }
{
    let words = words_as_str(alloc, words)?;
    match parse(alloc, words.as_slice()) {
        Ok(matches) => words_of(alloc, &matches),
        Err(error) if error.kind() == ErrorKind::OutOfMemory => Err(NoMemory),
        Err(_) => Ok(None),
    }
}

fn words_as_str(alloc: Global, words: &[Text]) -> Result<Vec<&str>, NoMemory>
    ensures { IfOk result (λ texts. map (λ text. text.now) texts.items ≡ words.now) }
{
    let mut texts = Vec::new(alloc);
    for word in words {
        texts.push(word.as_str())?;
    }
    Ok(texts)
}

fn words_of(alloc: Global, matches: &ArgMatches) -> Result<Option<Words>, NoMemory>
    requires settings { is_some (first_value (found_of matches.now) (codes "config")) ≡ true }
    requires folder { is_some (first_value (found_of matches.now) (codes "data")) ≡ true }
    ensures { IfOk result (λ found. MatchOption found (HasNoCount (rows_of (found_of matches.now)))
        (AsksFor (rows_of (found_of matches.now)))) }
{
    let generate = match matches.get_str("generate") {
        None => None,
        Some(digits) => match line_count(digits) {
            Some(count) => Some(count),
            None => return Ok(None),
        },
    };
    Ok(Some(Words {
        settings: text(alloc, matches.get_str("config").unwrap())?,
        data: text(alloc, matches.get_str("data").unwrap())?,
        once: is_in_words(matches, "once"),
        generate,
    }))
}

/// Whether the argument has its value from the command line, and not from a default.
fn is_in_words(matches: &ArgMatches, id: &str) -> bool
    ensures { IsTrue result ↔ (source_of id.now (rows_of (found_of matches.now)) ≡ Some ValueSource.CommandLine) }
{
    matches.value_source(id) == Some(ValueSource::CommandLine)
}

pub(crate) fn text(alloc: Global, value: &str) -> Result<Text, NoMemory>
    ensures { IfOk result (λ text. text ≡ value.now) }
{
    Ok(Text::from_string(String::from_str(alloc, value)?))
}
