use crate::Format;
use clap::{Arg, ArgAction, Command, Error};
use std::alloc::Global;
use wire_base::Text;

/// What the arguments ask for.
#[derive(Drop)]
pub struct Asked {
    /// The settings file, `-c FILE`.
    pub settings: Text,
    /// The folder of the registry, `--data DIR`.
    pub data: Text,
    pub format: Format,
}

/// What the arguments ask for; an error has the text to print, and where, or is that of being out of memory.
pub fn read_words(alloc: Global, words: &[String]) -> Result<Asked, Error> {
    let matches = command(alloc)?.try_get_matches_from(words)?;
    Ok(Asked {
        settings: text(alloc, matches.get_str("config"))?,
        data: text(alloc, matches.get_str("data"))?,
        format: match matches.get_str("format") {
            Some("json") => Format::Json,
            Some("prometheus") => Format::Prometheus,
            _ => Format::Table,
        },
    })
}

fn text(alloc: Global, value: Option<&str>) -> Result<Text, Error> {
    Ok(Text::from_string(String::from_str(alloc, value.unwrap_or(""))?))
}

fn command<'a>(alloc: Global) -> Result<Command<'a>, Error> {
    let command = Command::new(alloc, "beat_status")
        .no_binary_name(true)
        .version("0.1.0")
        .about("Shows how far each file is, beside a run of beat_main, and changes nothing.")
        .arg(config(alloc))?
        .arg(data(alloc))?
        .arg(format(alloc))?;
    Ok(command)
}

fn config<'a>(alloc: Global) -> Arg<'a> {
    Arg::new(alloc, "config")
        .short('c')
        .long("config")
        .value_name("FILE")
        .help("The settings file")
        .action(ArgAction::Set)
        .required(true)
}

fn data<'a>(alloc: Global) -> Arg<'a> {
    Arg::new(alloc, "data")
        .long("data")
        .value_name("DIR")
        .help("The folder of the registry")
        .action(ArgAction::Set)
        .default_value("data")
}

fn format<'a>(alloc: Global) -> Arg<'a> {
    Arg::new(alloc, "format")
        .long("format")
        .value_name("FORMAT")
        .help("What to print")
        .action(ArgAction::Set)
        .value_parser(["table", "json", "prometheus"].as_slice())
        .default_value("table")
}
