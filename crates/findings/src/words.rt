use crate::Asked;
use clap::{Arg, ArgAction, Command, Error};
use std::alloc::Global;
use wire_base::Text;

/// What the arguments ask for; an error has the text to print, and where, or is that of being out of memory.
pub fn read_words(alloc: Global, words: &[String]) -> Result<Asked, Error> {
    let matches = command(alloc)?.try_get_matches_from(words)?;
    Ok(Asked {
        settings: text(alloc, matches.get_str("config"))?,
        data: text(alloc, matches.get_str("data"))?,
        connect: matches.get_flag("connect"),
    })
}

fn text(alloc: Global, value: Option<&str>) -> Result<Text, Error> {
    Ok(Text::from_string(String::from_str(alloc, value.unwrap_or(""))?))
}

fn command<'a>(alloc: Global) -> Result<Command<'a>, Error> {
    let command = Command::new(alloc, "beat_check")
        .no_binary_name(true)
        .version("0.1.0")
        .about(
            "Checks the settings of beat_main, the files that they name and the hosts, and changes nothing.",
        )
        .arg(config(alloc))?
        .arg(data(alloc))?
        .arg(connect(alloc))?;
    Ok(command)
}

fn config<'a>(alloc: Global) -> Arg<'a> {
    Arg::new(alloc, "config")
        .short('c')
        .long("config")
        .value_name("FILE")
        .help("The settings file")
        .action(ArgAction::Set)
        .required(true)
}

fn data<'a>(alloc: Global) -> Arg<'a> {
    Arg::new(alloc, "data")
        .long("data")
        .value_name("DIR")
        .help("The folder of the registry")
        .action(ArgAction::Set)
        .default_value("data")
}

fn connect<'a>(alloc: Global) -> Arg<'a> {
    Arg::new(alloc, "connect")
        .long("connect")
        .help("Connect to each host, and close the connection")
        .action(ArgAction::SetTrue)
}
