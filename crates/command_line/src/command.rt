ghost use Rattle.std.specs.Prelude.{◌≡◌, ◌≢◌, ◌⊎◌, IfOk, IfErr, [], map, codes, true, false, is_some};
ghost use Rattle.clap.specs.Faults.{fault_of};
ghost use Rattle.clap.specs.Words.{app_of, first_value, found_of, kind_of, matches_of, rows_of, rule_of};
ghost use Rattle.command_line.specs.Command.{beat_command, config_option, data_option, generate_option, once_flag};

use clap::error::ErrorKind;
use clap::{Arg, ArgAction, ArgMatches, Command, Error};
use std::alloc::{AllocError, Global};

/// What the command finds in the arguments.
pub(crate) fn parse<'a>(alloc: Global, words: &'a [&'a str]) -> Result<ArgMatches<'a>, Error>
    ensures taken { IfOk result (λ _. fault_of beat_command (map (λ word. word.now) words.now) ≡ []) }
    ensures refused { IfErr result (λ error. (kind_of error ≡ ErrorKind.OutOfMemory)
        ⊎ (fault_of beat_command (map (λ word. word.now) words.now) ≢ [])) }
    ensures found { IfOk result (λ matches. rows_of (found_of matches)
        ≡ matches_of beat_command (map (λ word. word.now) words.now)) }
    ensures has_settings { IfOk result (λ matches. is_some (first_value (found_of matches) (codes "config")) ≡ true) }
    ensures has_folder { IfOk result (λ matches. is_some (first_value (found_of matches) (codes "data")) ≡ true) }
{
    command(alloc)?.try_get_matches_from(words)
}

fn command<'a>(alloc: Global) -> Result<Command<'a>, AllocError>
    ensures { IfOk result (λ command. app_of command ≡ beat_command) }
{
    Command::new(alloc, "beat_main")
        .no_binary_name(true)
        .disable_help_flag(true)
        .arg(config(alloc))?
        .arg(data(alloc))?
        .arg(once(alloc))?
        .arg(generate(alloc))
}

fn config<'a>(alloc: Global) -> Arg<'a>
    ensures rule { rule_of result ≡ config_option }
    ensures local { result.global ≡ false }
{
    Arg::new(alloc, "config")
        .short('c')
        .long("config")
        .action(ArgAction::Set)
        .required(true)
}

fn data<'a>(alloc: Global) -> Arg<'a>
    ensures rule { rule_of result ≡ data_option }
    ensures local { result.global ≡ false }
{
    Arg::new(alloc, "data")
        .long("data")
        .action(ArgAction::Set)
        .default_value("data")
}

fn once<'a>(alloc: Global) -> Arg<'a>
    ensures rule { rule_of result ≡ once_flag }
    ensures local { result.global ≡ false }
{
    Arg::new(alloc, "once")
        .long("once")
        .action(ArgAction::SetTrue)
}

fn generate<'a>(alloc: Global) -> Arg<'a>
    ensures rule { rule_of result ≡ generate_option }
    ensures local { result.global ≡ false }
{
    Arg::new(alloc, "generate")
        .long("generate")
        .action(ArgAction::Set)
}
