//! What the table of settings runs; no part of the product.
//!
//! Standard input has documents, each ended by a line `===`. For each the program prints what
//! `read_settings` answers: the fault, or the numbers of the settings and a line for each input.
#![tactic(auto)]

use beat_config::read_settings;
use event_tree::{GroupRule, IdentityRule, InputRule, OutputRule, Side};
use std::alloc::Global;

fn identity_name(rule: &IdentityRule) -> &'static str {
    match rule {
        IdentityRule::Fingerprint { .. } => "fingerprint",
        IdentityRule::Native => "native",
        IdentityRule::Path => "path",
    }
}

fn group_name(rule: &GroupRule) -> &'static str {
    match rule {
        GroupRule::Single { .. } => "single",
        GroupRule::Count { .. } => "count",
        GroupRule::Pattern {
            side: Side::After,
            ..
        } => "after",
        GroupRule::Pattern {
            side: Side::Before,
            ..
        } => "before",
    }
}

fn output_line(alloc: Global, rule: &OutputRule) -> anyhow::Result<String> {
    let hosts = rule.hosts.as_slice().len();
    let (workers, bulk) = (rule.workers, rule.bulk_max_size);
    let pipelining = rule.pipelining;
    let (timeout, attempts) = (rule.timeout, rule.attempts);
    let text = format!(in alloc;
        "hosts {hosts} workers {workers} bulk {bulk} pipelining {pipelining}"
    )?;
    Ok(format!(in alloc; "{text} timeout {timeout} attempts {attempts}")?)
}

fn input_line(alloc: Global, rule: &InputRule) -> anyhow::Result<String> {
    let id = rule.id.as_str();
    let paths = rule.paths.as_slice().len();
    let identity = identity_name(&rule.file_identity);
    let (check, inactive) = (rule.check_interval, rule.close_inactive);
    let (older, cleaned) = (rule.ignore_older, rule.clean_inactive);
    let removed = rule.clean_removed;
    let most = rule.lines.message_max_bytes;
    let include = rule.include_lines.as_slice().len();
    let exclude = rule.exclude_lines.as_slice().len();
    let group = group_name(&rule.multiline);
    let text = format!(in alloc;
        "{id} paths {paths} {identity} check {check} inactive {inactive} removed {removed}"
    )?;
    let text = format!(in alloc; "{text} older {older} cleaned {cleaned} most {most}")?;
    Ok(format!(in alloc; "{text} include {include} exclude {exclude} {group}")?)
}

fn answer(rt: &HostRuntime, document: &str) -> anyhow::Result<()> {
    let alloc = rt.alloc();
    let settings = match read_settings(alloc, document.as_bytes()) {
        Ok(settings) => settings,
        Err(fault) => {
            println!(rt; "{fault}")?;
            return Ok(());
        }
    };
    let (events, lanes) = (settings.events, settings.lanes);
    let processors = settings.processors.as_slice().len();
    let output = output_line(alloc, &settings.output)?;
    println!(rt; "ok events {events} lanes {lanes} processors {processors} {output}")?;
    for rule in settings.inputs.as_slice() {
        let line = input_line(alloc, rule)?;
        println!(rt; "   {line}")?;
    }
    Ok(())
}

fn main(rt: HostRuntime) -> anyhow::Result<()> {
    let alloc = rt.alloc();
    let mut document = String::new(alloc);
    for line in rt.lines(alloc) {
        let line = line?;
        if line.as_str() == "===" {
            answer(&rt, document.as_str())?;
            document = String::new(alloc);
        } else {
            document.push_str(line.as_str())?;
            document.push('\n')?;
        }
    }
    Ok(())
}
