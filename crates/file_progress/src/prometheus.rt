ghost use Rattle.std.specs.Prelude.{◌≡◌, ◌++◌, IfOk, OnOk};
ghost use Rattle.std.specs.Option.{option_copied};
ghost use Rattle.file_progress.specs.Prometheus.{count_line, counts_family, files_family, head_of, prometheus_text, sample_of, sampled_key, seconds_of, single_family};

use crate::family::Family;
use crate::overview::Overview;
use crate::part::Part::{Label, Number, Plain};
use crate::part::put_parts;
use crate::totals::{behind_in, count_in};
use crate::{Progress, State};
use std::alloc::Global;
use wire_base::{Moment, NoMemory, Text};

/// The text of a look for the textfile collector.
pub(crate) fn prometheus_text(alloc: Global, overview: &Overview) -> Result<Vec<u8>, NoMemory>
    ensures { IfOk result (λ text. text.items ≡ prometheus_text overview.now) }
{
    let files = overview.files.as_slice();
    let mut page = Vec::new(alloc);
    put_files(&mut page, Family::FileBehind, files)?;
    put_files(&mut page, Family::FileOffset, files)?;
    put_files(&mut page, Family::FileSize, files)?;
    put_files(&mut page, Family::FileRestarts, files)?;
    put_counts(&mut page, files)?;
    put_single(&mut page, Family::Behind, Some(behind_in(files)))?;
    put_single(&mut page, Family::Generation, overview.generation)?;
    put_single(&mut page, Family::Written, seconds_of(overview.committed))?;
    Ok(page)
}

fn seconds_of(moment: Option<Moment>) -> Option<u64>
    ensures { result ≡ seconds_of moment }
{
    match moment {
        Some(moment) => Some(moment.0 / 1_000),
        None => None,
    }
}

/// Puts the lines before a family.
fn put_head(page: &mut Vec<u8>, family: Family) -> Result<(), NoMemory>
    ensures { OnOk result (page.new.items ≡ page.old.items ++ head_of family) }
{
    put_parts(
        page,
        &[
            Plain(b"# HELP "),
            Plain(family.name()),
            Plain(b" "),
            Plain(family.help()),
            Plain(b"\n# TYPE "),
            Plain(family.name()),
            Plain(b" "),
            Plain(family.kind()),
            Plain(b"\n"),
        ],
    )
}

fn put_files(page: &mut Vec<u8>, family: Family, files: &[Progress]) -> Result<(), NoMemory>
    ensures { OnOk result (page.new.items ≡ page.old.items ++ files_family family files.now) }
{
    put_head(page, family)?;
    for one in files {
        put_sample(page, family, one)?;
    }
    Ok(())
}

/// Puts what a file has in a family, unless it is counted alone.
fn put_sample(page: &mut Vec<u8>, family: Family, one: &Progress) -> Result<(), NoMemory>
    ensures { OnOk result (page.new.items ≡ page.old.items ++ sample_of family one.now) }
{
    let (Some(key), Some(value)) = (sampled_key(one), family.value(one)) else {
        return Ok(());
    };
    put_parts(
        page,
        &[
            Plain(family.name()),
            Plain(b"{key=\""),
            Label(key),
            Plain(b"\",path=\""),
            Label(&one.path),
            Plain(b"\"} "),
            Number(value),
            Plain(b"\n"),
        ],
    )
}

/// The key of a file with a row, and of a new one.
fn sampled_key(one: &Progress) -> Option<&Text>
    ensures { option_copied result ≡ sampled_key one.now.state one.now.key }
{
    match one.state {
        State::Doubled | State::Small => None,
        State::Present | State::Shorter | State::Gone | State::New => one.key.as_ref(),
    }
}

fn put_counts(page: &mut Vec<u8>, files: &[Progress]) -> Result<(), NoMemory>
    ensures { OnOk result (page.new.items ≡ page.old.items ++ counts_family files.now) }
{
    put_head(page, Family::Files)?;
    put_count(page, files, State::Present)?;
    put_count(page, files, State::Shorter)?;
    put_count(page, files, State::Gone)?;
    put_count(page, files, State::New)?;
    put_count(page, files, State::Doubled)?;
    put_count(page, files, State::Small)?;
    Ok(())
}

fn put_count(page: &mut Vec<u8>, files: &[Progress], state: State) -> Result<(), NoMemory>
    ensures { OnOk result (page.new.items ≡ page.old.items ++ count_line files.now state) }
{
    put_parts(
        page,
        &[
            Plain(b"beat_files{state=\""),
            Plain(state.name().as_bytes()),
            Plain(b"\"} "),
            Number(count_in(files, state)),
            Plain(b"\n"),
        ],
    )
}

/// Puts a family of one sample, if there is a number.
fn put_single(page: &mut Vec<u8>, family: Family, number: Option<u64>) -> Result<(), NoMemory>
    ensures { OnOk result (page.new.items ≡ page.old.items ++ single_family family number) }
{
    let Some(number) = number else {
        return Ok(());
    };
    put_head(page, family)?;
    put_parts(
        page,
        &[
            Plain(family.name()),
            Plain(b" "),
            Number(number),
            Plain(b"\n"),
        ],
    )
}
