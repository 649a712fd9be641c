ghost use Rattle.std.specs.Prelude.{◌≡◌, IfOk, map};
ghost use Rattle.file_progress.specs.Json.{IsJson, age_data, file_data, moment_data, number_data, overview_data, text_data, totals_data};
ghost use Rattle.serde_json.specs.View.{view};

use crate::overview::Overview;
use crate::totals::{behind_in, count_in};
use crate::{Progress, State};
use serde_json::{Value, json};
use std::alloc::Global;
use wire_base::{Moment, NoMemory, Text};

/// The JSON text of a look: one object, and a line feed.
pub(crate) fn json_text(alloc: Global, overview: &Overview) -> Result<Vec<u8>, NoMemory>
    ensures { IfOk result (λ text. IsJson overview.now text.items) }
{
    let value = overview_value(alloc, overview)?;
    let mut text = value.to_string(alloc)?.into_bytes();
    text.push(b'\n')?;
    Ok(text)
}

fn overview_value(alloc: Global, overview: &Overview) -> Result<Value, NoMemory>
    ensures { IfOk result (λ value. view value ≡ overview_data overview.now) }
{
    let value = json!(in alloc; {
        "age_ms": age_value(overview.moment, overview.committed),
        "committed_ms": moment_value(overview.committed),
        "files": file_values(alloc, &overview.files)?,
        "generation": number_value(overview.generation),
        "totals": totals_value(alloc, &overview.files)?,
    })?;
    Ok(value)
}

fn file_values(alloc: Global, files: &[Progress]) -> Result<Vec<Value>, NoMemory>
    ensures { IfOk result (λ values. map view values.items ≡ map file_data files.now) }
{
    let mut values = Vec::new(alloc);
    for one in files {
        values.push(file_value(alloc, one)?)?;
    }
    Ok(values)
}

fn file_value(alloc: Global, one: &Progress) -> Result<Value, NoMemory>
    ensures { IfOk result (λ value. view value ≡ file_data one.now) }
{
    let value = json!(in alloc; {
        "behind_bytes": number_value(one.behind),
        "epoch": one.epoch,
        "key": text_value(alloc, &one.key)?,
        "offset": one.offset,
        "path": one.path.as_str(),
        "size": number_value(one.size),
        "state": one.state.name(),
    })?;
    Ok(value)
}

fn totals_value(alloc: Global, files: &[Progress]) -> Result<Value, NoMemory>
    ensures { IfOk result (λ value. view value ≡ totals_data files.now) }
{
    let value = json!(in alloc; {
        "behind_bytes": behind_in(files),
        "doubled": count_in(files, State::Doubled),
        "gone": count_in(files, State::Gone),
        "new": count_in(files, State::New),
        "present": count_in(files, State::Present),
        "shorter": count_in(files, State::Shorter),
        "small": count_in(files, State::Small),
    })?;
    Ok(value)
}

fn number_value(number: Option<u64>) -> Value
    ensures { view result ≡ number_data number }
{
    match number {
        Some(number) => Value::from(number),
        None => Value::Null,
    }
}

fn text_value(alloc: Global, text: &Option<Text>) -> Result<Value, NoMemory>
    ensures { IfOk result (λ value. view value ≡ text_data text.now) }
{
    match text {
        Some(text) => Ok(Value::String(String::from_str(alloc, text.as_str())?)),
        None => Ok(Value::Null),
    }
}

fn moment_value(moment: Option<Moment>) -> Value
    ensures { view result ≡ moment_data moment }
{
    match moment {
        Some(moment) => Value::from(moment.0),
        None => Value::Null,
    }
}

fn age_value(now: Moment, moment: Option<Moment>) -> Value
    ensures { view result ≡ age_data now.0 moment }
{
    match moment {
        Some(moment) => Value::from(now.0.saturating_sub(moment.0)),
        None => Value::Null,
    }
}
