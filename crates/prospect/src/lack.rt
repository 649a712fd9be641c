ghost use Rattle.std.specs.Prelude.{◌≡◌, ◌++◌, [], IfOk, MatchOption, OnOk};
ghost use Rattle.prospect.specs.Lacks.{IsFirstLack, input_key, lacks_of, lacks_of_input, lacks_of_inputs, unless_built};

use event_tree::{InputRule, Settings};
use std::alloc::Global;
use wire_base::{NoMemory, Text};

/// The first key in byte order by which valid settings ask for what is not built, as
/// `inputs.0.ignore_older` or `inputs.1.clean_inactive`.
pub fn first_lack(alloc: Global, settings: &Settings) -> Result<Option<Text>, NoMemory>
    ensures first { IfOk result (λ found. MatchOption found (lacks_of settings.now ≡ []) (IsFirstLack settings.now)) }
{
    let lacks = lacks_of(alloc, settings)?;
    Ok(lacks.into_iter().min())
}

/// All such keys, in the order of the settings.
fn lacks_of(alloc: Global, settings: &Settings) -> Result<Vec<Text>, NoMemory>
    ensures { IfOk result (λ lacks. lacks.items ≡ lacks_of settings.now) }
{
    let mut lacks = Vec::new(alloc);
    add_inputs(alloc, &mut lacks, settings.inputs.as_slice())?;
    Ok(lacks)
}

fn add_inputs(alloc: Global, lacks: &mut Vec<Text>, inputs: &[InputRule]) -> Result<(), NoMemory>
    ensures { OnOk result (lacks.new.items ≡ lacks.old.items ++ lacks_of_inputs 0 inputs.now) }
{
    for (number, input) in inputs.iter().enumerate() {
        add_input(alloc, lacks, number, input)?;
    }
    Ok(())
}

fn add_input(
    alloc: Global,
    lacks: &mut Vec<Text>,
    number: usize,
    input: &InputRule,
) -> Result<(), NoMemory>
    ensures { OnOk result (lacks.new.items ≡ lacks.old.items ++ lacks_of_input number input.now) }
{
    let takes_old = input.ignore_older == 0;
    add_of(alloc, lacks, number, takes_old, "ignore_older")?;
    let keeps_inactive = input.clean_inactive == 0;
    add_of(alloc, lacks, number, keeps_inactive, "clean_inactive")?;
    Ok(())
}

/// Adds the key of a setting of an input, unless what it asks for is built.
fn add_of(
    alloc: Global,
    lacks: &mut Vec<Text>,
    number: usize,
    built: bool,
    name: &str,
) -> Result<(), NoMemory>
    ensures { OnOk result (lacks.new.items ≡ lacks.old.items ++ unless_built built (input_key number name.now)) }
{
    if !built {
        let key = format!(in alloc; "inputs.{number}.{name}")?;
        lacks.push(Text::from_string(key))?;
    }
    Ok(())
}
