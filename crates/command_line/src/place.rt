ghost use Rattle.std.specs.Prelude.{◌≡◌, ◌++◌, IfOk, codes};
ghost use Rattle.command_line.specs.Places.{IsAskedOrDefault, IsGenerated, IsInData, IsSettingsPlace};

use crate::locations::Places;
use crate::read::{read_words, text};
use crate::words::Words;
use std::alloc::Global;
use wire_base::{NoMemory, Text};

/// The places that the arguments name: the settings file, and in the data folder the areas `registry.a` and
/// `registry.b` and the file `stop`. If the command refuses the arguments, `beat.toml`, the folder `data` and no
/// generator.
pub fn places(alloc: Global, words: &[Text]) -> Result<Places, NoMemory>
    ensures settings_named_or_default { IfOk result (λ places. IsSettingsPlace words.now places.settings) }
    ensures first_area_in_data { IfOk result (λ places. IsInData words.now (codes "/registry.a") places.area_a) }
    ensures second_area_in_data { IfOk result (λ places. IsInData words.now (codes "/registry.b") places.area_b) }
    ensures stop_in_data { IfOk result (λ places. IsInData words.now (codes "/stop") places.stop) }
    ensures generates_as_asked { IfOk result (λ places. IsGenerated words.now places.generate) }
{
    let asked = asked_or_default(alloc, words)?;
    let folder = asked.data.as_str();
    Ok(Places {
        area_a: joined(alloc, folder, "/registry.a")?,
        area_b: joined(alloc, folder, "/registry.b")?,
        stop: joined(alloc, folder, "/stop")?,
        settings: asked.settings,
        generate: asked.generate,
    })
}

fn asked_or_default(alloc: Global, words: &[Text]) -> Result<Words, NoMemory>
    ensures { IfOk result (IsAskedOrDefault words.now) }
{
    match read_words(alloc, words)? {
        Some(asked) => Ok(asked),
        None => Ok(Words {
            settings: text(alloc, "beat.toml")?,
            data: text(alloc, "data")?,
            once: false,
            generate: None,
        }),
    }
}

fn joined(alloc: Global, folder: &str, name: &str) -> Result<Text, NoMemory>
    ensures { IfOk result (λ path. path ≡ folder.now ++ name.now) }
{
    let mut path = String::from_str(alloc, folder)?;
    path.push_str(name)?;
    Ok(Text::from_string(path))
}
