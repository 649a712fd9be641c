ghost use Rattle.std.specs.Prelude.{IfOk};
ghost use Rattle.beat_config.specs.InRange.{AreInRange};

use beat_config::read_settings;
use event_json::payload;
use event_tree::{Fields, Settings, Tree};
use processors_core::{Chain, Fate};
use std::alloc::Global;
use std::str;
use std::test::Fail;
use wire_base::Text;

/// The settings with these processors.
pub fn settings(alloc: Global, processors: &str) -> Result<Settings, Fail>
    ensures { IfOk result AreInRange }
{
    let document = format!(in alloc;
        "processors = [{processors}]\n[[inputs]]\nid = \"w\"\npaths = [\"/w/a.log\"]\n[output]\nhosts = [\"h:5044\"]\n"
    )?;
    Ok(read_settings(alloc, document.as_bytes())?)
}

/// An event with these fields and no other, but a null that settings cannot spell.
pub fn event(alloc: Global, fields: &str) -> Result<Tree, Fail> {
    let mut event = Fields::new(alloc);
    let none = Text::from_bytes(alloc, b"none")?;
    if event.set(none, Tree::Null).is_err() {
        return Err("out of memory".into());
    }
    let added = format!(in alloc;
        "{{ add_fields = {{ target = \"\", fields = {{ {fields} }} }} }}"
    )?;
    match fate(alloc, &added, Tree::Map(event))? {
        Fate::Ship(event) => Ok(event),
        Fate::Dropped(_) => Err("dropped".into()),
    }
}

/// What the processors make of the event.
pub fn fate(alloc: Global, processors: &str, event: Tree) -> Result<Fate, Fail> {
    let settings = settings(alloc, processors)?;
    let mut chain = Chain::new(alloc, settings.processors.as_slice())?;
    Ok(chain.run(alloc, event)?)
}

/// The payload of what the processors make of the event, or the rule that drops it.
pub fn outcome(alloc: Global, processors: &str, event: Tree) -> Result<String, Fail> {
    match fate(alloc, processors, event)? {
        Fate::Ship(event) => {
            let payload = payload(alloc, &event)?.ok_or("too long")?;
            Ok(String::from_str(alloc, str::from_utf8(payload.bytes())?)?)
        }
        Fate::Dropped(rule) => {
            let rule = rule.0;
            Ok(format!(in alloc; "rule {rule}")?)
        }
    }
}
