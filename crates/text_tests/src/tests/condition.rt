use crate::tests::events::{event, settings};
use conditions::Condition;
use event_tree::{ProcessorRule, Tree};
use std::alloc::Global;
use std::test::Fail;

/// A value of each kind; `none` is a null.
const FIELDS: &str =
    r#"flag = true, list = [5, {}, "warning"], log = { level = "error" }, number = 5, text = "a brown fox""#;

fn holds(alloc: Global, condition: &str, event: &Tree) -> Result<bool, Fail> {
    let processors = format!(in alloc; "{{ drop_event = {{ when = {{ {condition} }} }} }}")?;
    let settings = settings(alloc, &processors)?;
    let [ProcessorRule::DropEvent { when }] = settings.processors.as_slice() else {
        return Err("no drop_event".into());
    };
    let mut condition = Condition::new(alloc, when)?;
    Ok(condition.holds(alloc, event)?)
}

/// Conditions that hold of an event with these fields. `equals` asks for exactly that value, `contains` texts and members
/// that are texts, `regexp` texts, and `range` whole numbers.
const HELD: &[&str] = &[
    r#"equals = { "log.level" = "error" }"#,
    "equals = { number = 5 }",
    "equals = { flag = true }",
    "equals = { number = 5, flag = true }",
    r#"contains = { text = "brown" }"#,
    r#"contains = { text = "" }"#,
    r#"contains = { list = "warn" }"#,
    r#"contains = { text = "fox", list = "g" }"#,
    r#"regexp = { text = "fox$" }"#,
    r#"regexp = { text = "b.o" }"#,
    r#"regexp = { "log.level" = "^er+or$" }"#,
    r#"regexp = { text = "fox", "log.level" = "err" }"#,
    "range = { number = { gt = 4 } }",
    "range = { number = { gte = 5 } }",
    "range = { number = { lt = 6 } }",
    "range = { number = { lte = 5 } }",
    "range = { number = { gt = -1, gte = 5, lt = 6, lte = 5 } }",
    r#"has_fields = ["log", "log.level", "none"]"#,
    r#"not = { has_fields = ["absent"] }"#,
    "not = { range = { absent = { gt = 1 } } }",
    r#"and = [{ has_fields = ["flag"] }, { equals = { number = 5 } }]"#,
    r#"or = [{ has_fields = ["absent"] }, { equals = { number = 5 } }]"#,
    r#"and = [{ or = [{ has_fields = ["absent"] }, { has_fields = ["flag"] }] }, { not = { equals = { number = 6 } } }]"#,
];

/// Conditions that do not hold of it.
const OTHERS: &[&str] = &[
    r#"equals = { text = "a brown" }"#,
    r#"equals = { number = "5" }"#,
    "equals = { number = -5 }",
    "equals = { flag = false }",
    r#"equals = { flag = "true" }"#,
    r#"equals = { none = "" }"#,
    r#"equals = { list = "warning" }"#,
    r#"equals = { log = "error" }"#,
    r#"equals = { absent = "" }"#,
    r#"equals = { "text.a" = "a" }"#,
    r#"equals = { number = 5, text = "a" }"#,
    r#"contains = { text = "brownie" }"#,
    r#"contains = { list = "5" }"#,
    r#"contains = { list = "a warning" }"#,
    r#"contains = { number = "5" }"#,
    r#"contains = { flag = "true" }"#,
    r#"contains = { none = "" }"#,
    r#"contains = { log = "error" }"#,
    r#"contains = { absent = "" }"#,
    r#"contains = { "list.0" = "" }"#,
    r#"contains = { text = "fox", list = "5" }"#,
    r#"regexp = { text = "^brown" }"#,
    r#"regexp = { list = "warning" }"#,
    r#"regexp = { number = "5" }"#,
    r#"regexp = { flag = "" }"#,
    r#"regexp = { none = "" }"#,
    r#"regexp = { log = "" }"#,
    r#"regexp = { absent = "" }"#,
    r#"regexp = { "text.a" = "" }"#,
    r#"regexp = { text = "fox", "log.level" = "^rr" }"#,
    "range = { number = { gt = 5 } }",
    "range = { number = { gte = 6 } }",
    "range = { number = { lt = 5 } }",
    "range = { number = { lte = 4 } }",
    "range = { number = { gte = 5, lt = 5 } }",
    "range = { text = { lt = 1 } }",
    "range = { flag = { lt = 2 } }",
    "range = { none = { lt = 1 } }",
    "range = { list = { lt = 9 } }",
    "range = { log = { lt = 9 } }",
    "range = { absent = { lt = 1 } }",
    "range = { absent = { gt = 1 } }",
    r#"range = { "number.a" = { lt = 9 } }"#,
    "range = { number = { gt = 4 }, absent = { gt = 4 } }",
    r#"has_fields = ["number", "log.file"]"#,
    r#"has_fields = ["number.a"]"#,
    r#"has_fields = ["list.0"]"#,
    r#"not = { has_fields = ["none"] }"#,
    r#"and = [{ has_fields = ["flag"] }, { equals = { number = 6 } }]"#,
    r#"or = [{ has_fields = ["absent"] }, { equals = { number = 6 } }]"#,
    r#"not = { and = [{ has_fields = ["flag"] }, { or = [{ equals = { number = 5 } }] }] }"#,
];

#[test]
fn conditions_hold_of_what_they_ask_for(rt: HostRuntime) -> Result<(), Fail> {
    let event = event(rt.alloc(), FIELDS)?;
    for (conditions, wanted) in [(HELD, true), (OTHERS, false)] {
        for condition in conditions {
            let found = holds(rt.alloc(), condition, &event)?;
            assert!(rt; found == wanted, "{condition}");
        }
    }
    Ok(())
}

#[test]
fn the_deepest_condition(rt: HostRuntime) -> Result<(), Fail> {
    let alloc = rt.alloc();
    let event = event(alloc, FIELDS)?;
    let (opened, closed) = ("not = { ".repeat(alloc, 15)?, " }".repeat(alloc, 15)?);
    let deepest = format!(in alloc; "{opened}has_fields = [\"absent\"]{closed}")?;
    assert!(rt; holds(alloc, &deepest, &event)?);
    Ok(())
}
