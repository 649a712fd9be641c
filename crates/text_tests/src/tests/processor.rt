use crate::tests::events::{event, outcome};
use event_json::envelope;
use std::alloc::Global;
use std::test::Fail;
use wire_base::{Moment, Text};

const FIELDS: &str = r#"a = "1", log = { offset = 5 }, tags = ["old"], text = "t""#;

/// Processors, and what they make of an event with these fields: its payload, or the rule that drops it. A rule is the place
/// of its processor, from 10 on.
const OUTCOMES: [(&str, &str); 16] = [
    (
        r#"{ drop_fields = { fields = ["a", "log.offset", "@timestamp", "type"] } }"#,
        r#"{"log":{},"none":null,"tags":["old"],"text":"t"}"#,
    ),
    (
        r#"{ drop_fields = { fields = ["b", "a"], ignore_missing = true } }"#,
        r#"{"log":{"offset":5},"none":null,"tags":["old"],"text":"t"}"#,
    ),
    (
        r#"{ add_fields = { fields = { env = "prod" } } }"#,
        r#"{"a":"1","fields":{"env":"prod"},"log":{"offset":5},"none":null,"tags":["old"],"text":"t"}"#,
    ),
    // Maps are merged and all else is replaced, and a key with dots is one key.
    (
        r#"{ add_fields = { target = "", fields = { log = { "x.y" = true }, tags = { x = -1 }, none = [] } } }"#,
        r#"{"a":"1","log":{"offset":5,"x.y":true},"none":[],"tags":{"x":-1},"text":"t"}"#,
    ),
    (
        r#"{ add_tags = { tags = ["x", "y"] } }"#,
        r#"{"a":"1","log":{"offset":5},"none":null,"tags":["old","x","y"],"text":"t"}"#,
    ),
    (
        r#"{ add_tags = { target = "log.tags", tags = ["x"] } }"#,
        r#"{"a":"1","log":{"offset":5,"tags":["x"]},"none":null,"tags":["old"],"text":"t"}"#,
    ),
    (
        r#"{ rename = { fields = [{ from = "a", to = "log.a" }, { from = "log", to = "l" }] } }"#,
        r#"{"l":{"a":"1","offset":5},"none":null,"tags":["old"],"text":"t"}"#,
    ),
    (
        r#"{ rename = { fields = [{ from = "c", to = "d" }, { from = "a", to = "b" }], ignore_missing = true } }"#,
        r#"{"b":"1","log":{"offset":5},"none":null,"tags":["old"],"text":"t"}"#,
    ),
    (
        r#"{ add_tags = { tags = ["x"], when = { equals = { text = "t" } } } }"#,
        r#"{"a":"1","log":{"offset":5},"none":null,"tags":["old","x"],"text":"t"}"#,
    ),
    (
        r#"{ add_tags = { tags = ["x"], when = { equals = { text = "u" } } } }"#,
        r#"{"a":"1","log":{"offset":5},"none":null,"tags":["old"],"text":"t"}"#,
    ),
    // An error without a text.
    (
        r#"{ add_fields = { target = "", fields = { error = "e" } } }, { drop_fields = { fields = ["b"] } }"#,
        r#"{"a":"1","error":"e","log":{"offset":5},"none":null,"tags":["old"],"text":"t"}"#,
    ),
    (
        r#"{ add_fields = { target = "error", fields = { message = 1 } } }, { drop_fields = { fields = ["b"] } }"#,
        r#"{"a":"1","error":{"message":1},"log":{"offset":5},"none":null,"tags":["old"],"text":"t"}"#,
    ),
    // Only the pair is left out.
    (
        r#"{ rename = { fields = [{ from = "a", to = "text" }, { from = "a", to = "b" }], fail_on_error = false } }"#,
        r#"{"b":"1","log":{"offset":5},"none":null,"tags":["old"],"text":"t"}"#,
    ),
    // Events are dropped by the place of the processor.
    (
        r#"{ drop_event = { when = { has_fields = ["a"] } } }"#,
        "rule 10",
    ),
    (
        r#"{ drop_event = { when = { has_fields = ["b"] } } }, { drop_event = { when = { has_fields = ["a"] } } }"#,
        "rule 11",
    ),
    (
        r#"{ rename = { fields = [{ from = "a", to = "b" }] } }, { add_tags = { tags = [] } }, { drop_event = { when = { has_fields = ["b"] } } }"#,
        "rule 12",
    ),
];

#[test]
fn processors_change_or_drop_the_event(rt: HostRuntime) -> Result<(), Fail> {
    for (processors, wanted) in &OUTCOMES {
        let event = event(rt.alloc(), FIELDS)?;
        let told = outcome(rt.alloc(), processors, event)?;
        assert_eq!(rt; told.as_str(), *wanted, "{processors}");
    }
    Ok(())
}

/// Processors, and the text of the error that they leave.
const ERRORS: [(&str, &str); 11] = [
    (
        r#"{ drop_fields = { fields = ["a", "b"] } }"#,
        "drop_fields: no field b",
    ),
    (
        r#"{ drop_fields = { fields = ["log", "log.offset"] } }"#,
        "drop_fields: no field log.offset",
    ),
    (
        r#"{ add_fields = { target = "text", fields = { x = 1 } } }"#,
        "add_fields: no map at text",
    ),
    (
        r#"{ add_fields = { target = "log.offset.x", fields = { x = 1 } } }"#,
        "add_fields: no map at log.offset.x",
    ),
    (
        r#"{ add_tags = { target = "text", tags = ["x"] } }"#,
        "add_tags: no list at text",
    ),
    (
        r#"{ add_tags = { target = "text.tags", tags = ["x"] } }"#,
        "add_tags: no list at text.tags",
    ),
    (
        r#"{ rename = { fields = [{ from = "a", to = "b" }, { from = "c", to = "d" }] } }"#,
        "rename: no field c",
    ),
    (
        r#"{ rename = { fields = [{ from = "a", to = "text" }] } }"#,
        "rename: field text exists",
    ),
    (
        r#"{ rename = { fields = [{ from = "a", to = "a" }] } }"#,
        "rename: field a exists",
    ),
    (
        r#"{ rename = { fields = [{ from = "a", to = "text.x" }] } }"#,
        "rename: no map at text.x",
    ),
    // A later text follows the earlier.
    (
        r#"{ drop_fields = { fields = ["b"] } }, { rename = { fields = [{ from = "c", to = "d" }] } }"#,
        "drop_fields: no field b; rename: no field c",
    ),
];

/// The event as it was, with this text at `error.message`.
fn with_error(alloc: Global, text: &str) -> Result<String, Fail> {
    Ok(format!(in alloc;
        "{{\"a\":\"1\",\"error\":{{\"message\":\"{text}\"}},\"log\":{{\"offset\":5}},\"none\":null,\"tags\":[\"old\"],\"text\":\"t\"}}"
    )?)
}

#[test]
fn an_error_leaves_the_event_and_its_text(rt: HostRuntime) -> Result<(), Fail> {
    for (processors, text) in &ERRORS {
        let event = event(rt.alloc(), FIELDS)?;
        let told = outcome(rt.alloc(), processors, event)?;
        let wanted = with_error(rt.alloc(), text)?;
        assert_eq!(rt; told.as_str(), wanted.as_str());
    }
    Ok(())
}

const IN_ORDER: &str =
    r#"{ add_tags = { tags = ["x"] } }, { rename = { fields = [{ from = "a", to = "b" }] } }, { add_fields = { fields = { env = "prod" } } }, { drop_event = { when = { equals = { message = "b" } } } }"#;

/// Processors, the place and the bytes of a line of `/w/a.log`, and what they make of it.
const LINES: [(&str, u64, &[u8], &str); 3] = [
    (
        IN_ORDER,
        0,
        b"a",
        r#"{"@timestamp":"1970-01-01T00:00:00.000Z","error":{"message":"rename: no field a"},"fields":{"env":"prod"},"input":{"type":"filestream"},"log":{"file":{"path":"/w/a.log"},"offset":0},"message":"a","tags":["x"]}"#,
    ),
    (IN_ORDER, 2, b"b", "rule 13"),
    // The range of an absent field.
    (
        r#"{ drop_event = { when = { range = { a = { gt = 1 } } } } }"#,
        0,
        b"a",
        r#"{"@timestamp":"1970-01-01T00:00:00.000Z","input":{"type":"filestream"},"log":{"file":{"path":"/w/a.log"},"offset":0},"message":"a"}"#,
    ),
];

#[test]
fn processors_in_order(rt: HostRuntime) -> Result<(), Fail> {
    let alloc = rt.alloc();
    let path = Text::from_bytes(alloc, b"/w/a.log")?;
    for (processors, place, line, wanted) in LINES {
        assert!(rt; place <= 2);
        let event = envelope(alloc, &path, place, line, Moment(0))?;
        let told = outcome(alloc, processors, event)?;
        assert_eq!(rt; told.as_str(), wanted, "{processors}");
    }
    Ok(())
}
