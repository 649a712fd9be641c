use crate::tests::parts::texts;
use command_line::*;
use std::alloc::Global;
use std::process::Abort;
use std::test::Fail;

const REFUSED: [&[&str]; 53] = [
    &[],
    &[""],
    &["f"],
    &["--once"],
    &["--data", "d", "--once"],
    &["-c"],
    &["--config"],
    &["-c", "--once"],
    &["-c", "-f"],
    &["-c", "--data=d"],
    &["-c", "--"],
    &["-c", "--", "f"],
    &["-c", "f", "x"],
    &["-c", "f", "g", "--once"],
    &["x", "-c", "f"],
    &["beat_main", "-c", "f"],
    &["-c", "f", ""],
    &["-c", "f", "-"],
    &["-c", "f", "--", "x"],
    &["-c", "f", "--", "--once"],
    &["-c", "f", "-h"],
    &["-c", "f", "--help"],
    &["-h"],
    &["--help"],
    &["help"],
    &["-c", "f", "-V"],
    &["-c", "f", "--version"],
    &["-c", "f", "--verbose"],
    &["-c", "f", "-o"],
    &["-c", "f", "-d", "e"],
    &["-C", "f"],
    &["--conf", "f"],
    &["--CONFIG", "f"],
    &["-config", "f", "--once", "x"],
    &["-c", "f", "--once", "--once"],
    &["-c", "f", "--once=true"],
    &["-c", "f", "--once="],
    &["-c", "f", "-c", "f"],
    &["-c", "f", "--config", "g"],
    &["-c", "f", "--data", "d", "--data=e"],
    &["-c", "f", "--data"],
    &["-c", "f", "--generate"],
    &["-c", "f", "--generate", "5", "--generate", "5"],
    &["-c", "f", "--generate", "0"],
    &["-c", "f", "--generate", "1000001"],
    &["-c", "f", "--generate", "+5"],
    &["-c", "f", "--generate", "007"],
    &["-c", "f", "--generate", "-5"],
    &["-c", "f", "--generate=-5"],
    &["-c", "f", "--generate="],
    &["-c", "f", "--generate", " 5"],
    &["-c", "f", "--generate", "1e3"],
    &["-c", "f", "--generate", "18446744073709551617"],
];

/// The words, and the settings file, the folder, `--once` and the count that they ask for.
type Taken = (
    &'static [&'static str],
    &'static str,
    &'static str,
    bool,
    Option<u32>,
);

const TAKEN: [Taken; 24] = [
    (&["-c", "f"], "f", "data", false, None),
    (&["-c", "f", "--once"], "f", "data", true, None),
    (&["--once", "-c", "f"], "f", "data", true, None),
    (&["--config", "f"], "f", "data", false, None),
    (&["--config=f"], "f", "data", false, None),
    (&["-cf"], "f", "data", false, None),
    (&["-c=f"], "f", "data", false, None),
    (&["-c==f"], "=f", "data", false, None),
    (&["-config"], "onfig", "data", false, None),
    (&["-c", ""], "", "data", false, None),
    (&["--config="], "", "data", false, None),
    (&["-c", "-"], "-", "data", false, None),
    (&["--config=--once"], "--once", "data", false, None),
    (&["--config=a=b c"], "a=b c", "data", false, None),
    (
        &["-c", "\u{e9}/\u{20ac}"],
        "\u{e9}/\u{20ac}",
        "data",
        false,
        None,
    ),
    (&["-c", "f", "--"], "f", "data", false, None),
    (&["-c", "f", "--data", "d"], "f", "d", false, None),
    (&["--data=/v/d/", "-c", "f"], "f", "/v/d/", false, None),
    (&["-c", "f", "--data="], "f", "", false, None),
    (&["-c", "f", "--data", "data"], "f", "data", false, None),
    (&["-c", "f", "--generate", "1"], "f", "data", false, Some(1)),
    (
        &["--generate=1000000", "-c", "f"],
        "f",
        "data",
        false,
        Some(1_000_000),
    ),
    (
        &["-c", "5", "--generate", "7", "--once"],
        "5",
        "data",
        true,
        Some(7),
    ),
    (
        &["--generate", "42", "--once", "--data", "d", "--config", "f"],
        "f",
        "d",
        true,
        Some(42),
    ),
];

/// The words ask for this.
fn ask_for(words: &Words, taken: &Taken) -> bool {
    let Words {
        settings,
        data,
        once,
        generate,
    } = words;
    settings.as_str() == taken.1
        && data.as_str() == taken.2
        && *once == taken.3
        && *generate == taken.4
}

/// The words are taken and ask for this, or are refused.
fn check_words(
    rt: &impl Abort,
    alloc: Global,
    words: &[&str],
    taken: Option<&Taken>,
) -> Result<(), Fail> {
    let texts = texts(alloc, words)?;
    let as_wanted = match (&read_words(alloc, texts.as_slice())?, taken) {
        (Some(found), Some(taken)) => ask_for(found, taken),
        (None, None) => true,
        _ => false,
    };
    assert!(rt; as_wanted, "of {words:?}");
    Ok(())
}

#[test]
fn usage_refusals(rt: HostRuntime) -> Result<(), Fail> {
    for words in &REFUSED {
        check_words(&rt, rt.alloc(), words, None)?;
    }
    Ok(())
}

#[test]
fn taken_words_ask_for_what_they_say(rt: HostRuntime) -> Result<(), Fail> {
    for taken in &TAKEN {
        check_words(&rt, rt.alloc(), taken.0, Some(taken))?;
    }
    Ok(())
}

/// The settings file, the registry's two areas, the bell and the count.
type Placed = (
    &'static str,
    &'static str,
    &'static str,
    &'static str,
    Option<u32>,
);

/// The places are these.
fn are_placed(found: &Places, placed: &Placed) -> bool {
    let Places {
        settings,
        area_a,
        area_b,
        stop,
        generate,
    } = found;
    settings.as_str() == placed.0
        && area_a.as_str() == placed.1
        && area_b.as_str() == placed.2
        && stop.as_str() == placed.3
        && *generate == placed.4
}

/// The words name these places.
fn check_places(
    rt: &impl Abort,
    alloc: Global,
    words: &[&str],
    placed: &Placed,
) -> Result<(), Fail> {
    let words = texts(alloc, words)?;
    let found = places(alloc, words.as_slice())?;
    assert!(rt; are_placed(&found, placed));
    Ok(())
}

#[test]
fn places_stand_in_the_named_folder(rt: HostRuntime) -> Result<(), Fail> {
    let words = ["-c", "/etc/f", "--data", "/v/d", "--generate", "9"];
    let placed = (
        "/etc/f",
        "/v/d/registry.a",
        "/v/d/registry.b",
        "/v/d/stop",
        Some(9),
    );
    check_places(&rt, rt.alloc(), &words, &placed)
}

#[test]
fn refused_words_have_the_default_places(rt: HostRuntime) -> Result<(), Fail> {
    let words = ["-c", "f", "--data", "d", "--generate", "0"];
    let placed = (
        "beat.toml",
        "data/registry.a",
        "data/registry.b",
        "data/stop",
        None,
    );
    check_places(&rt, rt.alloc(), &words, &placed)
}
