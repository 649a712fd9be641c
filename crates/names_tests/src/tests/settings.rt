//! Bytes that no document of `settings_table` has.
use beat_config::{MAX_SETTINGS, SettingsError, read_settings};
use glob_paths::GlobError;
use std::alloc::Global;
use std::test::Fail;
use wire_base::Text;

#[derive(Clone, Copy)]
enum Bytes {
    Plain(&'static [u8]),
    /// This byte, so often.
    Times(u8, usize),
    /// So many keys, one a line.
    Keys(u32),
}

/// The bytes, and how their fault is printed.
const FAULTS: [(Bytes, &str); 6] = [
    (Bytes::Plain(b"a ="), "not toml"),
    (Bytes::Plain(b"\xff"), "not toml"),
    (Bytes::Times(b'[', MAX_SETTINGS), "not toml"),
    (Bytes::Times(b'#', MAX_SETTINGS), "missing inputs"),
    (Bytes::Times(b'#', MAX_SETTINGS + 1), "too long"),
    (Bytes::Keys(10_000), "unknown k0"),
];

fn keys(alloc: Global, count: u32) -> Result<String, Fail> {
    let mut document = String::new(alloc);
    for number in 0..count {
        let line = format!(in alloc; "k{number} = 1\n")?;
        document.push_str(&line)?;
    }
    Ok(document)
}

/// The printed fault of a document; none if it has no fault.
fn fault_of(alloc: Global, document: &[u8]) -> Result<String, Fail> {
    match read_settings(alloc, document) {
        Ok(_) => Ok(String::new(alloc)),
        Err(fault) => Ok(format!(in alloc; "{fault}")?),
    }
}

fn fault_in(alloc: Global, bytes: Bytes) -> Result<String, Fail> {
    match bytes {
        Bytes::Plain(document) => fault_of(alloc, document),
        Bytes::Times(byte, count) => fault_of(alloc, &vec![in alloc; byte; count]?),
        Bytes::Keys(count) => fault_of(alloc, keys(alloc, count)?.as_bytes()),
    }
}

#[test]
fn first_fault_is_told(rt: HostRuntime) -> Result<(), Fail> {
    for (bytes, wanted) in &FAULTS {
        assert!(rt;
            fault_in(rt.alloc(), *bytes)?.as_str() == *wanted,
            "{wanted}"
        );
    }
    Ok(())
}

#[test]
fn a_key_of_a_megabyte_is_told(rt: HostRuntime) -> Result<(), Fail> {
    let mut document = "k".repeat(rt.alloc(), 1_000_000)?;
    document.push_str(" = 1")?;
    assert!(rt; fault_of(rt.alloc(), document.as_bytes())?.len() == 1_000_008);
    Ok(())
}

#[test]
fn settings_refusals(rt: HostRuntime) -> Result<(), Fail> {
    let document = b"[[inputs]]\nid = \"w\"\npaths = [\"/w/[a\"]\n[output]\nhosts = [\"h:5044\"]\n";
    let key = Text::from_bytes(rt.alloc(), b"inputs.0.paths.0")?;
    let fault = GlobError::Unclosed { at: 3 };
    let told = read_settings(rt.alloc(), document).err();
    assert!(rt; told == Some(SettingsError::BadGlob { key, fault }));
    Ok(())
}
