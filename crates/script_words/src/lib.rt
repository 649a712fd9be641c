//! The words of the scripts that the programs of tests read; no part of the product.
#![tactic(auto)]

use std::alloc::{AllocError, AllocFailed, Global};
use wire_base::read_decimal;

/// Why a word is refused.
#[derive(Clone, Copy, Debug, PartialEq, Eq, thiserror::Error)]
pub enum WordError {
    #[error("no number")]
    NoNumber,
    #[error("out of memory")]
    NoMemory,
}

impl From<AllocError> for WordError {
    fn from(_: AllocError) -> Self {
        WordError::NoMemory
    }
}

impl<T: Drop> From<AllocFailed<T>> for WordError {
    fn from(_: AllocFailed<T>) -> Self {
        WordError::NoMemory
    }
}

pub fn number(word: &str) -> Result<u64, WordError> {
    read_decimal(word.as_bytes()).ok_or(WordError::NoNumber)
}

/// A number below 2^32.
pub fn small(word: &str) -> Result<u32, WordError> {
    u32::try_from(number(word)?).map_err(|_| WordError::NoNumber)
}

/// The bytes of a word. Its parts are between `+`, and `x*9` is nine times `x`; in a part `~` and two hexadecimal digits
/// are one byte, and each other byte is itself.
pub fn bytes(alloc: Global, word: &str) -> Result<Vec<u8>, WordError> {
    let mut bytes = Vec::new(alloc);
    for part in word.split('+') {
        match part.split_once('*') {
            Some((once, times)) => push_times(&mut bytes, once, number(times)?)?,
            None => push_bytes(&mut bytes, part)?,
        }
    }
    Ok(bytes)
}

fn push_times(bytes: &mut Vec<u8>, part: &str, times: u64) -> Result<(), WordError> {
    for _ in 0..times {
        push_bytes(bytes, part)?;
    }
    Ok(())
}

/// Appends the bytes of one part of a word, which may have `+` and `*`.
pub fn push_bytes(bytes: &mut Vec<u8>, part: &str) -> Result<(), WordError> {
    let mut digits = 0u8;
    let mut value = 0u8;
    for byte in part.bytes() {
        if digits > 0 {
            digits -= 1;
            value = value.wrapping_mul(16).wrapping_add(digit(byte));
            if digits == 0 {
                bytes.push(value)?;
            }
        } else if byte == b'~' {
            digits = 2;
        } else {
            bytes.push(byte)?;
        }
    }
    Ok(())
}

fn digit(byte: u8) -> u8 {
    match byte {
        b'0'..=b'9' => byte - b'0',
        b'a'..=b'f' => byte - b'a' + 10,
        _ => 0,
    }
}

/// Bytes as a part of a word.
pub fn spelled(alloc: Global, bytes: &[u8]) -> Result<String, WordError> {
    let mut part = String::new(alloc);
    for byte in bytes {
        if byte.is_ascii_graphic() && *byte != b'~' {
            part.push(char::from(*byte))?;
        } else {
            part.push_str(&format!(in alloc; "~{byte:02x}")?)?;
        }
    }
    Ok(part)
}
