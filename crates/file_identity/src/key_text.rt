ghost use Rattle.std.specs.Prelude.{◌≡◌, ◌↔◌, ◌++◌, IfOk, IsTrue, codes, decimal, string_bytes};
ghost use Rattle.hex.specs.Hex.{encode_lower};
ghost use Rattle.file_identity.specs.Key.{key_by, key_of_digest, native_key, path_key};

use std::alloc::{AllocError, Global};
use wire_base::{NoMemory, Text};

pub fn path_key(alloc: Global, id: &Text, path: &Text) -> Result<Text, NoMemory>
    ensures { IfOk result (λ key. key ≡ path_key id.now path.now) }
{
    key_by(alloc, id, "path", path.as_str())
}

/// Of inode and device.
pub fn native_key(alloc: Global, id: &Text, numbers: (u64, u64)) -> Result<Text, NoMemory>
    ensures { IfOk result (λ key. key ≡ native_key id.now numbers) }
{
    let value = numbers_text(alloc, numbers)?;
    key_by(alloc, id, "native", value.as_str())
}

fn key_by(alloc: Global, id: &Text, kind: &str, value: &str) -> Result<Text, NoMemory>
    ensures { IfOk result (λ key. key ≡ key_by id.now kind.now value.now) }
{
    let id = id.as_str();
    Ok(Text::from_string(format!(in alloc; "filestream::{id}::{kind}::{value}")?))
}

/// Inode and device.
fn numbers_text(alloc: Global, numbers: (u64, u64)) -> Result<String, AllocError>
    ensures { IfOk result (λ text. string_bytes text ≡ decimal numbers.0 ++ codes "-" ++ decimal numbers.1) }
{
    let (inode, device) = numbers;
    format!(in alloc; "{inode}-{device}")
}

/// Of the digest of a fingerprint.
pub fn key_of_digest(alloc: Global, id: &Text, digest: [u8; 32]) -> Result<Text, NoMemory>
    ensures { IfOk result (λ key. key ≡ key_of_digest id.now digest) }
{
    let digits = hex::encode(alloc, digest)?;
    key_by(alloc, id, "fingerprint", digits.as_str())
}

/// Whether the key is of this digest. It takes no memory.
pub fn is_key_of_digest(id: &Text, digest: [u8; 32], key: &Text) -> bool
    ensures { IsTrue result ↔ (key.now ≡ key_of_digest id.now digest) }
{
    let Some(behind) = key.bytes().strip_prefix(b"filestream::") else {
        return false;
    };
    let Some(rest) = behind.strip_prefix(id.bytes()) else {
        return false;
    };
    let Some(digits) = rest.strip_prefix(b"::fingerprint::") else {
        return false;
    };
    digits == digits_of(digest).as_slice()
}

/// The hex digits of a digest.
fn digits_of(digest: [u8; 32]) -> [u8; 64]
    ensures { result ≡ encode_lower digest }
{
    let mut digits = [0u8; 64];
    let _ = hex::encode_to_slice(digest, &mut digits);
    digits
}
