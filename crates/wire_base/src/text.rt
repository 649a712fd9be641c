ghost use Rattle.std.specs.Prelude.{◌≡◌, IfOk, IfErr, string_bytes};
ghost use Rattle.std.specs.Str.{IsUtf8};
ghost use Rattle.wire_base.specs.Text.{IsRefusedFor};

use crate::NoMemory;
use std::alloc::{AllocError, Global};
use std::cmp::Ordering;
use std::marker::Model;
use std::str;
use thiserror::Error;

/// Why bytes became no text.
#[derive(Clone, Copy, Debug, PartialEq, Eq, Error)]
pub enum TextError {
    /// The bytes before `at` are UTF-8, and no longer front of them is.
    #[error("the bytes are not UTF-8 from byte {at} on")]
    NotUtf8 { at: usize },
    #[error("out of memory")]
    NoMemory,
}

impl From<AllocError> for TextError {
    ghost use Rattle.std.specs.Prelude.{◌≡◌};
    ghost use Rattle.wire_base.specs.declared.text.TextError.TheVariants.{NoMemory};

    ghost from_gives = { λ _ e. e ≡ NoMemory };

    fn from(_: AllocError) -> Self {
        TextError::NoMemory
    }
}

/// UTF-8 text, seen as the list of its bytes.
#[derive(Debug, Drop)]
pub struct Text {
    text: String,
}

impl Model for Text {
    ghost use Rattle.std.specs.Prelude.{List, ℕ, string_bytes};

    ghost Value = { List ℕ };

    ghost view = { λ t. string_bytes t.text };
}

impl Text {
    /// The text of these bytes, or the place of the first byte that begins no character (std's
    /// `Utf8Error::valid_up_to`).
    pub fn from_bytes(alloc: Global, bytes: &[u8]) -> Result<Text, TextError>
        ensures same { IfOk result (λ text. text ≡ bytes.now) }
        ensures only_of_utf8 { IfOk result (λ _. IsUtf8 bytes.now) }
        ensures refused_at_its_place { IfErr result (IsRefusedFor bytes.now) }
    {
        match str::from_utf8(bytes) {
            Ok(text) => Ok(Text {
                text: String::from_str(alloc, text)?,
            }),
            Err(fault) => Err(TextError::NotUtf8 {
                at: fault.valid_up_to(),
            }),
        }
    }

    /// Takes no memory.
    pub fn from_string(text: String) -> Text
        ensures { result ≡ string_bytes text }
    {
        Text { text }
    }

    pub fn bytes(&self) -> &[u8]
        ensures same { result.now ≡ self.now }
        ensures utf8 { IsUtf8 result.now }
    {
        self.text.as_str().as_bytes()
    }

    pub fn as_str(&self) -> &str
        ensures { result.now ≡ self.now }
    {
        self.text.as_str()
    }

    pub fn copy(&self, alloc: Global) -> Result<Text, NoMemory>
        ensures { IfOk result (λ text. text ≡ self.now) }
    {
        Ok(Text {
            text: String::from_str(alloc, &self.text)?,
        })
    }
}

impl PartialEq for Text {
    ghost use Rattle.std.proofs.Common.{rules};
    ghost use Rattle.std.specs.Cmp.Rules.{comparing};
    ghost use Rattle.std.specs.Str.{bytes_eq};

    ghost eq = { bytes_eq };

    ghost laws = { Prim.search (comparing, rules) };

    fn eq(&self, other: &Text) -> bool {
        self.text.as_bytes() == other.text.as_bytes()
    }
}

impl Eq for Text {
    ghost use Rattle.std.proofs.Common.{rules};
    ghost use Rattle.std.specs.Cmp.Rules.{comparing};

    ghost laws = { Prim.search (comparing, rules) };
}

/// Byte order, which is also the order of the characters.
impl Ord for Text {
    ghost use Rattle.std.proofs.Common.{rules};
    ghost use Rattle.std.specs.Cmp.Rules.{comparing};
    ghost use Rattle.std.specs.Cmp.Lexicographic.{slice_cmp};
    ghost use Rattle.std.specs.Ordering.{nat_cmp};

    ghost cmp = { slice_cmp nat_cmp };

    ghost total = { Prim.search (comparing, rules) };

    ghost matches_partial_cmp = { Prim.search (comparing, rules) };

    ghost matches_eq = { Prim.search (comparing, rules) };

    fn cmp(&self, other: &Text) -> Ordering {
        self.text.as_bytes().cmp(other.text.as_bytes())
    }
}

impl PartialOrd for Text {
    ghost use Rattle.std.proofs.Common.{rules};
    ghost use Rattle.std.specs.Cmp.{partial_order_from_own_ties};
    ghost use Rattle.std.specs.Cmp.Rules.{comparing};
    ghost use Rattle.std.specs.Cmp.Lexicographic.{slice_cmp};
    ghost use Rattle.std.specs.Ordering.{nat_cmp, as_partial_cmp};

    ghost partial_cmp = { as_partial_cmp (slice_cmp nat_cmp) };

    ghost laws = { partial_order_from_own_ties (Prim.search (comparing, rules)) (Prim.search (comparing, rules)) };

    fn partial_cmp(&self, other: &Text) -> Option<Ordering> {
        Some(self.cmp(other))
    }
}
