ghost use Rattle.std.specs.Prelude.{◌≡◌, ◌+◌, ◌<◌, ◌≤◌, ◌↔◌, IfErr, IfOk, IfSome, IsErrOf, IsNone, IsSome, OnErr, OnOk, true};
ghost use Rattle.outside.specs.Counts.{Rose};
ghost use Rattle.file_identity.specs.Answers.{IsAnswer, IsAsked, IsAskable, IsCompared, IsFingerprint, IsOfBytes, IsRefusedListed, IsRefusedOpened};
ghost use Rattle.file_identity.specs.Key.{listed_key};
ghost use Rattle.event_tree.specs.declared.input_rule.IdentityRule.TheVariants.{Fingerprint};
ghost use Rattle.wire_base.specs.Ranges.{IsPlace};

use crate::fingerprint::{Printed, read_fingerprint};
use crate::key_text::{is_key_of_digest, key_of_digest, native_key, path_key};
use crate::{Identity, IdentityError};
use event_tree::IdentityRule;
use outside::{Entry, Failed, Tail};
use std::alloc::Global;
use wire_base::Text;

/// The key of an entry of a listing, for the input of this id; `None` exactly for a fingerprint, which is asked of the
/// open file.
pub fn listed_key(
    alloc: Global,
    input: &Text,
    rule: &IdentityRule,
    entry: &Entry,
) -> Result<Option<Text>, IdentityError>
    ensures key { IfOk result (λ key. key ≡ listed_key input.now rule.now entry.now) }
    ensures none_exactly_for_a_fingerprint { IfOk result (λ key. IsNone key ↔ IsFingerprint rule.now) }
    ensures refused { IfErr result (IsRefusedListed rule.now entry.now.native) }
{
    match rule {
        IdentityRule::Fingerprint { .. } => Ok(None),
        IdentityRule::Native => match entry.native {
            Some(numbers) => Ok(Some(native_key(alloc, input, numbers)?)),
            None => Err(IdentityError::NoNative),
        },
        IdentityRule::Path => Ok(Some(path_key(alloc, input, &entry.path)?)),
    }
}

/// The key of an open file, for the input of this id. `path` is the one by which it was opened.
///
/// The bytes of a fingerprint are read in pieces, which are looks like any other.
pub fn opened_key<T: Tail>(
    alloc: Global,
    input: &Text,
    rule: &IdentityRule,
    path: &Text,
    tail: &mut T,
) -> Result<Identity, IdentityError>
    requires { IsAskable rule.now }

    // What the asking gave, by its own looks if they are known.
    ensures answer { IfOk result (IsAnswer input.now rule.now path.now (T.numbers tail.old)) }
    ensures asked { IfSome (T.told tail.old) (λ told. IsAsked input.now rule.now path.now (T.numbers tail.old) told result (T.told tail.new)) }
    ensures refused { IfErr result (IsRefusedOpened rule.now (T.numbers tail.old)) }

    ensures untold { IsNone (T.told tail.old) → IsNone (T.told tail.new) }
    ensures numbers_kept { T.numbers tail.new ≡ T.numbers tail.old }
    ensures faults_never_fall { T.faults tail.old ≤ T.faults tail.new }
    ensures read_fault_only_where_faults_rose { IsErrOf result IdentityError.ReadFault → Rose (T.faults tail.old) (T.faults tail.new) }
    ensures faults_told_only_by_failures { IsSome (T.told tail.old) → OnOk result (T.faults tail.new ≡ T.faults tail.old) }
{
    match rule {
        IdentityRule::Fingerprint { offset, length } => {
            match read_fingerprint(tail, *offset, *length)? {
                Printed::Whole(digest) => Ok(Identity::Key(key_of_digest(alloc, input, digest)?)),
                Printed::Short(place) => Ok(Identity::TooSmall(place)),
            }
        }
        IdentityRule::Native => match tail.native() {
            Some(numbers) => Ok(Identity::Key(native_key(alloc, input, numbers)?)),
            None => Err(IdentityError::NoNative),
        },
        IdentityRule::Path => Ok(Identity::Key(path_key(alloc, input, path)?)),
    }
}

/// Whether an open file has this key by its fingerprint, for the input of this id.
///
/// It takes no memory: an asking whose reads all succeed gives its answer.
pub fn has_fingerprint<T: Tail>(
    input: &Text,
    offset: u64,
    length: u64,
    key: &Text,
    tail: &mut T,
) -> Result<bool, Failed>
    requires some { 0 < length }
    requires in_range { IsPlace (offset + length) }

    // Whether the asking gave this key, by its own looks if they are known.
    ensures has { result ≡ Ok true → IsOfBytes input.now length key.now }
    ensures asked { IfSome (T.told tail.old) (λ told. IsCompared input.now
        (Fingerprint offset length) key.now (T.numbers tail.old) told result (T.told tail.new)) }

    ensures untold { IsNone (T.told tail.old) → IsNone (T.told tail.new) }
    ensures numbers_kept { T.numbers tail.new ≡ T.numbers tail.old }
    ensures faults_never_fall { T.faults tail.old ≤ T.faults tail.new }
    ensures failed_only_where_faults_rose { OnErr result
        (Rose (T.faults tail.old) (T.faults tail.new)) }
    ensures faults_told_only_by_failures { IsSome (T.told tail.old) →
        OnOk result (T.faults tail.new ≡ T.faults tail.old) }
{
    match read_fingerprint(tail, offset, length)? {
        Printed::Whole(digest) => Ok(is_key_of_digest(input, digest, key)),
        Printed::Short(_) => Ok(false),
    }
}
