ghost use Rattle.std.specs.Prelude.{◌≡◌, ◌≢◌, ◌≤◌, IfOk, IfSome, IsErrOf, IsNone, false, true};
ghost use Rattle.outside.specs.Counts.{Rose};
ghost use Rattle.harvester.specs.Asked.{HasAsked, WasAsked};
ghost use Rattle.harvester.specs.HasTold.{HasTold};
ghost use Rattle.harvester.specs.History.{History};
ghost use Rattle.harvester.specs.TurnLooks.{AskForKey, LooksOn};
ghost use Rattle.harvester.specs.Turned.{IsByKey};
ghost use Rattle.harvester.specs.Turns.{answer_of};

use crate::harvester::Harvester;
use crate::reader::Reader;
use crate::stage::Stage;
use crate::turn::Turn;
use crate::turn_error::TurnError;
use event_tree::IdentityRule;
use file_identity::{Identity, IdentityError, has_fingerprint, opened_key};
use outside::Tail;
use std::alloc::Global;
use wire_base::{Epoch, Text};

impl<T: Tail> Harvester<T> {
    /// Asks the file for its key, when its length was below what was read: a new life begins if it is the one with
    /// which the file was opened.
    pub(crate) fn ask_again(&mut self, alloc: Global) -> Result<Turn, TurnError>
        requires asks { self.old.reader.stage ≡ Stage.Asking }
        ensures asked { (history : History) → HasTold T.numbers T.told history self.old →
            HasAsked T.numbers T.told history result self.new }
        ensures looks { LooksOn (AskForKey self.old.reader (answer_of result))
            (T.numbers self.old.tail) (T.told self.old.tail) (T.told self.new.tail) }
        ensures numbers_kept { T.numbers self.new.tail ≡ T.numbers self.old.tail }
        ensures tells_nothing { IfOk result IsByKey }
        ensures rests_kept { self.new.rests ≡ self.old.rests }
        ensures begin_kept { self.new.reader.begin ≡ self.old.reader.begin }
        ensures faults_never_fall { T.faults self.old.tail ≤ T.faults self.new.tail }
        ensures read_fault_only_where_faults_rose { IsErrOf result TurnError.ReadFault →
            Rose (T.faults self.old.tail) (T.faults self.new.tail) }
    {
        if !ask(alloc, &self.reader, &mut self.tail)? {
            self.reader.stand(Stage::Changed);
            return Ok(Turn::Changed);
        }
        let epoch = self.reader.epoch().0;
        if epoch == u32::MAX {
            self.reader.stand(Stage::Over);
            return Ok(Turn::EpochsOut);
        }
        self.reader.begin_life(alloc, Epoch(epoch + 1));
        Ok(Turn::NewLife(Epoch(epoch + 1)))
    }
}

/// Whether the file has the key with which it was opened. For a fingerprint it takes no memory, so
/// that an asking whose reads all succeed is never made again.
fn ask<T: Tail>(alloc: Global, reader: &Reader, tail: &mut T) -> Result<bool, TurnError>
    ensures asked { IfSome (T.told tail.old) (λ told.
        WasAsked reader.now (T.numbers tail.old) told result (T.told tail.new)) }
    ensures untold { IsNone (T.told tail.old) → IsNone (T.told tail.new) }
    ensures numbers_kept { T.numbers tail.new ≡ T.numbers tail.old }
    ensures faults_never_fall { T.faults tail.old ≤ T.faults tail.new }
    ensures read_fault_only_where_faults_rose { IsErrOf result TurnError.ReadFault →
        Rose (T.faults tail.old) (T.faults tail.new) }
{
    if let IdentityRule::Fingerprint { offset, length } = &reader.identity {
        let key = &reader.begin.key;
        return Ok(has_fingerprint(&reader.input, *offset, *length, key, tail)?);
    }
    match opened_key(
        alloc,
        &reader.input,
        &reader.identity,
        &reader.begin.path,
        tail,
    ) {
        Ok(Identity::Key(key)) => Ok(is_same(&key, &reader.begin.key)),
        Ok(Identity::TooSmall(_)) | Err(IdentityError::NoNative) => Ok(false),
        Err(IdentityError::ReadFault) => Err(TurnError::ReadFault),
        Err(IdentityError::NoMemory) => Err(TurnError::NoMemory),
    }
}

fn is_same(key: &Text, other: &Text) -> bool
    ensures same { result ≡ true → key.now ≡ other.now }
    ensures other { result ≡ false → key.now ≢ other.now }
{
    *key == *other
}
