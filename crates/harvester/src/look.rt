ghost use Rattle.std.specs.Prelude.{◌≡◌, ◌≤◌, Contains, IfOk, IsErrOf, IsSome, OnOk};
ghost use Rattle.outside.specs.Counts.{Rose};
ghost use Rattle.wire_base.specs.Ranges.{IsMoment};
ghost use Rattle.harvester.specs.Found.{HasLooked, stage_found};
ghost use Rattle.harvester.specs.HasTold.{HasTold};
ghost use Rattle.harvester.specs.History.{History};
ghost use Rattle.harvester.specs.Standing.{AllGathered};
ghost use Rattle.harvester.specs.TurnLooks.{AreOfLook, LooksOn};

use crate::buffer::READ_SIZE;
use crate::harvester::Harvester;
use crate::stage::Stage;
use crate::turn_error::TurnError;
use outside::Tail;
use wire_base::Moment;

/// What a look at the file gave.
#[derive(Clone, Copy, Debug, PartialEq, Eq)]
pub(crate) enum Found {
    /// The length is below what was read.
    Less,
    /// Bytes were read.
    More,
    /// The length is not below what was read, and nothing was read.
    End,
}

impl<T: Tail> Harvester<T> {
    /// Asks the length, and reads if it is not below what was read.
    pub(crate) fn look(&mut self, now: Moment) -> Result<Found, TurnError>
        requires all_fed { self.old.reader.filled ≡ 0 }
        requires reads { self.old.reader.stage ≡ Stage.Reading }
        requires moment { IsMoment now }
        ensures looked { (history : History) → Contains history.moments now.0 →
            AllGathered history self.old.reader →
            HasTold T.numbers T.told history self.old →
            HasLooked T.numbers T.told READ_SIZE now.0 history self.old result self.new }
        ensures looks { LooksOn (AreOfLook result self.old.reader.position)
            (T.numbers self.old.tail) (T.told self.old.tail) (T.told self.new.tail) }
        ensures numbers_kept { T.numbers self.new.tail ≡ T.numbers self.old.tail }
        ensures rests_kept { self.new.rests ≡ self.old.rests }
        ensures begin_kept { self.new.reader.begin ≡ self.old.reader.begin }
        ensures input_kept { self.new.reader.input ≡ self.old.reader.input }
        ensures identity_kept { self.new.reader.identity ≡ self.old.reader.identity }
        ensures epoch_kept { self.new.reader.epoch ≡ self.old.reader.epoch }
        ensures stage_by_result { IfOk result (λ found.
            self.new.reader.stage ≡ stage_found found) }
        ensures rules_kept { self.new.rules ≡ self.old.rules }
        ensures faults_never_fall { T.faults self.old.tail ≤ T.faults self.new.tail }
        ensures read_fault_only_where_faults_rose { IsErrOf result TurnError.ReadFault →
            Rose (T.faults self.old.tail) (T.faults self.new.tail) }
        ensures faults_told_only_by_failures { IsSome (T.told self.old.tail) →
            OnOk result (T.faults self.new.tail ≡ T.faults self.old.tail) }
    {
        let length = self.tail.length()?;
        if length < self.reader.position() {
            self.reader.stand(Stage::Asking);
            return Ok(Found::Less);
        }
        self.reader.make_room(length)?;
        let count = self.reader.read(&mut self.tail, now)?;
        if count == 0 {
            return Ok(Found::End);
        }
        Ok(Found::More)
    }
}
