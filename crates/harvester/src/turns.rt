ghost use Rattle.std.specs.Prelude.{◌≡◌, ◌↔◌, ◌<◌, ◌≤◌, ◌||◌, true, IfOk, IfSome, IsErrOf, IsTrue, None, Ok};
ghost use Rattle.outside.specs.Counts.{Rose};
ghost use Rattle.wire_base.specs.Ranges.{IsMoment};
ghost use Rattle.told_events.specs.Rules.{Rules};
ghost use Rattle.harvester.specs.Deciding.{Decides};
ghost use Rattle.harvester.specs.HasTold.{HasTold, IsChanged, begin_of};
ghost use Rattle.harvester.specs.History.{History};
ghost use Rattle.harvester.specs.Standing.{EndsAt, stage_behind_end};
ghost use Rattle.harvester.specs.TurnLooks.{AreOfReading, LooksInTurn, LooksOn};
ghost use Rattle.harvester.specs.Turned.{IsAnswerFor, IsOfFile, with_turn};
ghost use Rattle.harvester.specs.Turns.{Goes, IsLast, MayBeEnded, Settled, answer_of};

use crate::buffer::READ_SIZE;
use crate::harvester::Harvester;
use crate::look::Found;
use crate::stage::Stage;
use crate::turn::Turn;
use crate::turn_error::TurnError;
use line_cutter::later_lines;
use outside::Tail;
use std::alloc::Global;
use wire_base::{Moment, NoMemory};

impl<T: Tail> Harvester<T> {
    /// Reports the next event, or looks for more if no event is closed by what was read: asks the length, and reads at
    /// most 16,384 bytes. If the length is below what was read, it asks the file for its key, and again in later turns
    /// while that hits a fault. With `last` the file's end may be found: there the event that waits is closed as it is,
    /// and the file is read no further.
    pub fn turn(&mut self, alloc: Global, now: Moment, last: bool) -> Turn
        requires goes_on { ¬ (IsChanged self.old) }
        requires moment { IsMoment now }
        ensures goes { (history : History) → HasTold T.numbers T.told history self.old →
            Goes T.numbers T.told 16384 now.0 (last || history.ends)
            (with_turn now.0 last history) self.old result self.new }
        ensures of_file { (history : History) → HasTold T.numbers T.told history self.old →
            IsOfFile (begin_of self.old).slot self.old.reader.epoch result }
        ensures changed { (history : History) → HasTold T.numbers T.told history self.old →
            (IsChanged self.new ↔ IsLast result) }
        ensures looks { LooksInTurn T.numbers T.told self.old result self.new }
        ensures numbers_kept { T.numbers self.new.tail ≡ T.numbers self.old.tail }
        ensures rests { IsTrue self.new.rests ↔ (result ≡ Turn.AtEnd) }
        ensures begin_kept { begin_of self.new ≡ begin_of self.old }
        ensures faults_never_fall { T.faults self.old.tail ≤ T.faults self.new.tail }
        ensures read_fault_only_where_faults_rose { (history : History) →
            HasTold T.numbers T.told history self.old → result ≡ Turn.ReadFault →
            Rose (T.faults self.old.tail) (T.faults self.new.tail) }
    {
        let turn = answer(self.step(alloc, now, last));
        self.rests = is_end(&turn);
        turn
    }

    /// One turn, by the state of the file.
    fn step(&mut self, alloc: Global, now: Moment, last: bool) -> Result<Turn, TurnError>
        requires goes_on { ¬ (IsChanged self.old) }
        requires moment { IsMoment now }
        ensures goes { (history : History) → EndsAt history.moments now.0 →
            ((last || history.ends) ≡ true → history.may_end ≡ true) →
            HasTold T.numbers T.told history self.old →
            Goes T.numbers T.told READ_SIZE now.0 (last || history.ends) history self.old
            (answer_of result) self.new }
        ensures of_file { (rules : Rules) → Decides rules self.old.rules →
            IfOk result (IsAnswerFor self.old.reader.begin.slot self.old.reader.epoch) }
        ensures looks { LooksInTurn T.numbers T.told self.old (answer_of result) self.new }
        ensures numbers_kept { T.numbers self.new.tail ≡ T.numbers self.old.tail }
        ensures begin_kept { self.new.reader.begin ≡ self.old.reader.begin }
        ensures faults_never_fall { T.faults self.old.tail ≤ T.faults self.new.tail }
        ensures read_fault_only_where_faults_rose { IsErrOf result TurnError.ReadFault →
            Rose (T.faults self.old.tail) (T.faults self.new.tail) }
    {
        match self.reader.stage() {
            Stage::Reading => {
                let ended = self.reader.may_end(last);
                self.go_on(alloc, now, ended)
            }
            Stage::Asking => self.ask_again(alloc),
            Stage::Ended => {
                if self.reader.has_closed() {
                    return Ok(self.tell(alloc, now)?);
                }
                later_lines();
                Ok(Turn::AtEnd)
            }
            Stage::Changed | Stage::Over => unreachable!(),
        }
    }

    /// Reports the event that is closed by what was read, or looks for more.
    fn go_on(&mut self, alloc: Global, now: Moment, ended: bool) -> Result<Turn, TurnError>
        requires reads { self.old.reader.stage ≡ Stage.Reading }
        requires moment { IsMoment now }
        ensures goes { (history : History) → EndsAt history.moments now.0 →
            (ended ≡ true → history.may_end ≡ true) →
            HasTold T.numbers T.told history self.old →
            Goes T.numbers T.told READ_SIZE now.0 ended history self.old (answer_of result)
            self.new }
        ensures of_file { (rules : Rules) → Decides rules self.old.rules →
            IfOk result (IsAnswerFor self.old.reader.begin.slot self.old.reader.epoch) }
        ensures looks { LooksOn (AreOfReading self.old.reader (answer_of result))
            (T.numbers self.old.tail) (T.told self.old.tail) (T.told self.new.tail) }
        ensures numbers_kept { T.numbers self.new.tail ≡ T.numbers self.old.tail }
        ensures begin_kept { self.new.reader.begin ≡ self.old.reader.begin }
        ensures faults_never_fall { T.faults self.old.tail ≤ T.faults self.new.tail }
        ensures read_fault_only_where_faults_rose { IsErrOf result TurnError.ReadFault →
            Rose (T.faults self.old.tail) (T.faults self.new.tail) }
    {
        if self.reader.gather(alloc)? {
            return Ok(self.tell(alloc, now)?);
        }
        later_lines();
        match self.look(now)? {
            Found::Less => self.ask_again(alloc),
            Found::More => match self.settle(alloc, now, false)? {
                Some(turn) => Ok(turn),
                None => Ok(Turn::More),
            },
            Found::End => match self.settle(alloc, now, ended)? {
                Some(turn) => Ok(turn),
                None => {
                    self.reader.shrink();
                    Ok(Turn::AtEnd)
                }
            },
        }
    }

    /// Reports the event that is closed by what was read, by its timeout, or if the file's end was found.
    fn settle(&mut self, alloc: Global, now: Moment, ended: bool) -> Result<Option<Turn>, NoMemory>
        requires reads { self.old.reader.stage ≡ Stage.Reading }
        requires moment { IsMoment now }
        ensures settled { (history : History) → EndsAt history.moments now.0 →
            (ended ≡ true → MayBeEnded T.numbers T.told history self.old) →
            HasTold T.numbers T.told history self.old →
            Settled T.numbers T.told now.0 ended history result self.new }
        ensures all_fed { result ≡ Ok None → self.new.reader.filled ≡ 0 }
        ensures of_file { (rules : Rules) → Decides rules self.old.rules →
            IfOk result (λ told. IfSome told
            (IsAnswerFor self.old.reader.begin.slot self.old.reader.epoch)) }
        ensures begin_kept { self.new.reader.begin ≡ self.old.reader.begin }
        ensures tail_kept { self.new.tail ≡ self.old.tail }
    {
        if self.reader.gather(alloc)? {
            return Ok(Some(self.tell(alloc, now)?));
        }
        later_lines();
        let closed = self.reader.close(ended, now);
        self.reader.stand(stage_behind(ended));
        if closed {
            return Ok(Some(self.tell(alloc, now)?));
        }
        Ok(None)
    }
}

fn stage_behind(ended: bool) -> Stage
    ensures { result ≡ stage_behind_end ended }
{
    if ended { Stage::Ended } else { Stage::Reading }
}

fn answer(step: Result<Turn, TurnError>) -> Turn
    ensures { result ≡ answer_of step }
{
    match step {
        Ok(turn) => turn,
        Err(TurnError::ReadFault) => Turn::ReadFault,
        Err(TurnError::NoMemory) => Turn::NoMemory,
    }
}

fn is_end(turn: &Turn) -> bool
    ensures { IsTrue result ↔ (turn.now ≡ Turn.AtEnd) }
{
    match turn {
        Turn::AtEnd => true,
        Turn::Issued(_)
        | Turn::Passed(_, _)
        | Turn::More
        | Turn::NewLife(_)
        | Turn::Changed
        | Turn::EpochsOut
        | Turn::ReadFault
        | Turn::NoMemory => false,
    }
}
