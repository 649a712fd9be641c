ghost use Rattle.std.specs.Prelude.{ℕ};
ghost use Rattle.wire_base.specs.declared.numbers.Moment.{Moment};
ghost use Rattle.batch_worker.specs.declared.answer.WorkerTurn.{WorkerTurn};
ghost use Rattle.batch_worker.specs.Answers.{IsTurn};
ghost use Rattle.batch_worker.specs.Keeping.{WorkerKeeps};
ghost use Rattle.batch_worker.specs.Seen.{Seen};
ghost use Rattle.batch_worker.specs.Working.{Working};

use outside::Link;

/// What calls of a worker keep holds of two calls, one after the other, if it holds of each; of
/// a worker that does nothing; and of each turn, whatever it answers. A law; it computes nothing.
pub fn keeping_goes_on<L: Link>()
    ensures nothing { (seen : Seen) (worker : Working L) →
        WorkerKeeps L.told seen seen worker worker }
    ensures behind { (before between after : Seen) (old mid new : Working L) →
        WorkerKeeps L.told before between old mid → WorkerKeeps L.told between after mid new →
        WorkerKeeps L.told before after old new }
    ensures turn { (capacity : ℕ) (before after : Seen) (now : Moment) (old new : Working L)
        (turn : WorkerTurn) →
        IsTurn L.told L.faults L.idles capacity before after now old new turn →
        WorkerKeeps L.told before after old new }
{}
