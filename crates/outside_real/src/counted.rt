ghost use Rattle.std.specs.Prelude.{◌≡◌, IfOk, OnOk, OnErr, Ok};
ghost use Rattle.outside.specs.Counts.{next_count};

use outside::Failed;
use std::io;

/// The answer of a call of std, its failure counted.
pub(crate) fn counted<T>(faults: &mut u64, answer: io::Result<T>) -> Result<T, Failed>
    ensures same { IfOk result (λ value. answer ≡ Ok value) }
    ensures kept { OnOk result (faults.new ≡ faults.old) }
    ensures rose { OnErr result (faults.new ≡ next_count faults.old) }
{
    match answer {
        Ok(value) => Ok(value),
        Err(_) => {
            *faults = faults.saturating_add(1);
            Err(Failed)
        }
    }
}
