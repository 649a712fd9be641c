ghost use Rattle.std.specs.Prelude.{◌≡◌, IfOk, OnOk, ◌++◌};
ghost use Rattle.watched_files.specs.Seen.{seen_in, seen_one};

use prospect::Listed;
use prospector_core::Seen;
use std::alloc::Global;
use wire_base::NoMemory;

/// The listed files whose keys are known, in their order.
pub fn seen_in(alloc: Global, listed: &[Listed]) -> Result<Vec<Seen>, NoMemory>
    ensures { IfOk result (λ seen. seen.items ≡ seen_in listed.now) }
{
    let mut seen = Vec::new(alloc);
    for one in listed {
        see(alloc, one, &mut seen)?;
    }
    Ok(seen)
}

fn see(alloc: Global, one: &Listed, seen: &mut Vec<Seen>) -> Result<(), NoMemory>
    ensures { OnOk result (seen.new.items ≡ seen.old.items ++ seen_one one.now) }
{
    if let Some(key) = &one.key {
        seen.push(Seen {
            input: one.input,
            key: key.copy(alloc)?,
            path: one.path.copy(alloc)?,
            size: one.size,
        })?;
    }
    Ok(())
}
