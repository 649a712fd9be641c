ghost use Rattle.std.specs.Prelude.{◌≡◌, ◌<◌, IfOk, false};
ghost use Rattle.ship_core.specs.Rows.{IsInOrder};
ghost use Rattle.run_steps.specs.BegunCrew.{AreFirstPasses};
ghost use Rattle.run_steps.specs.Outset.{IsFirstKeeper};

use keeper::Keeper;
use mem_queue::EventQueue;
use registry_store::Store;
use run_steps::{BOX_NOTES, Passes};
use settle_box::SettleBox;
use ship_core::Rows;
use std::alloc::Global;
use wire_base::NoMemory;

/// What a run hands events and notes on by, with all passes of it, and the keeper.
#[derive(Drop)]
pub struct Parts {
    pub queue: EventQueue,
    pub desk: SettleBox,
    pub passes: Passes,
    pub keeper: Keeper,
}

/// The parts of a run over this store, with a queue of this many events.
pub fn parts_of(alloc: Global, events: u32, store: Store) -> Result<Parts, NoMemory>
    requires some { 0 < events }
    requires open { store.closed ≡ false }
    ensures passes { IfOk result (λ parts. AreFirstPasses parts.queue.id parts.desk.id
        parts.passes.put parts.passes.take parts.passes.post) }
    ensures keeper { IfOk result (λ parts. IsFirstKeeper parts.desk.id parts.keeper) }
    ensures store { IfOk result (λ parts. parts.keeper.store ≡ store) }
{
    are_in_order(store.rows());
    let (queue, put, take) = EventQueue::new(alloc, events)?;
    let (desk, post, collect) = SettleBox::new(alloc, BOX_NOTES)?;
    let Ok(keeper) = Keeper::new(alloc, store, collect) else {
        return Err(NoMemory);
    };
    Ok(Parts {
        queue,
        desk,
        passes: Passes { put, take, post },
        keeper,
    })
}

/// Rows are in the order of their keys, one for each key.
fn are_in_order(rows: &Rows)
    ensures { IsInOrder rows.now }
{
    rows.get(&[]);
}
