ghost use Rattle.std.specs.Prelude.{◌≡◌, ◌≤◌, length, IfOk, OnErr, vec_capacity};
ghost use Rattle.beat_config.specs.InRange.{AreInRange};
ghost use Rattle.rounds.specs.Making.{all_seen};
ghost use Rattle.rounds.specs.WordsOf.{wires_of};
ghost use Rattle.run_steps.specs.BegunCrew.{AreFirstPasses, IsBegunCrew};

use crate::context::Context;
use crate::leave::end_lanes;
use lanes::Lane;
use mem_queue::{PutPass, TakePass};
use outside::{Link, Tail, Wire};
use rounds::{Crew, carriers_of, lanes_of};
use settle_box::PostPass;
use wire_base::NoMemory;

/// How many notes a run's box holds (this project's profile).
pub const BOX_NOTES: u32 = 8_192;

/// All passes of a queue and a box but the one that collects.
#[derive(Drop)]
pub struct Passes {
    pub put: PutPass,
    pub take: TakePass,
    pub post: PostPass,
}

/// Lanes and workers as the settings ask for them, among which these passes are parted. `Err` means out of memory; then all wires
/// are back in their order.
pub fn crew_of<T: Tail, L: Link, W: Wire<Link = L>>(
    context: Context<'_, '_>,
    passes: Passes,
    wires: &mut Vec<W>,
) -> Result<Crew<T, W, L>, NoMemory>
    requires settings { AreInRange context.settings.now }
    requires enough_wires { 16 ≤ length wires.old.items }
    requires passes { AreFirstPasses context.outlets.queue.now.id context.outlets.desk.now.id
        passes.put passes.take passes.post }
    ensures begun { IfOk result (IsBegunCrew L.told context.entry.outlets.queue.now.id
        context.entry.outlets.desk.now.id context.entry.settings.now
        wires.old.items wires.new.items) }
    ensures back { OnErr result (all_seen (wires_of W.Wire) wires.new.items
        ≡ all_seen (wires_of W.Wire) wires.old.items) }
    ensures capacity { vec_capacity wires.new ≡ vec_capacity wires.old }
{
    let Context {
        alloc,
        settings,
        outlets,
        once: _,
    } = context;
    let Passes {
        put,
        take,
        mut post,
    } = passes;
    let other_post = outlets.desk.split_post(&mut post);
    let lanes = lanes_of(alloc, outlets, put, post, settings.lanes)?;
    match carriers_of(alloc, outlets, take, other_post, &settings.output, wires) {
        Ok(carriers) => Ok(Crew::new(lanes, carriers, BOX_NOTES)),
        Err(error) => {
            end_lanes(lanes);
            Err(error)
        }
    }
}
