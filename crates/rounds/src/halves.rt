ghost use denote.Param.Send.{IsSend, IsSync};
ghost use Rattle.std.specs.Prelude.{◌<◌, ◌+◌, All, length};
ghost use Rattle.rounds.specs.Pairs.{Pairs};

use std::thread::{self, Threads};

/// What is done to a lane, and what is done to a worker, each in one thread.
pub(crate) trait Task<A, B> {
    ghost can_run: { Self → Type 0 };

    ghost lane_ready: { Self → A → Type 0 };

    ghost worker_ready: { Self → B → Type 0 };

    ghost lane_ran: { Self → A → A → Type 0 };

    ghost worker_ran: { Self → B → B → Type 0 };

    /// Whether at most one of the lanes has work.
    fn are_few_busy(&self, lanes: &[A]) -> bool;

    fn run_lane(&self, lane: &mut A)
        requires can_run { can_run self.now }
        requires ready { lane_ready self.now lane.old }
        ensures { lane_ran self.entry.now lane.old lane.new };

    fn run_worker(&self, worker: &mut B)
        requires can_run { can_run self.now }
        requires ready { worker_ready self.now worker.old }
        ensures { worker_ran self.entry.now worker.old worker.new };
}

fn run_lanes_in_turn<A, B, S: Task<A, B>>(task: &S, lanes: &mut [A])
    requires can_run { S.can_run task.now }
    requires ready { All (S.lane_ready task.now) lanes.old }
    ensures { Pairs (S.lane_ran task.entry.now) lanes.old lanes.new }
{
    let Some((lane, lanes)) = lanes.split_first_mut() else {
        return;
    };
    task.run_lane(lane);
    run_lanes_in_turn(task, lanes);
}

pub(crate) fn run_workers_in_turn<A, B, S: Task<A, B>>(task: &S, workers: &mut [B])
    requires can_run { S.can_run task.now }
    requires ready { All (S.worker_ready task.now) workers.old }
    ensures { Pairs (S.worker_ran task.entry.now) workers.old workers.new }
{
    let Some((worker, workers)) = workers.split_first_mut() else {
        return;
    };
    task.run_worker(worker);
    run_workers_in_turn(task, workers);
}

/// Runs lanes and workers, each lane that has work in a thread of its own if one can be made, and each worker in that of a
/// lane, after it, so that it finds there what the lane gave.
#[cycle(halves)]
pub(crate) fn run_parts<A: Send, B: Send, S: Task<A, B> + Sync, R: Threads + Sync>(
    rt: &R,
    task: &S,
    lanes: &mut [A],
    workers: &mut [B],
)
    requires can_run { S.can_run task.now }
    requires lanes { All (S.lane_ready task.now) lanes.old }
    requires workers { All (S.worker_ready task.now) workers.old }
    ensures lanes { Pairs (S.lane_ran task.entry.now) lanes.old lanes.new }
    ensures workers { Pairs (S.worker_ran task.entry.now) workers.old workers.new }
{
    // No thread is begun for a lane without work.
    if workers.len() < 2 && (lanes.len() < 2 || task.are_few_busy(lanes)) {
        run_lanes_in_turn(task, lanes);
        run_workers_in_turn(task, workers);
        return;
    }
    let lanes_half = lanes.len() / 2;
    let workers_half = workers.len() / 2;
    let (lanes, more_lanes) = lanes.split_at_mut(lanes_half);
    let (workers, more_workers) = workers.split_at_mut(workers_half);
    run_halves(rt, task, lanes, workers, more_lanes, more_workers);
}

/// Runs lanes and workers in a new thread, if one can be made, and more of them in this one.
#[cycle(halves)]
fn run_halves<A: Send, B: Send, S: Task<A, B> + Sync, R: Threads + Sync>(
    rt: &R,
    task: &S,
    lanes: &mut [A],
    workers: &mut [B],
    more_lanes: &mut [A],
    more_workers: &mut [B],
)
    requires can_run { S.can_run task.now }
    requires lanes { All (S.lane_ready task.now) lanes.old }
    requires workers { All (S.worker_ready task.now) workers.old }
    requires more_lanes { All (S.lane_ready task.now) more_lanes.old }
    requires more_workers { All (S.worker_ready task.now) more_workers.old }
    requires some { 0 < length lanes.old + length workers.old }
    requires some_more { 0 < length more_lanes.old + length more_workers.old }
    ensures lanes { Pairs (S.lane_ran task.entry.now) lanes.old lanes.new }
    ensures workers { Pairs (S.worker_ran task.entry.now) workers.old workers.new }
    ensures more_lanes { Pairs (S.lane_ran task.entry.now) more_lanes.old more_lanes.new }
    ensures more_workers { Pairs (S.worker_ran task.entry.now)
        more_workers.old more_workers.new }
{
    let mut running = ||
        requires { IsSync R.row × IsSync S.row × IsSend A.row × IsSend B.row
            × S.can_run task.now × All (S.lane_ready task.now) lanes.now
            × All (S.worker_ready task.now) workers.now }
        ensures { Pairs (S.lane_ran task.entry.now) lanes.entry.now lanes.exit.now
            × Pairs (S.worker_ran task.entry.now) workers.entry.now workers.exit.now }
    { run_parts(rt, task, lanes, workers) };
    let mut running_more = ||
        requires { IsSync R.row × IsSync S.row × IsSend A.row × IsSend B.row
            × S.can_run task.now × All (S.lane_ready task.now) more_lanes.now
            × All (S.worker_ready task.now) more_workers.now }
        ensures { Pairs (S.lane_ran task.entry.now) more_lanes.entry.now more_lanes.exit.now
            × Pairs (S.worker_ran task.entry.now)
            more_workers.entry.now more_workers.exit.now }
    { run_parts(rt, task, more_lanes, more_workers) };
    thread::join_mut(rt, &mut running, &mut running_more);
}
