//! What an answer is worked out with.

ghost use Rattle.std.specs.Prelude.{◌<◌, ◌≤◌};
ghost use Rattle.mapf_board.specs.declared.limits.TheConstants.{MOST_WORKERS};
ghost use Rattle.mapf_solve.specs.declared.pace.TheConstants.{MOST_SESSION_NODES, MOST_WORKER_TURNS};

use crate::Pace;
use mapf_board::AlwaysGrants;
use std::alloc::Global;

/// What an answer is worked out with. No answer depends on it.
#[derive(Drop)]
pub struct Means<'a, R, G, S> {
    /// Starts threads.
    pub rt: &'a R,
    /// Where memory is from.
    pub alloc: Global,
    /// How many workers may work at once: 1 to 64.
    pub workers: usize,
    /// How long a session goes on.
    pub pace: Pace,
    /// Is told of each job that a worker does.
    pub gate: &'a G,
    /// Grants memory for a worker's jobs.
    pub supply: &'a S,
    pub ghost few: { (0 < workers) × (workers ≤ MOST_WORKERS) },
    pub ghost turns: { pace.worker_turns ≤ MOST_WORKER_TURNS },
    pub ghost nodes: { (1 ≤ pace.session_nodes) × (pace.session_nodes ≤ MOST_SESSION_NODES) },
}

impl<'a, R, G> Means<'a, R, G, AlwaysGrants> {
    /// One worker, as long as no other number of them is asked for, and memory for each of its jobs.
    pub(crate) fn new(rt: &'a R, alloc: Global, gate: &'a G) -> Means<'a, R, G, AlwaysGrants> {
        Means {
            rt,
            alloc,
            workers: 1,
            pace: Pace::USUAL,
            gate,
            supply: &AlwaysGrants,
        }
    }
}
