//! A worker's turns at a board.
ghost use Rattle.std.specs.Prelude.{◌≡◌, ◌+◌, ◌≤◌, ◌⊎◌};

use super::Live;
use super::left::Left;
use super::pause::Pause;
use super::worker::WorkerSeat;
use crate::gate::Gate;
use crate::passing::perform_granted;
use crate::supply::Supply;
use crate::work::Work;

impl<W: Work> Live<W> {
    ghost use Rattle.mapf_board.specs.Workers.{IsWorkerOf, IsIdle, IsSentAway, IsSpent, HoldsJob, looks_of, tries_of, record_of};

    /// A worker's part of the board's jobs, in so many turns at most; it ends at the first look that finds the board shut.
    ///
    /// A turn is one look at the flag and one claim. The slots are claimed in a ring, from the worker's number on; a
    /// job that was claimed is performed, and what becomes of it is left in its slot: the job with its answer, or the
    /// job, where memory ran out. The longer nothing was to be claimed, the longer a worker pauses after a turn; it waits
    /// for nobody.
    pub fn take_turns<G: Gate, S: Supply>(
        &self,
        work: &W,
        gate: &G,
        supply: &S,
        seat: &mut WorkerSeat<W>,
        turns: u64,
    )
        requires worker { IsWorkerOf self.now seat.old }
        requires idle { IsIdle seat.old }
        ensures worker { IsWorkerOf self.now seat.new }
        ensures idle { IsIdle seat.new }

        // In each turn it looks once and tries one claim. It ends at the first look that finds the board shut, or else when all
        // turns are spent.
        ensures looks { looks_of seat.new ≤ looks_of seat.old + turns }
        ensures tries { tries_of seat.new ≤ tries_of seat.old + turns }
        ensures shut { IsSentAway seat.old seat.new ⊎ IsSpent turns seat.old seat.new }
    {
        let mut pause = Pause::new();
        let mut slot = seat.number % self.size;
        for _turn in 0..turns {
            if !self.is_open(seat) {
                break;
            }
            match self.claim(seat, slot) {
                Ok(()) => {
                    self.work_off(work, gate, supply, seat);
                    pause.shorten();
                }
                Err(_found) => pause.take(),
            }
            slot = (slot + 1) % self.size;
        }
    }

    /// Performs the job of the claim between the two calls of the gate, where the supply grants memory for it, and leaves
    /// what becomes of it: the job with its answer, or the job, where there was no memory.
    pub fn work_off<G: Gate, S: Supply>(
        &self,
        work: &W,
        gate: &G,
        supply: &S,
        seat: &mut WorkerSeat<W>,
    )
        requires worker { IsWorkerOf self.now seat.old }
        requires claim { (job : W.Job) × HoldsJob seat.old job }
        ensures worker { IsWorkerOf self.now seat.new }
        ensures idle { IsIdle seat.new }
        ensures tried { tries_of seat.new ≡ tries_of seat.old + 1 }
        ensures same { record_of seat.new ≡ record_of seat.old }
    {
        let job = self.job_of(seat);
        match perform_granted(work, gate, supply, job) {
            Ok(pair) => self.finish(seat, Left::Answer(pair)),
            Err(job) => self.finish(seat, Left::Job(job)),
        }
    }
}
