//! The workers of a board, beside its owner.
ghost use Rattle.std.specs.Prelude.{◌≡◌, All, IfOk, Some};
ghost use Rattle.mapf_board.specs.Closing.{slots_below};
ghost use Rattle.mapf_board.specs.Owners.{IsOwnerOf, current_in, currents};
ghost use Rattle.mapf_board.specs.Views.{job_in};
ghost use Rattle.mapf_board.specs.Weights.{keys};
ghost use Rattle.mapf_board.specs.Workers.{IsCrewOf, IsIdle, IsWorkerOf, size_of};

use super::Live;
use super::left::Left;
use super::owner::Owner;
use super::worker::WorkerSeat;
use crate::gate::Gate;
use crate::limits::MOST_WORKERS;
use crate::no_memory::NoMemory;
use crate::supply::Supply;
use crate::work::{Pair, Work};
use std::alloc::Global;
use std::thread::{Threads, for_each_mut, join_mut};

/// The seats of all workers of a live board, of whom none has a claim, and how many turns each takes at most.
#[derive(Drop)]
pub struct Crew<'s, W: Work> {
    live: &'s Live<W>,
    seats: Vec<WorkerSeat<W>>,
    turns: u64,
    ghost crew: { IsCrewOf live.now seats.items },
}

impl<'s, W: Work> Crew<'s, W> {
    /// These are the seats of all workers of the board.
    pub fn of(live: &'s Live<W>, seats: Vec<WorkerSeat<W>>, turns: u64) -> Crew<'s, W>
        requires { IsCrewOf live.now seats.items }
        ensures { result.live.now ≡ live.now }
    {
        Crew { live, seats, turns }
    }

    /// The seats.
    pub fn into_seats(self) -> Vec<WorkerSeat<W>>
        ensures { IsCrewOf self.entry.live.now result.items }
    {
        let Crew { seats, .. } = self;
        seats
    }
}

/// Closes a board behind its crew: what is left in each slot where the owner has a job still, slots rising. An error is that
/// memory ran out.
pub fn close_behind<W: Work>(
    alloc: Global,
    live: Live<W>,
    owner: Owner<W>,
    seats: Vec<WorkerSeat<W>>,
) -> Result<Vec<(usize, Left<Pair<W>, W::Job>)>, NoMemory>
    requires owner { IsOwnerOf live owner }
    requires crew { IsCrewOf live seats.items }
    ensures slots { IfOk result (λ left. keys left.items ≡ slots_below (size_of live) (currents owner)) }
    ensures jobs { IfOk result (λ left. All (λ x. current_in owner x.0 ≡ Some (job_in x.1)) left.items) }
{
    match live.close(alloc, owner, seats) {
        Ok(left) => Ok(left),
        Err(_) => Err(NoMemory),
    }
}

/// The owner's part of the work at a board.
pub trait Lead {
    /// What it gives.
    type Outcome;

    // it may begin
    ghost may_lead: { Self → Type 0 };

    // from what it began with to what it gave and left
    ghost leads: { Self → Self.Outcome → Self → Type 0 };

    /// Whether there is a job for a worker. Where there is none, no thread is started.
    fn has_jobs(&self) -> bool;

    /// Works to its end, and shuts the board.
    fn lead(&mut self) -> Self::Outcome
        requires { may_lead self.old }
        ensures { leads self.old result self.new };
}

/// The owner's part, and beside it each worker of the crew takes its turns at the board in a thread of its own, if there is a job.
pub fn work_beside<R: Threads + Sync, W: Work, G: Gate, S: Supply, L: Lead>(
    rt: &R,
    crew: &mut Crew<'_, W>,
    work: &W,
    gate: &G,
    supply: &S,
    lead: &mut L,
) -> L::Outcome
    requires lead { L.may_lead lead.old }
    ensures lead { L.leads lead.old result lead.new }
    ensures live { crew.new.live.now ≡ crew.old.live.now }
{
    if !lead.has_jobs() {
        return lead.lead();
    }
    let live = crew.live;
    let turns = crew.turns;
    let seats = crew.seats.as_mut_slice();
    let (_, outcome) = join_mut(
        rt,
        &mut ||
            requires { IsCrewOf live.now seats.now }
            ensures { IsCrewOf live.entry.now seats.exit.now }
        {
            for_each_mut(
                rt,
                seats,
                MOST_WORKERS,
                &|_, seat|
                    requires { IsWorkerOf live.now seat.now × IsIdle seat.now }
                    ensures { IsWorkerOf live.entry.now seat.exit.now × IsIdle seat.exit.now }
                { live.take_turns(work, gate, supply, seat, turns) },
            );
        },
        &mut || -> L::Outcome
            requires { L.may_lead lead.now }
            ensures { L.leads lead.entry.now result lead.exit.now }
        { lead.lead() },
    );
    outcome
}
