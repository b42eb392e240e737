//! What the owner of a session's board works with.

ghost use Rattle.std.specs.Prelude.{◌≡◌, ◌<◌, None, IfOk, map, replicate};
ghost use Rattle.mapf_board.specs.Owners.{IsOwnerOf, IsOwnerAt, board_of, currents};
ghost use Rattle.mapf_board.specs.Workers.{size_of};
ghost use Rattle.mapf_board.specs.declared.limits.TheConstants.{MOST_SLOTS};
ghost use Rattle.mapf_solve.specs.Sessions.{AreSidesOf, IsGivenOf, number_of};

use crate::sessions::brands::{OneBoard, OneProblem};
use crate::sessions::side_job::{SideJob, SideWork};
use mapf_board::{Found, Left, Live, MOST_SLOTS, Owner, Pair};
use std::marker::PhantomData;

/// One of the slots of a board.
#[derive(Clone, Copy)]
pub(crate) struct Slot {
    pub(crate) number: usize,
    ghost of_board: { number < MOST_SLOTS },
}

/// What a board gives back for a job.
pub(crate) type Given<'p> = Left<Pair<SideWork<'p>>, SideJob<'p>>;

/// The owner of a live board of as many slots as a board may have. Each job of the board is for a child of a node of the
/// problem's tree.
#[derive(Drop)]
pub(crate) struct Desk<'p, 's, P: OneProblem, B: OneBoard> {
    live: &'s Live<SideWork<'p>>,
    owner: Owner<SideWork<'p>>,
    /// The number of each slot's job; none where it has none.
    numbers: [Option<u64>; MOST_SLOTS],
    of: PhantomData<(P, B)>,
    ghost board: { board_of live.now ≡ B.board },
    ghost slots: { size_of live.now ≡ MOST_SLOTS },
    ghost owns: { IsOwnerOf live.now owner },
    ghost sides: { AreSidesOf P.problem (currents owner) },
    ghost numbered: { numbers ≡ map number_of (currents owner) },
}

impl<'p, 's, P: OneProblem, B: OneBoard> Desk<'p, 's, P, B> {
    /// The desk of the owner of a board that has no job yet.
    pub(crate) fn new(
        live: &'s Live<SideWork<'p>>,
        owner: Owner<SideWork<'p>>,
    ) -> Desk<'p, 's, P, B>
        requires board { board_of live.now ≡ B.board }
        requires slots { size_of live.now ≡ MOST_SLOTS }
        requires owns { IsOwnerOf live.now owner }
        requires no_job { currents owner ≡ replicate MOST_SLOTS None }
    {
        Desk {
            live,
            owner,
            numbers: [None; MOST_SLOTS],
            of: PhantomData,
        }
    }

    /// The owner.
    pub(crate) fn into_owner(self) -> Owner<SideWork<'p>>
        ensures owns { IsOwnerAt B.board MOST_SLOTS result }
        ensures sides { AreSidesOf P.problem (currents result) }
    {
        self.owner
    }

    /// Whether the slot has a job.
    pub(crate) fn is_used(&self, slot: Slot) -> bool {
        self.numbers[slot.number].is_some()
    }

    /// Whether any slot has a job.
    pub(crate) fn has_jobs(&self) -> bool {
        self.numbers.iter().any(|number| number.is_some())
    }

    /// The first slot whose job has this number, or without one the first that has no job.
    pub(crate) fn slot_with(&self, job: Option<u64>) -> Option<Slot> {
        for number in 0..MOST_SLOTS {
            if self.numbers[number] == job {
                return Some(Slot { number });
            }
        }
        None
    }

    /// Posts a job in a slot, if that has none.
    pub(crate) fn post(&mut self, slot: Slot, job: SideJob<'p>)
        requires { job.query.problem ≡ P.problem }
    {
        let number = job.number();
        if self.live.post(&mut self.owner, slot.number, job).is_ok() {
            self.numbers[slot.number] = Some(number);
        }
    }

    /// What a worker left in the slot. An error is the state that was found.
    pub(crate) fn collect(&mut self, slot: Slot) -> Result<Given<'p>, Found>
        ensures { IfOk result (IsGivenOf P.problem) }
    {
        let left = self.live.collect(&mut self.owner, slot.number)?;
        self.numbers[slot.number] = None;
        Ok(left)
    }

    /// The job of the slot, where no worker claimed it. An error is the state that was found.
    pub(crate) fn withdraw(&mut self, slot: Slot) -> Result<SideJob<'p>, Found>
        ensures { IfOk result (λ job. job.query.problem ≡ P.problem) }
    {
        let job = self.live.withdraw(&mut self.owner, slot.number)?;
        self.numbers[slot.number] = None;
        Ok(job)
    }

    /// Shuts the board.
    pub(crate) fn shut(&mut self) {
        self.live.shut(&mut self.owner);
    }
}
