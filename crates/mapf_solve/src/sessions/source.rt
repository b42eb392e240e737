//! A session as a search's source of children.

ghost use Rattle.std.specs.Prelude.{◌≡◌, IfSome};
ghost use Rattle.mapf_tree.specs.Family.{IsBranching};
ghost use Rattle.mapf_tree.specs.Nodes.{AllStand};

use crate::sessions::brands::{OneBoard, OneProblem};
use crate::sessions::desk::{Desk, Slot};
use crate::sessions::lookahead::Lookahead;
use crate::sessions::side_job::SideJob;
use mapf_board::{Found, Gate, MOST_SLOTS};
use mapf_grid::NoMemory;
use mapf_tree::{Children, Node, OpenList, Problem, Side};

/// The owner's part of a session: the search's source of children, of which some are worked ahead on a board.
///
/// Its methods know nothing of the gate: only as a source of children it calls it.
#[derive(Drop)]
pub(crate) struct SessionSource<'p, 's, P: OneProblem, B: OneBoard, G> {
    pub(crate) lookahead: Lookahead<'p, P>,
    pub(crate) desk: Desk<'p, 's, P, B>,
    gate: &'s G,
    /// For so many nodes the waiting ones aren't looked at again.
    looked: usize,
}

impl<'p, 's, P: OneProblem, B: OneBoard, G> SessionSource<'p, 's, P, B, G> {
    /// The source of a session that begins with jobs for these nodes, unless it goes on alone. Where there is none, nothing is worked
    /// ahead in the session.
    pub(crate) fn begin(
        lookahead: Lookahead<'p, P>,
        desk: Desk<'p, 's, P, B>,
        gate: &'s G,
        waiting: &OpenList,
    ) -> SessionSource<'p, 's, P, B, G>
        requires { AllStand P.problem waiting.now }
    {
        let mut source = SessionSource {
            lookahead,
            desk,
            gate,
            looked: 0,
        };
        if !source.lookahead.alone.is_due() {
            source.post_all(waiting);
        }
        if !source.desk.has_jobs() {
            source.looked = usize::MAX;
        }
        source
    }

    /// Posts jobs for the children of the first waiting nodes of which nothing is known, as long as there is a free slot.
    fn post_all(&mut self, waiting: &OpenList)
        requires { AllStand P.problem waiting.now }
    {
        for node in waiting.first(4 * self.lookahead.workers) {
            if node.conflict().is_some() {
                self.post(node);
            }
        }
    }

    /// Posts the jobs for the children of a node, left first, if it wasn't asked for them yet and a slot is free.
    fn post(&mut self, node: &Node)
        requires { IsBranching P.problem node.now }
    {
        if self.lookahead.has_asked(node) || self.desk.slot_with(None).is_none() {
            return;
        }
        let left = self.post_side(node, Side::Left);
        let right = self.post_side(node, Side::Right);
        self.lookahead.remember(node, (left, right));
    }

    /// Posts the job for a child of a node, if its path isn't known and a slot is free: its number.
    fn post_side(&mut self, node: &Node, side: Side) -> Option<u64>
        requires { IsBranching P.problem node.now }
    {
        let slot = self.desk.slot_with(None)?;
        let job = self.lookahead.job(node, side)?;
        let number = job.number();
        self.desk.post(slot, job);
        Some(number)
    }

    /// What became of the job of this number, if there is one, is kept. A job that nobody claimed comes out of its slot, to be
    /// performed now.
    fn fetch(&mut self, number: Option<u64>) -> Option<SideJob<'p>>
        ensures { IfSome result (λ job. job.query.problem ≡ P.problem) }
    {
        let slot = self.desk.slot_with(Some(number?))?;
        let Err(Found::Posted) = self.keep_done(slot) else {
            return None;
        };
        let job = self.desk.withdraw(slot);
        if job.is_err() {
            let _done = self.keep_done(slot);
        }
        job.ok()
    }

    /// Keeps what is done in a slot. An error is the state that was found.
    fn keep_done(&mut self, slot: Slot) -> Result<(), Found> {
        let given = self.desk.collect(slot)?;
        self.lookahead.keep(given);
        Ok(())
    }
}

impl<'p, 's, P: OneProblem, B: OneBoard, G: Gate> Children for SessionSource<'p, 's, P, B, G> {
    ghost use Rattle.std.specs.Prelude.{◌≡◌};

    ghost serves = { λ _ p. p ≡ P.problem };

    fn both(
        &mut self,
        _problem: &Problem,
        node: &Node,
    ) -> Result<(Option<Node>, Option<Node>), NoMemory> {
        let (left, right) = self.lookahead.take_numbers(node);
        for number in [left, right] {
            if let Some(job) = self.fetch(number) {
                let number = job.number();
                self.gate.enter(number);
                let lookahead = &mut self.lookahead;
                lookahead.own_paths.search(job.node(), job.query());
                self.gate.leave(number);
            }
        }
        self.lookahead.children(node)
    }

    // The nodes are looked at once for as many nodes as there are workers, so that a look costs each node the same for any number
    // of them.
    fn ahead(&mut self, _problem: &Problem, waiting: &OpenList) {
        if self.looked > 0 {
            self.looked -= 1;
            return;
        }
        for number in 0..MOST_SLOTS {
            let slot = Slot { number };
            if self.desk.is_used(slot) {
                let _done = self.keep_done(slot);
            }
        }
        self.post_all(waiting);
        self.looked = self.lookahead.workers.saturating_sub(1);
    }
}
