//! The jobs of a session: children of nodes that wait.

ghost use Rattle.std.specs.Prelude.{◌≡◌, IfOk, IsTrue};
ghost use Rattle.mapf_tree.specs.Family.{IsBranching};
ghost use Rattle.mapf_tree.specs.SideQuery.{IsQueryOf};
ghost use Rattle.mapf_solve.specs.Rounds.{FitsSide};

use mapf_board::{Pair, Task, Work};
use mapf_grid::NoMemory;
use mapf_tree::{Node, Problem, SideQuery, child_with};
use std::alloc::Global;
use std::marker::{Model, PhantomData};

/// A child of a node is wanted, on one side of the conflict of the node's plan.
pub(crate) struct SideJob<'p> {
    node: Node,
    /// The own path that the side asks for. Boxed, since jobs are moved often.
    query: Box<SideQuery<'p>>,
    number: u64,
}

// By hand, so that a proof about what holds a job sees a call where it is dropped, and not its fields.
impl<'p> Drop for SideJob<'p> {
    fn drop(self) {
        let SideJob {
            node: _,
            query: _,
            number: _,
        } = self;
    }
}

impl<'p> Model for SideJob<'p> {
    ghost use Rattle.mapf_tree.specs.SideQuery.{IsQueryOf};
    ghost use Rattle.mapf_tree.specs.Family.{IsBranching};
    ghost use Rattle.mapf_solve.specs.Rounds.{WantedChild};

    ghost Value = { WantedChild };

    ghost view = { λ j. record { query = j.query.value; node = j.node; number = j.number } };

    ghost invariant = { λ j. IsBranching j.query.value.problem j.node × IsQueryOf j.node j.query.value };
}

impl<'p> SideJob<'p> {
    /// The job for the side of a node that this query is of. An error is that memory ran out.
    pub(crate) fn of(
        alloc: Global,
        node: &Node,
        query: SideQuery<'p>,
        number: u64,
    ) -> Result<SideJob<'p>, NoMemory>
        requires node { IsBranching query.problem node.now }
        requires query { IsQueryOf node.now query }
        ensures { IfOk result (λ job. job ≡ record { query = query.entry; node = node.now; number = number }) }
    {
        let node = node.copy()?;
        match Box::new(alloc, query) {
            Ok(query) => Ok(SideJob {
                node,
                query,
                number,
            }),
            Err(_refused) => Err(NoMemory),
        }
    }

    /// The node whose child it is to be.
    pub(crate) fn node(&self) -> &Node
        ensures node { result.now ≡ self.now.node }
        ensures branching { IsBranching self.now.query.problem result.now }
    {
        &self.node
    }

    /// The own path that the side asks for.
    pub(crate) fn query(&self) -> &SideQuery<'p>
        ensures query { result.now ≡ self.now.query }
        ensures of { IsQueryOf self.now.node result.now }
    {
        &self.query
    }

    /// The job's number.
    pub(crate) fn number(&self) -> u64
        ensures { result ≡ self.now.number }
    {
        self.number
    }

    /// The child.
    fn child(&self, alloc: Global) -> Result<Option<Node>, NoMemory>
        ensures { IfOk result (FitsSide self.now) }
    {
        child_with(alloc, &self.node, &self.query)
    }
}

/// Works children of nodes out.
#[derive(Drop)]
pub(crate) struct SideWork<'p> {
    alloc: Global,
    of: PhantomData<&'p Problem>,
}

impl<'p> SideWork<'p> {
    /// The work on any problem's nodes; memory comes from this allocator.
    pub(crate) fn new(alloc: Global) -> SideWork<'p> {
        SideWork {
            alloc,
            of: PhantomData,
        }
    }
}

impl<'p> Task for SideWork<'p> {
    type Job = SideJob<'p>;

    type Answer = Option<Node>;

    ghost fits = { FitsSide };
}

impl<'p> Work for SideWork<'p> {
    fn number(&self, job: &SideJob<'p>) -> u64 {
        job.number
    }

    fn perform(&self, job: SideJob<'p>) -> Result<Pair<SideWork<'p>>, SideJob<'p>> {
        match job.child(self.alloc) {
            Ok(found) => Ok(Pair::of(job, found)),
            Err(_) => Err(job),
        }
    }
}
