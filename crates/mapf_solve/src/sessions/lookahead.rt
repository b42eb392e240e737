//! What sessions of a search hand on: own paths, and which nodes that wait were asked for their children.

ghost use Rattle.std.specs.Prelude.{◌≡◌, ◌+◌, ◌<◌, ◌≤◌, All, IfOk, IfSome};
ghost use Rattle.mapf_board.specs.declared.limits.TheConstants.{MOST_WORKERS};
ghost use Rattle.mapf_tree.specs.Family.{IsBranching, IsChildOf};
ghost use Rattle.mapf_solve.specs.Sessions.{IsGivenOf, children_in};

use crate::sessions::brands::OneProblem;
use crate::sessions::desk::Given;
use crate::sessions::side_job::{SideJob, SideWork};
use crate::sessions_alone::SessionsAlone;
use mapf_board::{Left, Pair};
use mapf_grid::NoMemory;
use mapf_tree::{Key, Node, OwnPaths, Problem, Side};
use std::alloc::Global;
use std::collections::BTreeMap;
use std::marker::PhantomData;

/// The numbers of the jobs for a node's children, left first; none where there is no job.
pub(crate) type Numbers = (Option<u64>, Option<u64>);

/// The own paths that a search knows, which of its waiting nodes were asked for their children, and how jobs are numbered.
pub(crate) struct Lookahead<'p, P: OneProblem> {
    alloc: Global,
    /// Boxed, since a session takes what is handed on and gives it back.
    pub(crate) own_paths: Box<OwnPaths<'p>>,
    /// The nodes that wait and were asked for their children: the numbers of the jobs.
    asked: BTreeMap<Key, Numbers>,
    /// How many workers there are.
    pub(crate) workers: usize,
    /// The number of the next job.
    next: u64,
    /// How many sessions go on without workers.
    pub(crate) alone: SessionsAlone,
    of: PhantomData<P>,
    ghost is_of: { own_paths.value ≡ P.problem },
    ghost few: { workers ≤ MOST_WORKERS },
}

// By hand, so that a proof about what holds one sees a call where it is dropped, and not its fields.
impl<'p, P: OneProblem> Drop for Lookahead<'p, P> {
    fn drop(self) {
        let Lookahead {
            alloc: _,
            own_paths: _,
            asked: _,
            workers: _,
            next: _,
            alone: _,
            of: _,
        } = self;
    }
}

impl<'p, P: OneProblem> Lookahead<'p, P> {
    /// Nothing is known yet. There are so many workers, and the first job has this number.
    pub(crate) fn new(
        alloc: Global,
        problem: &'p Problem,
        workers: usize,
        next: u64,
    ) -> Result<Lookahead<'p, P>, NoMemory>
        requires problem { problem.now ≡ P.problem }
        requires workers { workers ≤ MOST_WORKERS }
    {
        let Ok(own_paths) = Box::new(alloc, OwnPaths::new(alloc, problem)?) else {
            return Err(NoMemory);
        };
        Ok(Lookahead {
            alloc,
            own_paths,
            asked: BTreeMap::new(alloc),
            workers,
            next,
            alone: SessionsAlone::new(),
            of: PhantomData,
        })
    }

    /// The own paths, for a search that goes on without workers.
    pub(crate) fn into_own_paths(self) -> OwnPaths<'p>
        ensures { result ≡ P.problem }
    {
        let Lookahead {
            alloc: _,
            own_paths,
            asked: _,
            workers: _,
            next: _,
            alone: _,
            of: _,
        } = self;
        Box::into_inner(own_paths)
    }

    /// Whether a node that waits was asked for its children.
    pub(crate) fn has_asked(&self, node: &Node) -> bool {
        self.asked.contains_key(node.key())
    }

    /// A node that waits was asked for its children: these are the numbers of the jobs. That is forgotten where memory runs out.
    pub(crate) fn remember(&mut self, node: &Node, numbers: Numbers) {
        if let Ok(key) = node.key().copy(self.alloc) {
            let _refused = self.asked.insert(key, numbers);
        }
    }

    /// The numbers of the jobs for the children of a node, which is asked for them no longer.
    pub(crate) fn take_numbers(&mut self, node: &Node) -> Numbers {
        self.asked.remove(node.key()).unwrap_or((None, None))
    }

    /// The job for a child of a node, to be posted, where its path isn't known. None where memory runs out, too.
    pub(crate) fn job(&mut self, node: &Node, side: Side) -> Option<SideJob<'p>>
        requires { IsBranching P.problem node.now }
        ensures { IfSome result (λ job. job.query.problem ≡ P.problem) }
    {
        let query = self.own_paths.unknown_query(node, side).ok()??;
        let number = self.next;
        let job = SideJob::of(self.alloc, node, query, number).ok()?;
        self.next = number.saturating_add(1);
        Some(job)
    }

    /// Keeps what a worker left: the path of the child, or nothing where there was no memory for it.
    pub(crate) fn keep(&mut self, given: Given<'p>)
        requires { IsGivenOf P.problem given }
        ensures { self.old.alone.children < u64.MAX
            → self.new.alone.children ≡ self.old.alone.children + children_in given.entry }
    {
        if let Left::Answer(pair) = given {
            self.alone.count();
            self.learn(pair);
        }
    }

    /// A session of so many nodes ended: keeps the paths of the children that its board leaves, and no job. The next session asks
    /// again.
    pub(crate) fn end_session(&mut self, left: Vec<(usize, Given<'p>)>, nodes: u64)
        requires { All (λ x. IsGivenOf P.problem x.1) left.items }
    {
        self.alone.judge(nodes);
        for (_slot, given) in left {
            match given {
                Left::Answer(pair) => self.learn(pair),
                Left::Job(_dropped) => {}
            }
        }
        self.asked = BTreeMap::new(self.alloc);
    }

    /// Remembers the path of a child that was worked out.
    fn learn(&mut self, pair: Pair<SideWork<'p>>)
        requires { pair.0.query.problem ≡ P.problem }
        ensures { self.new.alone ≡ self.old.alone }
    {
        let (job, child) = pair.parts();
        self.own_paths.learn(job.node(), job.query(), &child);
    }

    /// The children of the node that is expanded.
    pub(crate) fn children(&mut self, node: &Node) -> Result<(Option<Node>, Option<Node>), NoMemory>
        requires { IsBranching P.problem node.now }
        ensures left { IfOk result (λ sides. IsChildOf P.problem node.now Side.Left sides.0) }
        ensures right { IfOk result (λ sides. IsChildOf P.problem node.now Side.Right sides.1) }
    {
        self.own_paths.children(node)
    }
}
