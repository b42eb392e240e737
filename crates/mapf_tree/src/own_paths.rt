//! Own paths that were searched before.

ghost use Rattle.std.specs.Prelude.{◌≡◌, ◌≤◌, IfOk, IfSome};
ghost use Rattle.mapf_tree.specs.Prelude.{IsBranching, IsChildOf, IfKnown, IsQueryOf, IsObeyed};

mod constraint_sets;
mod obeyed;
mod path_cache;
mod start_tables;

use crate::own_paths::path_cache::PathCache;
use crate::own_paths::start_tables::StartTables;
use crate::{Children, Node, OpenList, Problem, Side, SideQuery};
use mapf_grid::NoMemory;
use mapf_low::Lookup;
use mapf_plan::PairConflict;
pub use obeyed::Obeyed;
use std::alloc::Global;
use std::marker::Model;

/// Own paths that were searched before for nodes of a problem's tree, and shared with the nodes that have them.
///
/// In a large tree an agent meets the same constraints again and again: its own path is searched once for each order of the turns.
/// The same two paths meet in many nodes, and when they collide is looked for once.
pub struct OwnPaths<'p> {
    alloc: Global,
    problem: &'p Problem,
    tables: StartTables<'p>,
    cache: PathCache<'p>,
}

// By hand, so that a proof about what holds one sees a call where it is dropped, and not its fields.
impl<'p> Drop for OwnPaths<'p> {
    fn drop(self) {
        let OwnPaths {
            alloc: _,
            problem: _,
            tables: _,
            cache: _,
        } = self;
    }
}

impl<'p> Model for OwnPaths<'p> {
    ghost use Rattle.std.specs.Prelude.{◌≡◌};
    ghost use Rattle.mapf_tree.specs.Prelude.{Problem};

    ghost Value = { Problem };

    ghost view = { λ o. o.problem.now };

    ghost invariant = { λ o. (o.tables ≡ o.problem.now) × (o.cache.problem ≡ o.problem.now) };
}

impl<'p> OwnPaths<'p> {
    /// Nothing was searched yet.
    pub fn new(alloc: Global, problem: &'p Problem) -> Result<OwnPaths<'p>, NoMemory>
        ensures { IfOk result (λ o. o ≡ problem.now) }
    {
        Ok(OwnPaths {
            alloc,
            problem,
            tables: StartTables::new(alloc, problem)?,
            cache: PathCache::new(alloc, problem),
        })
    }

    /// The children of a node of the tree on both sides of its conflict, left first, each none exactly where it isn't in the
    /// tree. A path is searched only where it isn't known.
    pub fn children(&mut self, node: &Node) -> Result<(Option<Node>, Option<Node>), NoMemory>
        requires { IsBranching self.old node.now }
        ensures problem { self.new ≡ self.old }
        ensures left { IfOk result (λ sides. IsChildOf self.old node.now Side.Left sides.0) }
        ensures right { IfOk result (λ sides. IsChildOf self.old node.now Side.Right sides.1) }
    {
        let (left, right) = self.cache.find_children(node)?;
        let left = self.child_from(node, Side::Left, left)?;
        let right = self.child_from(node, Side::Right, right)?;
        Ok((left, right))
    }

    /// The child on one side, which is known, or whose path is searched now.
    fn child_from(
        &mut self,
        node: &Node,
        side: Side,
        known: Lookup<Option<Node>>,
    ) -> Result<Option<Node>, NoMemory>
        requires node { IsBranching self.old node.now }
        requires known { IfKnown known (IsChildOf self.old node.now side) }
        ensures problem { self.new ≡ self.old }
        ensures child { IfOk result (IsChildOf self.old node.now side) }
    {
        if let Lookup::Known(child) = known {
            return Ok(child);
        }
        let query = self.query(node, side)?;
        let path = query.own_path(self.alloc)?;
        let extension = self.cache.learn(node, &query, path.as_ref());
        query.child(self.alloc, node, path, extension.unwrap_or(0))
    }

    /// Searches the own path that a side of a node asks for, and remembers it unless memory runs out.
    pub fn search(&mut self, node: &Node, query: &SideQuery<'p>)
        requires node { IsBranching self.old node.now }
        requires problem { query.now.problem ≡ self.old }
        requires query { IsQueryOf node.now query.now }
        ensures { self.new ≡ self.old }
    {
        if let Ok(path) = query.own_path(self.alloc) {
            let _remembered = self.cache.learn(node, query, path.as_ref());
        }
    }

    /// The pairs of agents that collide at a node, each with the time step of its first conflict, as far as the agents' paths are known.
    pub fn pair_conflicts(&mut self, node: &Node) -> Result<Vec<PairConflict>, NoMemory>
        requires { IsBranching self.old node.now }
        ensures { self.new ≡ self.old }
    {
        self.cache.pair_conflicts(node)
    }

    /// The own path that a side of a node asks for, where it isn't known. None where it is.
    pub fn unknown_query(
        &mut self,
        node: &Node,
        side: Side,
    ) -> Result<Option<SideQuery<'p>>, NoMemory>
        requires { IsBranching self.old node.now }
        ensures same { self.new ≡ self.old }
        ensures problem { IfOk result (λ found. IfSome found (λ q. q.problem ≡ self.old)) }
        ensures side { IfOk result (λ found. IfSome found (λ q. q.side ≡ side)) }
        ensures query { IfOk result (λ found. IfSome found (IsQueryOf node.now)) }
    {
        let query = self.query(node, side)?;
        if self.cache.find_set(&query).is_some() {
            return Ok(None);
        }
        Ok(Some(query))
    }

    /// The own path that a side of a node asks for, with the distances from its agent's start; without them where memory runs out.
    fn query(&mut self, node: &Node, side: Side) -> Result<SideQuery<'p>, NoMemory>
        requires { IsBranching self.old node.now }
        ensures same { self.new ≡ self.old }
        ensures problem { IfOk result (λ q. q.problem ≡ self.old) }
        ensures side { IfOk result (λ q. q.side ≡ side) }
        ensures query { IfOk result (IsQueryOf node.now) }
    {
        let query = SideQuery::of(self.alloc, self.problem, node, side)?;
        match self.tables.of(query.agent()) {
            Some(distances) => Ok(query.with_from_start(distances)),
            None => Ok(query),
        }
    }

    /// Whether any plan without conflict that costs at most so much obeys a node of the tree, as far as that is found by so much work,
    /// which is counted down: a step of the search is 7, a path that it looks for 60. An error is that memory ran out.
    pub fn obeyed_within(
        &mut self,
        node: &Node,
        most: u32,
        work: &mut u64,
    ) -> Result<Obeyed, NoMemory>
        requires node { IsBranching self.old node.now }
        requires most { most ≤ self.old.bound }
        ensures same { self.new ≡ self.old }
        ensures obeyed { IfOk result (IsObeyed self.old node.now most) }
    {
        self.cache.obeyed_within(&mut self.tables, node, most, work)
    }

    /// Remembers the path of a node's child, or that there is no such child, where that was worked out elsewhere, unless memory runs
    /// out.
    pub fn learn(&mut self, node: &Node, query: &SideQuery<'p>, child: &Option<Node>)
        requires node { IsBranching self.old node.now }
        requires problem { query.now.problem ≡ self.old }
        requires query { IsQueryOf node.now query.now }
        requires child { IsChildOf self.old node.now query.now.side child.now }
        ensures { self.new ≡ self.old }
    {
        if let Lookup::Known(path) = query.answer_in(node, child) {
            let _remembered = self.cache.learn(node, query, path);
        }
    }
}

impl<'p> Children for OwnPaths<'p> {
    ghost use Rattle.std.specs.Prelude.{◌≡◌};

    ghost serves = { λ o p. o ≡ p };

    fn both(
        &mut self,
        _problem: &Problem,
        node: &Node,
    ) -> Result<(Option<Node>, Option<Node>), NoMemory> {
        self.children(node)
    }

    fn ahead(&mut self, _problem: &Problem, _waiting: &OpenList) {}
}
