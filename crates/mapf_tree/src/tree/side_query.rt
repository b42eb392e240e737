//! What the child on a side of a node's conflict asks of the low level.

ghost use Rattle.std.specs.Prelude.{◌≡◌, ◌+◌, ◌<◌, ◌≤◌, length, option_map, Some, None, IfOk};
ghost use Rattle.mapf_tree.specs.Prelude.{arc_value, cost, path_of, plan_cost, MOST_BOUND, IsAsked, IsBranching, IsChildOf, Leaves, HasTwoEnds, IfKnown};

mod low_level;

use crate::node::change::Change;
use crate::tree::sides::{agent_of, constraint_of};
use crate::{Node, Problem, Side};
use mapf_grid::NoMemory;
use mapf_low::{Constraint, Constraints, Distances, Lookup};
use mapf_plan::Path;
use std::alloc::Global;
use std::marker::Model;
use std::sync::Arc;

/// The own path that a side of a node's conflict asks for: that of an agent under these constraints, the newest of which is
/// the side's, at a cost of at most the bound.
#[derive(Drop)]
pub struct SideQuery<'p> {
    problem: &'p Problem,
    side: Side,
    agent: usize,
    constraint: Constraint,
    constraints: Constraints,
    bound: u32,
    /// What its path costs at least: what it costs at the node, where the agent is forbidden less.
    least: u32,
    /// The distances from the agent's start, if there is a table: by them its path is looked for backwards.
    from_start: Option<Arc<Distances>>,
}

impl<'p> Model for SideQuery<'p> {
    ghost use Rattle.std.specs.Prelude.{option_map};
    ghost use Rattle.mapf_tree.specs.Prelude.{arc_value, SideQuery, IsAsked};

    ghost Value = { SideQuery };

    ghost view = { λ q. record {
      problem = q.problem.now;
      side = q.side;
      agent = q.agent;
      constraint = q.constraint;
      constraints = q.constraints;
      bound = q.bound;
    } };

    ghost invariant = { λ q. IsAsked (record {
      problem = q.problem.now;
      side = q.side;
      agent = q.agent;
      constraint = q.constraint;
      constraints = q.constraints;
      bound = q.bound;
    }) q.least (option_map arc_value q.from_start) };
}

impl<'p> SideQuery<'p> {
    ghost use Rattle.mapf_tree.specs.Prelude.{AreFromStart, IsQueryOf, IsFoundBy};

    /// The query of a side of a node of the tree.
    pub fn of(
        alloc: Global,
        problem: &'p Problem,
        node: &Node,
        side: Side,
    ) -> Result<SideQuery<'p>, NoMemory>
        requires { IsBranching problem.now node.now }
        ensures problem { IfOk result (λ q. q.problem ≡ problem.now) }
        ensures side { IfOk result (λ q. q.side ≡ side) }
        ensures query { IfOk result (IsQueryOf node.now) }
    {
        let conflict = node.conflict().unwrap();
        let agent = agent_of(&conflict, side);
        let constraint = constraint_of(&conflict, side);
        let least = node.path(agent).cost();
        Ok(SideQuery {
            problem,
            side,
            agent,
            constraint,
            constraints: node.constraints(alloc, agent)?.and(constraint)?,
            bound: bound_for(problem, node, agent, least),
            least,
            from_start: None,
        })
    }

    /// The query of an agent under these constraints, the newest of which is given with them, where each such path costs at least so
    /// much.
    pub(crate) fn under(
        problem: &'p Problem,
        side: Side,
        agent: usize,
        constraint: Constraint,
        constraints: Constraints,
        bound: u32,
        least: u32,
    ) -> SideQuery<'p>
        requires { IsAsked (record {
          problem = problem.now;
          side = side;
          agent = agent;
          constraint = constraint;
          constraints = constraints;
          bound = bound;
        }) least None }
        ensures { result ≡ record {
          problem = problem.now;
          side = side;
          agent = agent;
          constraint = constraint;
          constraints = constraints;
          bound = bound;
        } }
    {
        SideQuery {
            problem,
            side,
            agent,
            constraint,
            constraints,
            bound,
            least,
            from_start: None,
        }
    }

    /// The same, with these distances from its agent's start.
    pub(crate) fn with_from_start(self, distances: Arc<Distances>) -> SideQuery<'p>
        requires { AreFromStart self.problem self.agent (Some (arc_value distances)) }
        ensures { result ≡ self.entry }
    {
        SideQuery {
            from_start: Some(distances),
            ..self
        }
    }

    /// The agent.
    pub(crate) fn agent(&self) -> usize
        ensures agent { result ≡ self.now.agent }
        ensures inside { result < length self.now.problem.inst.starts }
    {
        self.agent
    }

    /// What the path may cost at most.
    pub(crate) fn bound(&self) -> u32
        ensures { result ≡ self.now.bound }
    {
        self.bound
    }

    /// What the agent is forbidden.
    pub(crate) fn constraints(&self) -> &Constraints
        ensures { result.now ≡ self.now.constraints }
    {
        &self.constraints
    }

    /// What the agent is forbidden more than at the node.
    pub(crate) fn constraint(&self) -> Constraint
        ensures constraint { result ≡ self.now.constraint }
        ensures ends { HasTwoEnds result }
    {
        self.constraint
    }

    /// What the child of the node whose side it is tells of the own path that it asks for: it is the child's, and without a
    /// child there is none.
    pub(crate) fn answer_in<'n>(
        &self,
        node: &Node,
        child: &'n Option<Node>,
    ) -> Lookup<Option<&'n Arc<Path>>>
        requires node { IsBranching self.now.problem node.now }
        requires query { IsQueryOf node.now self.now }
        requires child { IsChildOf self.now.problem node.now self.now.side child.now }
        ensures { IfKnown result (λ path. IsFoundBy self.now (option_map (λ p. arc_value p.now) path)) }
    {
        let Some(child) = child else {
            return Lookup::Known(None);
        };
        match child.last_path(self.agent) {
            Some(path) => Lookup::Known(Some(path)),
            None => Lookup::Unknown,
        }
    }

    /// The child of the node whose side it is, from the own path that it asks for; none exactly where that isn't in the tree.
    ///
    /// The number is a guess of that of the agent's extension.
    pub(crate) fn child(
        &self,
        alloc: Global,
        node: &Node,
        path: Option<Arc<Path>>,
        extension: usize,
    ) -> Result<Option<Node>, NoMemory>
        requires node { IsBranching self.now.problem node.now }
        requires query { IsQueryOf node.now self.now }
        requires path { IsFoundBy self.now (option_map arc_value path) }
        ensures { IfOk result (IsChildOf self.now.problem node.now self.now.side) }
    {
        let Some(path) = path else {
            return Ok(None);
        };
        let conflict = node.conflict_with(alloc, self.agent, &path)?;
        let old = node.path(self.agent).cost();
        let change = Arc::new(
            alloc,
            Change {
                agent: self.agent,
                constraint: self.constraint,
                path,
                extension,
            },
        )?;
        Ok(Some(node.with_change(alloc, self.side, change, old, conflict)?))
    }
}

/// What the other agents' paths leave of the bound, where this agent's own path costs so much: with a dearer path of this agent
/// than what they leave no plan is in the tree.
pub(crate) fn bound_for(problem: &Problem, node: &Node, agent: usize, own: u32) -> u32
    requires agent { agent < length node.now.plan }
    requires own { own ≡ cost (path_of node.now.plan agent) }
    requires within { plan_cost node.now.plan ≤ problem.now.bound }
    ensures leaves { Leaves problem.now node.now.plan agent result }
    ensures small { result ≤ MOST_BOUND }
    ensures bounded { problem.now.bound ≤ MOST_BOUND }
{
    left_of_bound(problem.bound(), node.key().cost, own)
}

/// What is left of a bound for one path of a plan that is within it, where all paths cost so much, and that one so much.
pub fn left_of_bound(bound: u32, all: u64, own: u32) -> u32
    requires part { own ≤ all }
    requires within { all ≤ bound }
    ensures { result + all ≡ bound + own }
{
    (u64::from(bound) - (all - u64::from(own))) as u32
}
